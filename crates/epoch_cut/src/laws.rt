//! Laws of the definitions: the functions do nothing, and each contract is a law.

ghost use Rattle.epoch_cut.specs.CutLaws.{CutTimesAreCutting, CutTimesAreCounted, CutTimesAreMultiples, LongFirstTimesAreCutting, ShrinkingTimesAreCutting};

/// The times at which the epochs of a run end rise strictly from 0 to its number of steps, and are 0 alone where it has none.
pub fn cut_times_are_cutting()
    ensures { CutTimesAreCutting }
{}

/// So do they where the first epoch has several lengths.
pub fn long_first_times_are_cutting()
    ensures { LongFirstTimesAreCutting }
{}

/// So do they where eight epochs at most get shorter, and there are steps for more than one.
pub fn shrinking_times_are_cutting()
    ensures { ShrinkingTimesAreCutting }
{}

/// There is one epoch for each time that the length goes into the steps, one more for what is left, and one at least. All
/// epochs but the last have `length` steps: the first k of them end after k times the length, or with the run.
pub fn epochs_have_the_length()
    ensures count { CutTimesAreCounted }
    ensures multiples { CutTimesAreMultiples }
{}
