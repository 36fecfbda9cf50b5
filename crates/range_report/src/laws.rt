//! Laws of the definitions: each is the contract of a function that does nothing.

ghost use Rattle.range_report.specs.RunLaws.{RunsHoldRows, RunsAreAlone, RowsAreCounted, SameHoldsRange};

/// The runs of rows hold these rows, in order, and each is as long as can be. No other runs are so.
pub fn runs_are_longest()
    ensures rows { RunsHoldRows }
    ensures alone { RunsAreAlone }
{}

/// Each row of a report stands in a run, in the line of a point, or in the number of those that have no source.
#[tactic(auto, using(crate::proofs::Counted::rows_are_counted))]
pub fn rows_are_counted()
    ensures { RowsAreCounted }
{}

/// A run that is told as the same has one range of source bytes, as long as it is, and holds the bytes that were
/// received there.
#[tactic(auto, using(crate::proofs::Texts::same_holds_range))]
pub fn same_holds_its_range()
    ensures { SameHoldsRange }
{}
