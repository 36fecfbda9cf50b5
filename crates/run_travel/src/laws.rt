//! Laws of the definitions: each is the contract of a function that does nothing.

ghost use Rattle.run_travel.specs.MoveLaws.{SomeByteIsOfBoth, NothingIsPassedOn, NothingIsPassedBack, OneStepIsMade, OnIsTakenBack};

/// A watchpoint looks at what a step reads, or writes, exactly where some byte is of both. So an access of no bytes
/// meets none, wherever it is said to be.
pub fn a_watchpoint_is_met_by_a_byte_of_both()
    ensures { SomeByteIsOfBoth }
{}

/// Between the ends of a move there is no stop. A move forward ends after the first step after which the run is to
/// stop; if there is none, at the end of the run. A move back ends before the last step before which it is to stop, or
/// at the beginning.
pub fn nothing_is_passed_over()
    ensures on { NothingIsPassedOn }
    ensures back { NothingIsPassedBack }
{}

/// A move by one step makes one, unless the run stands at its end.
pub fn one_step_is_made()
    ensures { OneStepIsMade }
{}

/// With breakpoints alone, a move on that began at a breakpoint, and made a step, is taken back by a move back.
pub fn a_move_on_is_taken_back()
    ensures { OnIsTakenBack }
{}
