//! Laws of the definitions: the functions do nothing, and each contract is a law.

ghost use Rattle.epoch_layout.specs.DoneLines.{DoneLinesCome};

/// Nodes of a run that are done come to the rows of the run, to what crosses its inner cuts, and to one number of events
/// that moved, whatever joins them.
pub fn done_lines_come()
    ensures { DoneLinesCome }
{}
