//! What a log has next.

ghost use Rattle.std.specs.Prelude.{◌≡◌};
ghost use Rattle.log_model.specs.Logs.{at_of, end_at};

use log_model::{CallRecord, RunEnd};

/// What a log has next.
#[derive(Clone, Copy)]
pub enum Expected<'a> {
    /// A plain step: the next record is of a later one.
    PlainStep,
    /// A call, with what it got.
    Call(&'a CallRecord),
    /// The end of the run.
    End(RunEnd),
}

/// The number of steps done before a call.
pub fn time_of_call(call: &CallRecord) -> u64
    ensures { result ≡ at_of call.now }
{
    match call {
        CallRecord::Read { at, .. } => *at,
        CallRecord::Write { at, .. } => *at,
        CallRecord::Clock { at, .. } => *at,
        CallRecord::Other { at, .. } => *at,
    }
}

/// The number of steps done before the end.
pub fn time_of_end(end: RunEnd) -> u64
    ensures { result ≡ end_at end }
{
    match end {
        RunEnd::Exit { at, .. } => at,
        RunEnd::Trap { at, .. } => at,
        RunEnd::Limit { at } => at,
    }
}
