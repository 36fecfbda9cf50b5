//! The run of a machine under a log: its plain steps are the machine's own, and each of its calls is answered from the
//! log's next record.
//!
//! Crates above rest on this: of a `Run`, `expected` is what the log has next, `step` one step of the machine, `finish`
//! the step of `replay_model`'s definitions; a run that is resumed with its counters is as it was.
#![tactic(auto)]

mod counters;
mod expected;
mod run;

pub use counters::Counters;
pub use expected::{Expected, time_of_call, time_of_end};
pub use run::Run;
