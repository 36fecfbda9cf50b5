//! Replays of recorded runs: whether a log fits a program, and the steps of the run that it records.
//!
//! Crates above rest on this, in `replay_model`'s words: `Job::check` is Ok exactly where the log fits, else the
//! first of digest, window and divergence, but for out of memory; with `Job::check_watched` a `Watcher` has then seen
//! all steps in the same replay, and where the run stood after each, but for plain steps in a row up to its quiet time,
//! of which it was told as a `Follower`; `Cursor::next` is the trace, step by step, then the end, and `run_plain` the
//! same for steps in a row that are no calls, as up to `plain_until`; `pc`, `register`, `window`,
//! `base` and `fetched` are those of the state that it stands in, and so are `pc` and `fetched` of a watcher's `Position`; a
//! cursor that is saved, or made of the parts that a watcher was lent, is as it was; a job that is taken `apart` is made
//! `whole` again of its image and each log where nothing differs; `summary` are the run's numbers, `received` the bytes that it read.
#![tactic(auto)]

mod check;
mod checker;
mod compare;
mod cursor;
mod difference;
mod job;
mod saved;
mod watcher;

pub use checker::Checker;
pub use cursor::{Cursor, Next, PlainStep};
pub use flow_model::{CallSeen, StepSeen};
pub use isa::Instr;
pub use job::{CheckFault, Job, ReplaySummary, steps_of};
pub use replay_model::{Divergence, Field, Misfit};
pub use rv_machine::{Follower, InstructionAddress, Load, Store};
pub use saved::{CursorState, Rest};
pub use watcher::{Nobody, Position, RunWatcher, Watcher};
