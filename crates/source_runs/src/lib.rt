//! Runs of source bytes: neighbouring bytes of one channel, by their first and last offset.
//!
//! The definitions stand in specs/Runs.antt: the bytes of a run, and of runs.
//!
//! Crates above rest on this: `SourceRun::joined` is the run of the bytes of two runs, where they overlap or touch.
//! `normalise` makes of runs in any order the runs of their bytes, ascending, each as long as can be, and `push_bytes` appends
//! the bytes of runs.
#![tactic(auto)]

mod joining;
mod runs;

pub use joining::{normalise, push_bytes};
pub use runs::SourceRun;
