//! Recordings as definitions: the one log that recording a run gives. That there is one, and no other, are laws.
//!
//! What there is to read stands in specs/. proofs/ has worked examples, which the checker computes.
//!
//! Proved (`laws`): where the window can hold the program there is a recording, whatever the clock answers; a run is recorded
//! in one way; inputs are read in order from their beginning.
#![tactic(auto)]

pub mod laws;

use elf_model::SmallWindow;
use thiserror::Error;

/// Why there is no log of a run.
#[derive(Clone, Copy, Debug, Error)]
pub enum Unrecorded {
    /// The run's window can't hold the image. Nothing was run.
    #[error("{0}")]
    Window(SmallWindow),
    /// The log of the whole run has this many bytes, which are more than 2^26; of 2^64 bytes and more it says 2^64 - 1.
    #[error("the log has {0} bytes")]
    LogTooLong(u64),
}
