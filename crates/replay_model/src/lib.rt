//! Replays as definitions: the trace of a program under a log, where the two first differ, and which logs fit a
//! program.
//!
//! What there is to read stands in specs/. Proved (`laws`): there is no divergence exactly where nothing differs at any
//! moment up to the end's time, and a divergence is the first difference; its values differ; offsets count the bytes
//! moved before; two writes never share an output byte; what the reads of a trace received is what its log received;
//! version 2 can hold a log that fits.
#![tactic(auto)]

pub mod laws;

use elf_model::SmallWindow;
use thiserror::Error;

/// What is compared at a step, in this order.
#[derive(Clone, Copy, Debug, PartialEq, Eq)]
pub enum Field {
    /// What happens: 0 a plain step, 1 to 5 a read, a write, the clock, another call and the exit, 6 a
    /// trap.
    Event,
    /// The first argument of a read or a write.
    A0,
    /// The second argument.
    A1,
    /// The third argument.
    A2,
    /// The result of a read or a write.
    Result,
    /// A byte of a write, counted from 0.
    Byte(u32),
    /// The number of another call.
    Number,
    /// The exit code.
    Code,
    /// The exception code of a trap.
    Kind,
    /// The pc of a trap.
    Pc,
}

/// The first difference between a log and its program: the step, the field, what the log keeps and
/// what the program shows. Fields that are numbers of 32 bits are as they are; only results go below 0.
#[derive(Clone, Copy, Debug, PartialEq, Eq)]
pub struct Divergence {
    pub step: u64,
    pub field: Field,
    pub kept: i64,
    pub seen: i64,
}

/// Why a log doesn't fit its program: the first of these that holds.
#[derive(Clone, Copy, Debug, Error)]
pub enum Misfit {
    /// The log is of another program: the digest that it keeps, and the SHA-256 digest (FIPS 180-4) of the program that
    /// was seen, which differ.
    #[error("the log is of another program")]
    WrongProgram { kept: [u8; 32], seen: [u8; 32] },
    /// A window of the log's pages can't hold the image.
    #[error("{0}")]
    Window(SmallWindow),
    /// The run differs from the log, here first. What is kept differs from what is seen.
    #[error("the run differs from the log")]
    Diverged(Divergence),
}
