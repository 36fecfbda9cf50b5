//! The workload of `bench`: the guest's file and its input, the log of its run, its query, and the lines that are
//! printed of it.
//!
//! What there is to read stands in specs/: a guest and its input, how its run is recorded and queried, and the lines; proofs/
//! has worked examples, which the checker computes. Proved (`laws`): the guest has a word for each instruction and is an
//! image; a seed, a number of steps and a length of epochs have one answer, which is the lines of the run within the limits.
//!
//! Crates above rest on this: the guest's file, its input and its query are those of the definitions; `recorded` is the log of
//! its run, or LogTooLong with its size; `text_of` is the lines.
#![tactic(auto)]

mod clock;
mod generator;
mod guest;
pub mod laws;
mod lines;
mod queries;
mod recording;

pub use generator::input;
pub use guest::{guest_file, guest_program};
pub use lines::text_of;
pub use queries::query;
pub use recording::{MOST_STEPS, Recording, recorded};

/// What `bench` prints of a run that was recorded and queried.
#[derive(Clone, Copy)]
pub struct Numbers {
    /// The steps of the run.
    pub steps: u64,
    /// The epochs that it was cut into.
    pub epochs: u64,
    /// The lines of the report but for the last.
    pub sinks: u64,
    /// The source bytes that the report lists in all, or 2^64 - 1 where they are more.
    pub pairs: u64,
    /// The locations that were asked at the cuts between epochs, in all, or 2^64 - 1 where they are more.
    pub asked: u64,
    /// The SHA-256 digest of the report.
    pub digest: [u8; 32],
    /// The events that move in the nodes of its epochs, or 2^64 - 1 where they are more.
    pub events: u64,
}
