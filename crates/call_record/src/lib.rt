//! Recording runs: `capture` runs a program over inputs and a clock, and gives the log of the run.
//!
//! Crates above rest on this: `capture` gives the one log that the run with this setting and the clock's answers has,
//! by `record_model`'s definitions; or Window, or LogTooLong with the size of the whole log.
#![tactic(auto)]

mod entry;
mod fault;
mod recorder;
mod recording;
mod source;
mod tape;
mod transfer;

pub use fault::CaptureFault;
pub use record_model::Unrecorded;
pub use recording::capture;
