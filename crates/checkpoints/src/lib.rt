//! Checkpoints: where the run of a job stands at the beginning of each epoch, taken while a replay of it is watched.
//!
//! A checkpoint keeps the numbers of its window's pages, and a page that is as it was at the checkpoint before is kept
//! once for both. So the memory that they take is the pages that changed. The taker notes which pages the steps write, and
//! at each checkpoint only those are compared.
//!
//! Crates above rest on this: a `CheckpointTaker` that watched the whole check of a log, or a replay of its job as in
//! `Checkpoints::take`, has a checkpoint at the beginning of each epoch of a cutting; `start` is a cursor of the job
//! there, and so is what a `StartPoint` starts, which may have a cursor handed on; `held` is how many pages the first
//! window has, and at how many places each later one has a page that differs from that in the one before.
#![tactic(auto)]

mod checkpoint;
mod checkpoints;
mod pages;
mod paging;
mod start_point;
mod taken;
mod taker;
mod touched;

pub use checkpoints::Checkpoints;
pub use start_point::StartPoint;
pub use taker::CheckpointTaker;
