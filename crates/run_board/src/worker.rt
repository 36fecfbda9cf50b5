//! A worker.

use crate::steps::WorkerPass;

/// A worker has a pass to the board's queue, and keeps the finished tasks that it took there.
#[derive(Drop)]
pub struct Worker<T> {
    pub pass: WorkerPass<T>,
    pub finished: Vec<T>,
}
