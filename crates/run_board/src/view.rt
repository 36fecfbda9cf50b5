//! What a worker knows of the board.

use std::collections::LinkedList;

/// The numbers that a worker has, its shares, and the tasks handed in. Contracts alone speak of it:
/// no value of it is made.
pub struct WorkerView<T> {
    /// The number of the task that it took last, unless it put that one back.
    pub held: Option<u32>,
    /// The numbers of the finished tasks that it took before.
    pub done: LinkedList<u32>,
    /// Its part of all shares, of which there are as many as a board has workers at most. A worker that was joined to
    /// another has none.
    pub shares: u64,
    /// The tasks handed in, as far as they went into the queue.
    pub starts: LinkedList<T>,
}
