//! Tasks on a board, which workers give turns until each is ended. A board is a queue of tasks that several workers
//! share.
//!
//! Crates above rest on this: [`Board::ready`] takes all the memory, or gives up; [`Ready::work`] then answers every
//! task that was handed in, each once, in order of number, each ended and led from its own start, whatever the number
//! of workers and however their steps fall, and takes no memory. `ready` asks tasks for their numbers alone ([`Numbered`]), so
//! none has had a turn where it gives up.
#![tactic(auto)]

mod board;
mod filling;
mod idle;
mod pool;
mod steps;
mod task;
mod turning;
mod view;
mod worker;

pub use board::{Board, MOST_TASKS, MOST_WORKERS, Ready};
pub use task::{Numbered, Task, Turn};
