//! The queue before the work.

ghost use Rattle.std.specs.Prelude.{◌≡◌, ◌≤◌, vec_len};
ghost use Rattle.crossbeam_queue.specs.Passes.{view, IsPassOf, ruled_capacity};
ghost use Rattle.run_board.specs.Tasks.{AreNumbered};
ghost use Rattle.run_board.specs.Views.{opening, filled, whole_share};

use crate::steps::{Fill, TaskQueue, WorkerPass};
use crate::task::Task;
use std::sync::Wait;

/// Pushes all tasks that were handed in, in their order.
pub fn fill<T: Task, R: Wait>(rt: &R, queue: &TaskQueue<T>, pass: &mut WorkerPass<T>, tasks: Vec<T>)
    requires capacity { vec_len tasks ≤ ruled_capacity queue.now }
    requires pass { IsPassOf queue.now pass.old }
    requires numbers { AreNumbered T.words.number tasks.items }
    requires opening { view pass.old ≡ opening }
    ensures pass { IsPassOf queue.now pass.new }
    ensures filled { view pass.new ≡ filled whole_share tasks.items }
{
    for task in tasks {
        match queue.push_as::<Fill, R>(rt, pass, task) {
            Ok(()) => {}
            Err(_) => unreachable!(),
        }
    }
}
