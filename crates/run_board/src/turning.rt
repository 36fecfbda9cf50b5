//! One worker at the queue.

ghost use Rattle.std.specs.Prelude.{◌≡◌, ◌<◌, ◌≤◌, ℕ, length, vec_len, vec_capacity};
ghost use Rattle.crossbeam_queue.specs.Passes.{IsPassOf, ruled_capacity};
ghost use Rattle.run_board.specs.Rule.{view_weight, whole_weight};
ghost use Rattle.run_board.specs.Views.{whole_share};
ghost use Rattle.run_board.specs.Workers.{HasTaken, IsReady, IsSameWorker, view_of};

use crate::idle::Idle;
use crate::steps::{PutBack, Take, TaskQueue};
use crate::task::{Task, Turn};
use crate::worker::Worker;
use std::sync::Wait;

/// Puts the task that the worker took, and that isn't ended, back into the queue.
fn put_back<T: Task, R: Wait>(rt: &R, queue: &TaskQueue<T>, worker: &mut Worker<T>, task: T)
    requires pass { IsPassOf queue.now worker.old.pass }
    requires taken { HasTaken T.words (view_of worker.old) worker.old.finished.items task }
    requires open_task { ¬ T.words.ended task }
    requires few { length (view_of worker.old).starts ≤ ruled_capacity queue.now }
    requires room { ruled_capacity queue.now ≤ vec_capacity worker.old.finished }
    ensures ready { IsReady T.words (ruled_capacity queue.now) (IsPassOf queue.now) worker.new }
    ensures same_worker { IsSameWorker worker.old worker.new }
{
    match queue.push_as::<PutBack, R>(rt, &mut worker.pass, task) {
        Ok(()) => {}
        Err(_) => unreachable!(),
    }
}

/// Gives the task that the worker took one turn. A task that is then done is kept, any other goes
/// back into the queue.
fn turn_once<T: Task, R: Wait>(
    rt: &R,
    queue: &TaskQueue<T>,
    worker: &mut Worker<T>,
    idle: &mut Idle,
    mut task: T,
)
    requires pass { IsPassOf queue.now worker.old.pass }
    requires taken { HasTaken T.words (view_of worker.old) worker.old.finished.items task }
    requires few { length (view_of worker.old).starts ≤ ruled_capacity queue.now }
    requires room { ruled_capacity queue.now ≤ vec_capacity worker.old.finished }
    requires space { vec_len worker.old.finished < vec_capacity worker.old.finished }
    ensures ready { IsReady T.words (ruled_capacity queue.now) (IsPassOf queue.now) worker.new }
    ensures same_worker { IsSameWorker worker.old worker.new }
{
    let answer = task.turn();
    idle.note(answer);
    match answer {
        Turn::Done => worker.finished.push_reserved(task),
        Turn::Moved | Turn::NotYet => put_back(rt, queue, worker, task),
    }
}

/// Takes a task, gives it one turn, and so on, until a pop finds the queue empty. A worker with all
/// shares then has all tasks.
pub fn turn_until_empty<T: Task, R: Wait>(rt: &R, queue: &TaskQueue<T>, worker: &mut Worker<T>)
    requires ready { IsReady T.words (ruled_capacity queue.now) (IsPassOf queue.now) worker.old }
    ensures ready { IsReady T.words (ruled_capacity queue.now) (IsPassOf queue.now) worker.new }
    ensures same_worker { IsSameWorker worker.old worker.new }
    ensures has_all { (view_of worker.new).shares ≡ whole_share → (weight : ℕ → ℕ)
        → view_weight weight (view_of worker.new) ≡ whole_weight (length (view_of worker.new).starts) weight }
{
    let mut idle = Idle::new();
    for _ in rt.forever() {
        idle.rest(rt);
        match queue.pop_as::<Take, R>(rt, &mut worker.pass) {
            Some(task) => turn_once(rt, queue, worker, &mut idle, task),
            None => return,
        }
    }
    unreachable!()
}
