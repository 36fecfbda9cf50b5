//! The workers of a board: made, at work at once, and joined into one.

ghost use Rattle.std.specs.Prelude.{◌≡◌, ◌+◌, ◌++◌, ◌<◌, ◌≤◌, [], List, All, length, vec_len, vec_capacity};
ghost use Rattle.crossbeam_queue.specs.Passes.{view, IsPassOf, ruled_capacity};
ghost use Rattle.run_board.specs.Views.{filled, whole_share};
ghost use Rattle.run_board.specs.Workers.{IsReady, HasRoomFor, IsSameWorker, KnowsStarts, Agree, view_of, shares_of};

use crate::steps::{PutBack, Shares, TaskQueue, WorkerPass};
use crate::task::Task;
use crate::turning::turn_until_empty;
use crate::worker::Worker;
use std::sync::Wait;
use std::thread;
use std::thread::Threads;

/// All workers, each with one of these lists, the last of which has the opening pass and all shares that the others don't
/// have. It takes no memory.
pub fn make_pool<T: Task>(
    queue: &TaskQueue<T>,
    mut pass: WorkerPass<T>,
    mut lists: Vec<Vec<T>>,
    mut pool: Vec<Worker<T>>,
) -> Vec<Worker<T>>
    requires count { (1 ≤ vec_len lists) × (vec_len lists ≤ whole_share) }
    requires lists { All (HasRoomFor (ruled_capacity queue.now)) lists.items }
    requires empty { pool.items ≡ [] }
    requires room { vec_len lists ≤ vec_capacity pool }
    requires pass { IsPassOf queue.now pass }
    requires filled { view pass ≡ filled whole_share (view pass).starts }
    requires few { length (view pass).starts ≤ ruled_capacity queue.now }
    ensures some { 0 < vec_len result }
    ensures ready { All (IsReady T.words (ruled_capacity queue.now) (IsPassOf queue.now)) result.items }
    ensures starts { All (KnowsStarts (view pass).starts) result.items }
    ensures shares { shares_of result.items ≡ whole_share }
{
    let Some(last) = lists.pop() else {
        unreachable!();
    };
    for finished in lists {
        let share = queue.another::<Shares>(&mut pass);
        pool.push_reserved(Worker {
            pass: share,
            finished,
        });
    }
    pool.push_reserved(Worker {
        pass,
        finished: last,
    });
    pool
}

/// All workers at once, each until its first empty pop. Where no thread can be made they go one
/// after another.
fn turn_at_once<T: Task, R: Threads + Wait + Sync>(
    rt: &R,
    queue: &TaskQueue<T>,
    pool: &mut [Worker<T>],
)
    requires some { 0 < length pool.old }
    requires ready { All (IsReady T.words (ruled_capacity queue.now) (IsPassOf queue.now)) pool.old }
    ensures ready { All (IsReady T.words (ruled_capacity queue.now) (IsPassOf queue.now)) pool.new }
    ensures starts { (starts : List T) → All (KnowsStarts starts) pool.old → All (KnowsStarts starts) pool.new }
    ensures shares { shares_of pool.new ≡ shares_of pool.old }
{
    let threads = pool.len();
    thread::for_each_mut(
        rt,
        pool,
        threads,
        &|_: usize, worker: &mut Worker<T>|
            requires { IsReady T.words (ruled_capacity queue.now) (IsPassOf queue.now) worker.now }
            ensures { IsReady T.words (ruled_capacity queue.entry.now) (IsPassOf queue.entry.now) worker.new
                × IsSameWorker worker.old worker.new }
        { turn_until_empty(rt, queue, worker) },
    );
}

/// The same, over the vector of the workers.
fn turn_pool<T: Task, R: Threads + Wait + Sync>(
    rt: &R,
    queue: &TaskQueue<T>,
    pool: &mut Vec<Worker<T>>,
)
    requires some { 0 < vec_len pool.old }
    requires ready { All (IsReady T.words (ruled_capacity queue.now) (IsPassOf queue.now)) pool.old.items }
    ensures ready { All (IsReady T.words (ruled_capacity queue.now) (IsPassOf queue.now)) pool.new.items }
    ensures starts { (starts : List T) → All (KnowsStarts starts) pool.old.items
        → All (KnowsStarts starts) pool.new.items }
    ensures shares { shares_of pool.new.items ≡ shares_of pool.old.items }
    ensures count { vec_len pool.new ≡ vec_len pool.old }
{
    turn_at_once(rt, queue, pool.as_mut_slice());
}

/// Appends another worker's finished tasks.
fn gather<T: Drop>(finished: &mut Vec<T>, others: Vec<T>)
    requires { vec_len finished.old + vec_len others ≤ vec_capacity finished.old }
    ensures items { finished.new.items ≡ finished.old.items ++ others.items }
    ensures capacity { vec_capacity finished.new ≡ vec_capacity finished.old }
{
    for task in others {
        finished.push_reserved(task);
    }
}

/// Joins a worker that has left to another one. The look at the queue changes nothing: it shows that
/// one list holds the tasks of both.
fn join<T: Task>(queue: &TaskQueue<T>, worker: &mut Worker<T>, other: Worker<T>)
    requires ready { IsReady T.words (ruled_capacity queue.now) (IsPassOf queue.now) worker.old }
    requires other_ready { IsReady T.words (ruled_capacity queue.now) (IsPassOf queue.now) other }
    requires other_starts { KnowsStarts (view_of worker.old).starts other }
    ensures ready { IsReady T.words (ruled_capacity queue.now) (IsPassOf queue.now) worker.new }
    ensures starts { KnowsStarts (view_of worker.old).starts worker.new }
    ensures shares { (view_of worker.new).shares ≡ (view_of worker.old).shares + (view_of other).shares }
{
    let Worker { pass, finished } = other;
    queue.absorb::<Shares>(&mut worker.pass, pass);
    queue.learn_as::<PutBack>(&mut worker.pass);
    gather(&mut worker.finished, finished);
}

/// Joins all workers that have left to one.
fn join_all<T: Task>(queue: &TaskQueue<T>, worker: &mut Worker<T>, others: Vec<Worker<T>>)
    requires ready { IsReady T.words (ruled_capacity queue.now) (IsPassOf queue.now) worker.old }
    requires others_ready { All (IsReady T.words (ruled_capacity queue.now) (IsPassOf queue.now)) others.items }
    requires others_starts { All (KnowsStarts (view_of worker.old).starts) others.items }
    ensures ready { IsReady T.words (ruled_capacity queue.now) (IsPassOf queue.now) worker.new }
    ensures starts { KnowsStarts (view_of worker.old).starts worker.new }
    ensures shares { (view_of worker.new).shares ≡ (view_of worker.old).shares + shares_of others.items }
{
    for other in others {
        join(queue, worker, other);
    }
}

/// All workers at once, and then one worker for them all. It takes no memory.
pub fn run_pool<T: Task, R: Threads + Wait + Sync>(
    rt: &R,
    queue: &TaskQueue<T>,
    mut pool: Vec<Worker<T>>,
) -> Worker<T>
    requires some { 0 < vec_len pool }
    requires ready { All (IsReady T.words (ruled_capacity queue.now) (IsPassOf queue.now)) pool.items }
    requires agree { Agree pool.items }
    ensures ready { IsReady T.words (ruled_capacity queue.now) (IsPassOf queue.now) result }
    ensures starts { (starts : List T) → All (KnowsStarts starts) pool.items → KnowsStarts starts result }
    ensures shares { (view_of result).shares ≡ shares_of pool.items }
{
    turn_pool(rt, queue, &mut pool);
    let Some(mut worker) = pool.pop() else {
        unreachable!()
    };
    join_all(queue, &mut worker, pool);
    worker
}
