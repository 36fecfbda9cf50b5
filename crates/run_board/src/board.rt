//! A board, and its work.

ghost use Rattle.std.specs.Prelude.{◌≡◌, ◌≤◌, [], All, IfOk, IsPermutation, length, map, vec_len, vec_capacity};
ghost use Rattle.std.specs.List.{AllZip};
ghost use Rattle.std.specs.List.Sorted.{IsNonDecreasingBy};
ghost use Rattle.run_board.specs.Tasks.{AreNumbered};
ghost use Rattle.run_board.specs.Workers.{HasRoomFor};

use crate::filling::fill;
use crate::pool::{make_pool, run_pool};
use crate::steps::{TaskQueue, WorkerPass};
use crate::task::{Numbered, Task};
use crate::turning::turn_until_empty;
use crate::worker::Worker;
use no_memory::NoMemory;
use std::alloc::Global;
use std::marker::Model;
use std::sync::Wait;
use std::thread::Threads;

/// The most tasks that a board takes.
pub const MOST_TASKS: usize = 4096;

/// The most workers that work at a board.
pub const MOST_WORKERS: u32 = 64;

/// Tasks that wait for their turns. Contracts see it as the list of the tasks handed in.
#[derive(Drop)]
pub struct Board<T: Numbered> {
    tasks: Vec<T>,
    finished: Vec<T>,
}

impl<T: Numbered> Model for Board<T> {
    ghost use Rattle.std.specs.Prelude.{◌≡◌, ◌≤◌, [], List, length, vec_capacity};
    ghost use Rattle.run_board.specs.Tasks.{AreNumbered};

    ghost Value = { List T };

    ghost view = { λ board. board.tasks.items };

    ghost invariant = { λ board. AreNumbered T.words.number board.tasks.items × (1 ≤ length board.tasks.items) × (board.finished.items ≡ []) × (length board.tasks.items ≤ vec_capacity board.finished) };
}

/// A board with all the memory that its work takes. Contracts see it as the list of the tasks handed in.
#[derive(Drop)]
pub struct Ready<T: Numbered> {
    tasks: Vec<T>,
    queue: TaskQueue<T>,
    pass: WorkerPass<T>,
    lists: Vec<Vec<T>>,
    pool: Vec<Worker<T>>,
}

impl<T: Numbered> Model for Ready<T> {
    ghost use Rattle.std.specs.Prelude.{◌≡◌, ◌≤◌, [], List, All, vec_len, vec_capacity};
    ghost use Rattle.crossbeam_queue.specs.Passes.{view as known_by, IsPassOf, ruled_capacity};
    ghost use Rattle.run_board.specs.Tasks.{AreNumbered};
    ghost use Rattle.run_board.specs.Views.{opening, whole_share};
    ghost use Rattle.run_board.specs.Workers.{HasRoomFor};

    ghost Value = { List T };

    ghost view = { λ ready. ready.tasks.items };

    ghost invariant = { λ ready. AreNumbered T.words.number ready.tasks.items
        × (vec_len ready.tasks ≤ ruled_capacity ready.queue) × IsPassOf ready.queue ready.pass × (known_by ready.pass ≡ opening)
        × (1 ≤ vec_len ready.lists) × (vec_len ready.lists ≤ whole_share) × All (HasRoomFor (ruled_capacity ready.queue)) ready.lists.items
        × (ready.pool.items ≡ []) × (vec_len ready.lists ≤ vec_capacity ready.pool) };
}

impl<T: Numbered> Board<T> {
    /// A board of 1 to [`MOST_TASKS`] tasks, whose numbers are 0, 1, 2 and so on. It gives up with
    /// NoMemory alone.
    pub fn new(alloc: Global, tasks: Vec<T>) -> Result<Board<T>, NoMemory>
        requires numbers { AreNumbered T.words.number tasks.items }
        requires count { (1 ≤ length tasks.items) × (length tasks.items ≤ MOST_TASKS) }
        ensures { IfOk result (λ board. board ≡ tasks.items) }
    {
        let finished = Vec::with_capacity(alloc, tasks.len())?;
        Ok(Board { tasks, finished })
    }

    /// The board with all the memory that the work of 1 to [`MOST_WORKERS`] workers takes: the queue, and for each worker
    /// a list that has room for all tasks. It gives up with NoMemory alone: then the tasks are dropped, and none had a turn.
    pub fn ready(self, alloc: Global, workers: u32) -> Result<Ready<T>, NoMemory>
        requires { (1 ≤ workers) × (workers ≤ MOST_WORKERS) }
        ensures { IfOk result (λ ready. ready ≡ self) }
    {
        let Board { tasks, finished } = self;
        let workers = workers as usize;
        let (queue, pass) = TaskQueue::<T>::ruled(alloc, tasks.len())?;
        let lists = make_lists(alloc, finished, tasks.len(), workers)?;
        let pool = Vec::with_capacity(alloc, workers)?;
        Ok(Ready {
            tasks,
            queue,
            pass,
            lists,
            pool,
        })
    }
}

impl<T: Task> Board<T> {
    /// [`Board::ready`], and then [`Ready::work`].
    pub fn work<R: Threads + Wait + Sync>(
        self,
        rt: &R,
        alloc: Global,
        workers: u32,
    ) -> Result<Vec<T>, NoMemory>
        requires { (1 ≤ workers) × (workers ≤ MOST_WORKERS) }
        ensures order { IfOk result (λ tasks. map T.words.number tasks.items ≡ map T.words.number self) }
        ensures ended { IfOk result (λ tasks. All T.words.ended tasks.items) }
        ensures led { IfOk result (λ tasks. AllZip T.words.led_from tasks.items self) }
    {
        let ready = self.ready(alloc, workers)?;
        Ok(ready.work(rt))
    }
}

/// So many empty lists, each with room for so many tasks: this one is among them.
fn make_lists<T: Numbered>(
    alloc: Global,
    first: Vec<T>,
    room: usize,
    count: usize,
) -> Result<Vec<Vec<T>>, NoMemory>
    requires first { HasRoomFor room first }
    requires some { 1 ≤ count }
    ensures count { IfOk result (λ lists. vec_len lists ≡ count) }
    ensures room { IfOk result (λ lists. All (HasRoomFor room) lists.items) }
{
    let mut lists = Vec::with_capacity(alloc, count)?;
    lists.push_reserved(first);
    for _ in 1..count {
        lists.push_reserved(Vec::with_capacity(alloc, room)?);
    }
    Ok(lists)
}

impl<T: Task> Ready<T> {
    /// Gives the tasks turns until each is ended, by all workers at once, and answers them in order of number, each led
    /// from the task handed in with that number. It takes no memory.
    ///
    /// A worker takes a task, gives it one turn, puts it back unless it is done, and leaves when it
    /// finds no task. When all have left, the calling worker goes on alone until no task is left. Where
    /// no thread can be made the workers go one after another.
    pub fn work<R: Threads + Wait + Sync>(self, rt: &R) -> Vec<T>
        ensures order { map T.words.number result.items ≡ map T.words.number self }
        ensures ended { All T.words.ended result.items }
        ensures led { AllZip T.words.led_from result.items self }
    {
        let Ready {
            tasks,
            queue,
            mut pass,
            lists,
            pool,
        } = self;
        fill(rt, &queue, &mut pass, tasks);
        let pool = make_pool(&queue, pass, lists, pool);
        let mut worker = run_pool(rt, &queue, pool);
        turn_until_empty(rt, &queue, &mut worker);
        in_order(worker.finished)
    }
}

/// The tasks in order of number.
fn in_order<T: Numbered>(tasks: Vec<T>) -> Vec<T>
    ensures permutation { IsPermutation tasks.items result.items }
    ensures sorted { IsNonDecreasingBy T.words.number result.items }
{
    let mut sorted = tasks;
    sorted.sort_unstable_by_key(|task| task.number());
    sorted
}
