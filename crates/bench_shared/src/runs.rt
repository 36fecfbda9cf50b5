//! The runs that are timed.

ghost use Rattle.std.specs.Prelude.{◌≡◌, ◌≤◌, IfOk, length};
ghost use Rattle.run_board.specs.Tasks.{AreNumbered};

use crate::countdown::Countdown;
use no_memory::NoMemory;
use run_board::{Board, Task};
use std::alloc::Global;
use std::sync::Wait;
use std::thread::Threads;

/// So many tasks, each of which takes so many turns.
fn tasks(alloc: Global, count: u32, turns: u32) -> Result<Vec<Countdown>, NoMemory>
    ensures numbers { IfOk result (λ tasks. AreNumbered (λ (task : Countdown). task.number) tasks.items) }
    ensures count { IfOk result (λ tasks. length tasks.items ≡ count) }
{
    let mut tasks = Vec::new(alloc);
    for number in 0..count {
        tasks.push(Countdown::new(number, turns))?;
    }
    Ok(tasks)
}

/// Three tasks that take one, two and three turns, ended by the workers of a board.
pub fn three_tasks<R: Threads + Wait + Sync>(
    rt: &R,
    alloc: Global,
    workers: u32,
) -> Result<Vec<Countdown>, NoMemory>
    requires { (1 ≤ workers) × (workers ≤ 64) }
{
    let tasks = vec![in alloc;
        Countdown::new(0, 1),
        Countdown::new(1, 2),
        Countdown::new(2, 3),
    ]?;
    Board::new(alloc, tasks)?.work(rt, alloc, workers)
}

/// The turns that these took together.
fn turns_of(tasks: &[Countdown]) -> u64 {
    let mut turns = 0u64;
    for task in tasks {
        turns = turns.saturating_add(u64::from(task.taken()));
    }
    turns
}

/// Gives each of so many tasks one turn, and so on, by a plain loop. Answers the turns that they took.
pub fn plain_loop(alloc: Global, count: u32, turns: u32) -> Result<u64, NoMemory> {
    let mut tasks = tasks(alloc, count, turns)?;
    for _ in 0..turns {
        for task in tasks.iter_mut() {
            let _ = task.turn();
        }
    }
    Ok(turns_of(&tasks))
}

/// The same by the workers of a board.
pub fn board<R: Threads + Wait + Sync>(
    rt: &R,
    alloc: Global,
    count: u32,
    turns: u32,
    workers: u32,
) -> Result<u64, NoMemory>
    requires count { (1 ≤ count) × (count ≤ 4096) }
    requires workers { (1 ≤ workers) × (workers ≤ 64) }
{
    let tasks = tasks(alloc, count, turns)?;
    let ended = Board::new(alloc, tasks)?.work(rt, alloc, workers)?;
    Ok(turns_of(&ended))
}
