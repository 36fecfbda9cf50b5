//! What a turn at a board costs, beside a plain loop over the same tasks.
//!
//! Standard output counts the turns taken, first at boards of three tasks and at one with the most tasks and workers,
//! which are not timed.

ghost use Rattle.std.specs.Prelude.{◌≤◌};

use crate::runs;
use run_board::{MOST_TASKS, MOST_WORKERS, Numbered};
use std::alloc::Global;
use std::sync::Wait;
use std::thread::Threads;
use std::time::{Clock, Instant};

/// How many tasks each timed run has.
const TASKS: u32 = 1000;

/// How many turns each of them takes.
const TURNS: u32 = 200;

/// How many workers each run of the board has.
const WORKERS: [u32; 3] = [1, 4, 64];

/// Three tasks, which tell their turns one by one, with these workers.
fn tell_three(
    rt: &(impl Print + Threads + Wait + Sync),
    alloc: Global,
    workers: u32,
) -> anyhow::Result<()>
    requires { (1 ≤ workers) × (workers ≤ 64) }
{
    for task in &runs::three_tasks(rt, alloc, workers)? {
        let (number, taken) = (task.number(), task.taken());
        println!(rt; "{workers} workers, turns of task {number}: {taken}")?;
    }
    Ok(())
}

/// Three tasks with one worker and with four, and then the most tasks with the most workers.
pub fn untimed(rt: &(impl Print + Threads + Wait + Sync), alloc: Global) -> anyhow::Result<()> {
    tell_three(rt, alloc, 1)?;
    tell_three(rt, alloc, 4)?;
    let turns = runs::board(rt, alloc, MOST_TASKS as u32, 20, MOST_WORKERS)?;
    println!(rt; "{MOST_TASKS} tasks, {MOST_WORKERS} workers: {turns} turns")?;
    Ok(())
}

/// Runs the loop and then the board, each over the same tasks.
pub fn timed<R: Print + Eprint + Threads + Clock + Wait + Sync>(
    rt: &R,
    alloc: Global,
) -> anyhow::Result<()> {
    let start = Instant::now(rt)?;
    let turns = runs::plain_loop(alloc, TASKS, TURNS)?;
    let took = start.elapsed(rt)?.as_nanos();
    println!(rt; "loop: {turns} turns")?;
    eprintln!(rt; "loop: {} ns", took)?;
    for workers in WORKERS {
        let start = Instant::now(rt)?;
        let turns = runs::board(rt, alloc, TASKS, TURNS, workers)?;
        let took = start.elapsed(rt)?.as_nanos();
        println!(rt; "board, {workers} workers: {turns} turns")?;
        eprintln!(rt; "board, {} workers: {} ns", workers, took)?;
    }
    Ok(())
}
