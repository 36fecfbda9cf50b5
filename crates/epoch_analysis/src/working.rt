//! The analyses of all epochs, by the board.

ghost use Rattle.std.specs.Prelude.{◌≡◌, ◌≤◌, All, IfOk, map};
ghost use Rattle.std.specs.List.{AllZip};
ghost use Rattle.replayer.specs.Jobs.{trace_of};
ghost use Rattle.epoch_model.specs.Cutting.{epochs};
ghost use Rattle.epoch_cut.specs.Numbered.{numbered};
ghost use Rattle.epoch_engine.specs.Collecting.{AreAtBeginnings};
ghost use Rattle.epoch_analysis.specs.Epochs.{AreFound, BeginsAt};
ghost use Rattle.epoch_analysis.specs.Analyses.{HasEnded, IsFoundBy, fresh};

use crate::analysis::Analysis;
use checkpoints::Checkpoints;
use epoch_cut::{Cuts, EpochTicket};
use epoch_summary::Summary;
use no_memory::NoMemory;
use outer_io::Gate;
use query_lang::Query;
use run_board::Board;
use std::alloc::Global;
use std::sync::Wait;
use std::thread::Threads;

/// The analyses of these epochs, in order. It gives up with NoMemory alone.
fn into_tasks<'a, G>(
    alloc: Global,
    checkpoints: &'a Checkpoints<'a>,
    query: &'a Query,
    gate: &'a G,
    tickets: Vec<EpochTicket>,
) -> Result<Vec<Analysis<'a, G>>, NoMemory>
    requires { All (BeginsAt checkpoints.now) tickets.items }
    ensures { IfOk result (λ tasks. tasks.items ≡ map (fresh checkpoints.now query.now) tickets.items) }
{
    let mut tasks = Vec::with_capacity(alloc, tickets.len())?;
    for ticket in tickets {
        tasks.push(Analysis::new(alloc, checkpoints, query, gate, ticket))?;
    }
    Ok(tasks)
}

/// What analyses that have ended found, in their order. It gives up with NoMemory alone.
fn into_summaries<'a, G>(
    alloc: Global,
    tasks: Vec<Analysis<'a, G>>,
) -> Result<Vec<Summary>, NoMemory>
    requires { All HasEnded tasks.items }
    ensures { IfOk result (λ all. AllZip IsFoundBy tasks.entry.items all.items) }
{
    let mut all = Vec::with_capacity(alloc, tasks.len())?;
    for task in tasks {
        all.push(task.into_found()?)?;
    }
    Ok(all)
}

/// The summaries of all epochs of a run that is cut, in order, by `workers`, 1 to 64 of them. Each epoch enters the gate as its
/// analysis begins. It gives up with NoMemory alone.
pub fn analyse_all<G: Gate, R: Threads + Wait + Sync>(
    rt: &R,
    alloc: Global,
    gate: &G,
    checkpoints: &Checkpoints<'_>,
    query: &Query,
    cuts: Cuts,
    workers: u32,
) -> Result<Vec<Summary>, NoMemory>
    requires beginnings { AreAtBeginnings cuts checkpoints.now }
    requires workers { (1 ≤ workers) × (workers ≤ 64) }
    ensures { IfOk result (λ all.
        AreFound query.now (trace_of checkpoints.now.job) (numbered 0 (epochs 0 cuts)) all.items) }
{
    // The contract of this says that the epochs are few.
    let _count = cuts.count();
    let tickets = cuts.tickets(alloc)?;
    let tasks = into_tasks(alloc, checkpoints, query, gate, tickets)?;
    let board = Board::new(alloc, tasks)?;
    let done = board.work(rt, alloc, workers)?;
    into_summaries(alloc, done)
}
