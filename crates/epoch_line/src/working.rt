//! The rows of a run that is cut, from its epochs to what these come to.

ghost use Rattle.std.specs.Prelude.{◌≡◌, IfOk, IfErr};
ghost use Rattle.log_model.specs.Logs.{steps};
ghost use Rattle.no_memory.specs.Faults.{IsCausedBy};
ghost use Rattle.epoch_model.specs.Cutting.{IsCutting};
ghost use Rattle.replayer.specs.Checks.{IsChecked, IsMisfit};
ghost use Rattle.epoch_engine.specs.Collecting.{AreAtBeginnings, AreRowsOf, IsCollectedOf};

use checked_epochs::check_and_analyse;
use checkpoints::Checkpoints;
use elf_image::Program;
use epoch_analysis::analyse_all;
use epoch_cut::Cuts;
use epoch_engine::{Collected, Joining, Parallelism};
use epoch_layout::{collect, lay_out};
use epoch_turns::work_in_groups;
use labelled_sinks::LabelledSinks;
use no_memory::NoMemory;
use outer_io::Gate;
use query_lang::Query;
use replay_log::Log;
use replayer::{CheckFault, Job};
use sink_collect::SinkSets;
use std::alloc::Global;
use std::sync::Wait;
use std::thread::Threads;
use summary_join::{join, join_after};

/// The rows of a run that is cut, what crosses its inner cuts, and how many events moved, by a node for each epoch, in
/// threads of `rt`. Each node enters the gate as it begins. It gives up with NoMemory alone.
pub fn work<G: Gate, R: Threads + Wait + Sync>(
    rt: &R,
    alloc: Global,
    gate: &G,
    checkpoints: &Checkpoints<'_>,
    query: &Query,
    cuts: Cuts,
    parallelism: Parallelism,
) -> Result<Collected, NoMemory>
    requires { AreAtBeginnings cuts checkpoints.now }
    ensures { IfOk result (IsCollectedOf query.now checkpoints.now.job cuts) }
{
    let Parallelism {
        workers,
        joining: _,
        link,
    } = parallelism;
    // The contract of this says that the epochs are few.
    let _count = cuts.count();
    let nodes = lay_out(alloc, checkpoints, query, gate, cuts, link)?;
    let done = work_in_groups(rt, alloc, nodes, workers)?;
    collect(alloc, done)
}

/// The rows of a run that is cut, by the analyses of its epochs in threads of `rt`, which are joined by links or by one
/// log. Each epoch enters the gate as its analysis begins. It gives up with NoMemory alone.
pub fn rows<G: Gate, R: Threads + Wait + Sync>(
    rt: &R,
    alloc: Global,
    gate: &G,
    checkpoints: &Checkpoints<'_>,
    query: &Query,
    cuts: Cuts,
    parallelism: Parallelism,
) -> Result<SinkSets, NoMemory>
    requires { AreAtBeginnings cuts checkpoints.now }
    ensures { IfOk result (AreRowsOf query.now checkpoints.now.job) }
{
    match parallelism.joining {
        Joining::ByLinks => {
            let Collected { sets, .. } = work(
                rt,
                alloc,
                gate,
                checkpoints,
                query,
                cuts,
                parallelism,
            )?;
            Ok(sets)
        }
        Joining::ByOneLog => {
            // The contract of this says that the points are at locations.
            let _points = query.points();
            let workers = parallelism.workers;
            let summaries = analyse_all(rt, alloc, gate, checkpoints, query, cuts, workers)?;
            let sinks = join(alloc, summaries)?;
            rows_of_sinks(rt, alloc, sinks, workers)
        }
    }
}

/// Checks that a log fits a program, and gives the job of its run, and the rows of the run, which is cut. Its epochs are analysed
/// in threads of `rt` while it is checked, and joined by one log; each enters the gate as its analysis begins.
///
/// The fault is that of [`Job::check`]: the first misfit that holds, or out of memory.
pub fn checked_rows<G: Gate, R: Threads + Wait + Sync>(
    rt: &R,
    alloc: Global,
    gate: &G,
    program: Program,
    log: Log,
    query: &Query,
    cuts: Cuts,
    parallelism: Parallelism,
) -> Result<(Job, SinkSets), CheckFault>
    requires cutting { IsCutting (steps log) cuts }
    ensures checked { IfOk result (λ r. IsChecked program.bytes.items program.image log r.0) }
    ensures rows { IfOk result (λ r. AreRowsOf query.now r.0 r.1) }
    ensures fault { IfErr result (IsCausedBy (IsMisfit program.bytes.items program.image log)) }
{
    // The contract of this says that the points are at locations.
    let _points = query.points();
    let workers = parallelism.workers;
    let (job, first, later) = check_and_analyse(rt, alloc, gate, program, log, query, cuts)?;
    let sinks = join_after(alloc, first, later)?;
    let rows = rows_of_sinks(rt, alloc, sinks, workers)?;
    Ok((job, rows))
}

/// The rows of sinks, in their order, which all workers make. The sinks are let go. It gives up with NoMemory alone.
fn rows_of_sinks<R: Threads + Sync>(
    rt: &R,
    alloc: Global,
    sinks: LabelledSinks,
    workers: u32,
) -> Result<SinkSets, NoMemory>
    ensures { IfOk result (λ sets. sets ≡ sinks) }
{
    sinks.rows_at_once(rt, alloc, workers)
}
