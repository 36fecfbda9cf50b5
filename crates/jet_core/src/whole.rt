//! A query over a whole run, by the line of nodes, on one thread, and by one log.

ghost use Rattle.std.specs.Prelude.{◌≡◌, IfOk, IfErr};
ghost use Rattle.log_model.specs.Logs.{steps};
ghost use Rattle.report_model.specs.Rows.{rows};
ghost use Rattle.epoch_model.specs.Cutting.{IsCutting};
ghost use Rattle.no_memory.specs.Faults.{IsCausedBy};
ghost use Rattle.stream_model.specs.Work.{run_work};
ghost use Rattle.replayer.specs.Checks.{IsChecked, IsMisfit};
ghost use Rattle.replayer.specs.Jobs.{trace_of};
ghost use Rattle.sink_collect.specs.Pairs.{capped};
ghost use Rattle.run_query.specs.Crossings.{crossed};
ghost use Rattle.epoch_engine.specs.Collecting.{AreAtBeginnings, AreRowsOf, IsCollectedOf};
ghost use Rattle.epoch_engine.specs.Texts.{AreTextsOf};

use crate::analysing::rows_at_once;
use checkpoints::Checkpoints;
use elf_image::Program;
use epoch_cut::Cuts;
use epoch_engine::{ClosureEngine, Collected, Parallelism};
use epoch_line::{checked_rows, rows, work};
use epoch_link::Capacity;
use no_memory::NoMemory;
use outer_io::Gate;
use query_lang::Query;
use replay_log::Log;
use replayer::{CheckFault, Job};
use run_query::{Crossed, QueryAnswer, answer_with};
use seq_taint::rows_are_distinct;
use sink_collect::{Report, SinkSet, SinkSets, gather, texts_at_once};
use std::alloc::Global;
use std::sync::Wait;
use std::thread::Threads;

/// The report of a query over a run that is cut into epochs, what crosses each inner cut, and how many events of its
/// nodes move, or 2^64 - 1 where they are more, as [`run_query::query`] gives them by the line of nodes. Each epoch enters
/// the gate as its analysis begins. It gives up with NoMemory alone.
pub fn query<G: Gate, R: Threads + Wait + Sync>(
    rt: &R,
    alloc: Global,
    gate: &G,
    job: &Job,
    query: &Query,
    cuts: Cuts,
    parallelism: Parallelism,
) -> Result<(Report, Vec<Crossed>, u64), NoMemory>
    requires { IsCutting (steps job.now.log) cuts }
    ensures report { IfOk result (λ r. r.0 ≡ rows query.now (trace_of job.now)) }
    ensures crossed { IfOk result (λ r. r.1.items ≡ crossed query.now (trace_of job.now) cuts) }
    ensures events { IfOk result (λ r. r.2 ≡ capped (run_work query.now (trace_of job.now) cuts)) }
{
    let line = ClosureEngine {
        gate,
        checked_rows: |program: Program, log: Log, query: &Query, cuts: Cuts, parallelism: Parallelism| -> Result<
            (Job, SinkSets),
            CheckFault,
        >
            requires cutting { IsCutting (steps log) cuts }
            ensures checked { IfOk result (λ r. IsChecked program.bytes.items program.image log r.0) }
            ensures rows { IfOk result (λ r. AreRowsOf query.entry.now r.0 r.1) }
            ensures fault { IfErr result (IsCausedBy (IsMisfit program.bytes.items program.image log)) }
        { checked_rows(rt, alloc, gate, program, log, query, cuts, parallelism) },
        rows: |checkpoints: &Checkpoints<
            '_,
        >, query: &Query, cuts: Cuts, parallelism: Parallelism| -> Result<SinkSets, NoMemory>
            requires { AreAtBeginnings cuts checkpoints.now }
            ensures { IfOk result (AreRowsOf query.entry.now checkpoints.entry.now.job) }
        { rows(rt, alloc, gate, checkpoints, query, cuts, parallelism) },
        work: |checkpoints: &Checkpoints<
            '_,
        >, query: &Query, cuts: Cuts, parallelism: Parallelism| -> Result<Collected, NoMemory>
            requires { AreAtBeginnings cuts checkpoints.now }
            ensures { IfOk result (IsCollectedOf query.entry.now checkpoints.entry.now.job cuts) }
        { work(rt, alloc, gate, checkpoints, query, cuts, parallelism) },
        texts: |rows: &[SinkSet], workers: u32| -> Result<Vec<Vec<u8>>, NoMemory>
            ensures { IfOk result (λ texts. AreTextsOf rows.entry.now texts.items) }
        { texts_at_once(rt, alloc, rows, workers) },
    };
    let QueryAnswer {
        report,
        crossed,
        events,
    } = run_query::query(&line, alloc, job, query, cuts, parallelism)?;
    Ok((report, crossed, events))
}

/// The same as [`query`], on this thread alone: the nodes' cores have their events in turn, again and again.
/// It never waits, and returns whatever growths are refused. It gives up with NoMemory alone.
///
/// Each link holds at most `capacity` messages.
pub fn round_robin<G: Gate>(
    alloc: Global,
    gate: &G,
    job: &Job,
    query: &Query,
    cuts: Cuts,
    capacity: Capacity,
) -> Result<(Report, Vec<Crossed>, u64), NoMemory>
    requires cuts { IsCutting (steps job.now.log) cuts }
    ensures report { IfOk result (λ r. r.0 ≡ rows query.now (trace_of job.now)) }
    ensures crossed { IfOk result (λ r. r.1.items ≡ crossed query.now (trace_of job.now) cuts) }
    ensures events { IfOk result (λ r. r.2 ≡ capped (run_work query.now (trace_of job.now) cuts)) }
{
    job.form();
    // The contract of this says that the epochs are few.
    let _count = cuts.count();
    let checkpoints = Checkpoints::take(alloc, job, &cuts)?;
    let collected = crate::rounds::round_robin(alloc, gate, &checkpoints, query, cuts, capacity)?;
    let QueryAnswer {
        report,
        crossed,
        events,
    } = answer_with(alloc, job, query, collected)?;
    Ok((report, crossed, events))
}

/// The report of a query over a run that is cut into epochs, analysed at once and joined by one log. It gives up with
/// NoMemory alone.
pub fn joined<R: Threads + Sync>(
    rt: &R,
    alloc: Global,
    job: &Job,
    query: &Query,
    cuts: Cuts,
) -> Result<Report, NoMemory>
    requires { IsCutting (steps job.now.log) cuts }
    ensures { IfOk result (λ report. report ≡ rows query.now (trace_of job.now)) }
{
    job.form();
    rows_are_distinct(job, query);
    let checkpoints = Checkpoints::take(alloc, job, &cuts)?;
    let sets = rows_at_once(rt, alloc, &checkpoints, query, cuts)?;
    gather(alloc, sets)
}
