//! The answer of a query, of what was found of its run.

ghost use Rattle.std.specs.Prelude.{◌≡◌, ◌<◌, ◌^◌, ℕ, List, length, IfOk};
ghost use Rattle.log_model.specs.Logs.{steps};
ghost use Rattle.report_model.specs.Rows.{rows, rows_as_written};
ghost use Rattle.epoch_model.specs.Cutting.{IsCutting};
ghost use Rattle.replayer.specs.Jobs.{trace_of};
ghost use Rattle.checkpoints.specs.Points.{beginnings};
ghost use Rattle.run_query.specs.Crossings.{numbered};
ghost use Rattle.run_query.specs.Answers.{IsAnswerTo};

use crate::crossed::{Crossed, number};
use checkpoints::Checkpoints;
use epoch_cut::Cuts;
use epoch_engine::{Collected, Engine, Parallelism};
use no_memory::NoMemory;
use query_lang::Query;
use replayer::Job;
use seq_taint::rows_are_distinct;
use sink_collect::{Report, SinkSet, SinkSets, gather};
use std::alloc::Global;

/// What a query answers over a run that is cut into epochs.
#[derive(Drop)]
pub struct QueryAnswer {
    /// The rows of the run.
    pub report: Report,
    /// What crosses each inner cut, from the first to the last.
    pub crossed: Vec<Crossed>,
    /// How many events of the epochs' nodes moved, or 2^64 - 1 where they are more.
    pub events: u64,
}

/// The report of the rows of a job's run. It gives up with NoMemory alone.
pub(crate) fn report_of(
    alloc: Global,
    job: &Job,
    query: &Query,
    sets: SinkSets,
) -> Result<Report, NoMemory>
    requires { sets ≡ rows_as_written query.now (trace_of job.now) }
    ensures { IfOk result (λ report. report ≡ rows query.now (trace_of job.now)) }
{
    rows_are_distinct(job, query);
    gather(alloc, sets)
}

/// The report of the rows that were collected of a job's run, what crossed at each inner cut, by its number, and how many
/// events moved. It gives up with NoMemory alone.
pub fn answer_with(
    alloc: Global,
    job: &Job,
    query: &Query,
    collected: Collected,
) -> Result<QueryAnswer, NoMemory>
    requires rows { collected.sets ≡ rows_as_written query.now (trace_of job.now) }
    requires few { length collected.crossed.items < 2 ^ 32 }
    ensures report { IfOk result (λ answer. answer.report ≡ rows query.now (trace_of job.now)) }
    ensures crossed { IfOk result (λ answer. answer.crossed.items ≡ numbered 1 collected.crossed.items) }
    ensures events { IfOk result (λ answer. answer.events ≡ collected.events) }
{
    let Collected {
        sets,
        crossed,
        events,
    } = collected;
    let report = report_of(alloc, job, query, sets)?;
    let crossed = number(alloc, crossed)?;
    Ok(QueryAnswer {
        report,
        crossed,
        events,
    })
}

/// The answer of a run that is one epoch, of its rows: nothing crosses, and a node of its own would begin, walk each sink, push
/// an End to either side, and resolve the rows. It gives up with NoMemory alone.
pub(crate) fn answer_of_one(
    alloc: Global,
    job: &Job,
    query: &Query,
    sets: Vec<SinkSet>,
) -> Result<QueryAnswer, NoMemory>
    requires { sets.items ≡ rows_as_written query.now (trace_of job.now) }
    ensures { (cuts : List ℕ) → length cuts ≡ 1 → IfOk result (IsAnswerTo query.now job.now cuts) }
{
    let events = (sets.len() as u64).saturating_add(4);
    let report = report_of(alloc, job, query, SinkSets::from_vec(sets))?;
    let crossed = Vec::new(alloc);
    Ok(QueryAnswer {
        report,
        crossed,
        events,
    })
}

/// The answer of a run by an engine, of its epochs, which begin at these checkpoints. It gives up with NoMemory alone.
pub(crate) fn answer_of_epochs<E: Engine>(
    engine: &E,
    alloc: Global,
    job: &Job,
    checkpoints: &Checkpoints<'_>,
    query: &Query,
    cuts: Cuts,
    parallelism: Parallelism,
) -> Result<QueryAnswer, NoMemory>
    requires ready { E.ready engine.now }
    requires cuts { IsCutting (steps job.now.log) cuts }
    requires checkpoints { checkpoints.now ≡ record { job = job.now; times = beginnings cuts } }
    ensures { IfOk result (IsAnswerTo query.now job.now cuts) }
{
    // The contract of this says that the epochs are few.
    let _count = cuts.count();
    let collected = engine.collected(checkpoints, query, cuts, parallelism)?;
    answer_with(alloc, job, query, collected)
}

/// The report of a run by an engine, of its epochs, which begin at these checkpoints. It gives up with NoMemory alone.
pub(crate) fn report_of_epochs<E: Engine>(
    engine: &E,
    alloc: Global,
    job: &Job,
    checkpoints: &Checkpoints<'_>,
    query: &Query,
    cuts: Cuts,
    parallelism: Parallelism,
) -> Result<Report, NoMemory>
    requires ready { E.ready engine.now }
    requires cuts { IsCutting (steps job.now.log) cuts }
    requires checkpoints { checkpoints.now ≡ record { job = job.now; times = beginnings cuts } }
    ensures { IfOk result (λ report. report ≡ rows query.now (trace_of job.now)) }
{
    let sets = engine.rows(checkpoints, query, cuts, parallelism)?;
    report_of(alloc, job, query, sets)
}
