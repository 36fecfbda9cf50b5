//! A query over a whole run.

ghost use Rattle.std.specs.Prelude.{◌≡◌, IfOk};
ghost use Rattle.log_model.specs.Logs.{steps};
ghost use Rattle.report_model.specs.Rows.{rows};
ghost use Rattle.epoch_model.specs.Cutting.{IsCutting};
ghost use Rattle.replayer.specs.Jobs.{trace_of};
ghost use Rattle.run_query.specs.Answers.{IsAnswerTo};

use crate::answer::{QueryAnswer, answer_of_epochs, answer_of_one, report_of, report_of_epochs};
use checkpoints::Checkpoints;
use epoch_cut::Cuts;
use epoch_engine::{Engine, Parallelism};
use no_memory::NoMemory;
use query_lang::Query;
use replayer::Job;
use seq_taint::sequential;
use sink_collect::{Report, SinkSets};
use std::alloc::Global;

/// The report of a query over a run that is cut into epochs, what crosses each inner cut, and how many events of its nodes
/// move, or 2^64 - 1 where they are more. One epoch alone is analysed here, and several by the engine, from a checkpoint
/// where each begins, by links. The engine enters each epoch as its analysis begins. It gives up with NoMemory alone.
pub fn query<E: Engine>(
    engine: &E,
    alloc: Global,
    job: &Job,
    query: &Query,
    cuts: Cuts,
    parallelism: Parallelism,
) -> Result<QueryAnswer, NoMemory>
    requires ready { E.ready engine.now }
    requires cuts { IsCutting (steps job.now.log) cuts }
    ensures { IfOk result (IsAnswerTo query.now job.now cuts) }
{
    if cuts.count() == 1 {
        engine.enter(0);
        let sets = sequential(alloc, job, query)?;
        return answer_of_one(alloc, job, query, sets);
    }
    let checkpoints = Checkpoints::take(alloc, job, &cuts)?;
    answer_of_epochs(engine, alloc, job, &checkpoints, query, cuts, parallelism)
}

/// The report alone of a query over a run that is cut into epochs. One epoch alone is analysed here, and several by the
/// engine, joined as the parallelism tells. The engine enters each epoch as its analysis begins. It gives up with NoMemory
/// alone.
pub(crate) fn report<E: Engine>(
    engine: &E,
    alloc: Global,
    job: &Job,
    query: &Query,
    cuts: Cuts,
    parallelism: Parallelism,
) -> Result<Report, NoMemory>
    requires ready { E.ready engine.now }
    requires cuts { IsCutting (steps job.now.log) cuts }
    ensures { IfOk result (λ report. report ≡ rows query.now (trace_of job.now)) }
{
    if cuts.count() > 1 {
        let checkpoints = Checkpoints::take(alloc, job, &cuts)?;
        return report_of_epochs(engine, alloc, job, &checkpoints, query, cuts, parallelism);
    }
    engine.enter(0);
    let sets = sequential(alloc, job, query)?;
    report_of(alloc, job, query, SinkSets::from_vec(sets))
}
