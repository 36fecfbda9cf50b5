//! A log checked, and a query over its run.

ghost use Rattle.std.specs.Prelude.{◌≡◌, IfOk, IfErr};
ghost use Rattle.log_model.specs.Logs.{steps};
ghost use Rattle.report_model.specs.Rows.{rows};
ghost use Rattle.epoch_model.specs.Cutting.{IsCutting};
ghost use Rattle.no_memory.specs.Faults.{IsCausedBy};
ghost use Rattle.replayer.specs.Checks.{IsChecked, IsMisfit};
ghost use Rattle.replayer.specs.Jobs.{trace_of};
ghost use Rattle.run_query.specs.Checking.{AreTakenFor};
ghost use Rattle.run_query.specs.Parts.{IsEnough};

use crate::answer::{report_of, report_of_epochs};
use crate::beginning::query_beginning;
use crate::checking::check_parts;
use crate::part::Part;
use checkpoints::CheckpointTaker;
use elf_image::Program;
use epoch_cut::Cuts;
use epoch_engine::{Engine, Joining, Parallelism};
use no_memory::NoMemory;
use query_lang::Query;
use replay_log::Log;
use replayer::{CheckFault, Job};
use seq_taint::check_whole;
use sink_collect::{Report, SinkSets};
use std::alloc::Global;

/// Checks that a log fits a program, and gives the job of its run, and the report of a query over the run, of which this
/// part is analysed. Of the whole run that is found in the replay that checks the log. The engine enters each epoch as its
/// analysis begins; one that is the whole run is analysed here.
///
/// The fault is that of [`Job::check`]: the first misfit that holds, or out of memory.
pub fn check_and_query<E: Engine>(
    engine: &E,
    alloc: Global,
    program: Program,
    log: Log,
    query: &Query,
    part: Part,
    parallelism: Parallelism,
) -> Result<(Job, Report), CheckFault>
    requires ready { E.ready engine.now }
    requires enough { IsEnough query.now log part }
    ensures checked { IfOk result (λ r. IsChecked program.bytes.items program.image log r.0) }
    ensures report { IfOk result (λ r. r.1 ≡ rows query.now (trace_of r.0)) }
    ensures fault { IfErr result (IsCausedBy (IsMisfit program.bytes.items program.image log)) }
{
    match part {
        Part::Whole(cuts) => {
            if cuts.count() == 1 {
                engine.enter(0);
                let (job, sinks) = check_whole(alloc, program, log, query)?;
                let report = report_of(alloc, &job, query, SinkSets::from_vec(sinks.rows(alloc)?))?;
                return Ok((job, report));
            }
            query_epochs(engine, alloc, program, log, query, cuts, parallelism)
        }
        Part::Beginning { steps, cuts } => {
            let Program { bytes, image } = program;
            let job = Job::check(alloc, &bytes, image, log)?;
            let found = query_beginning(engine, alloc, job, query, steps, cuts, parallelism)?;
            Ok(found)
        }
    }
}

/// Checks that a log fits a program, and gives the job of its run, and the report of a query over the run, which has several
/// epochs. Where links join these, they begin at checkpoints that the check takes; else the engine has them analysed while the
/// check goes on. The fault is that of [`check_and_query`].
fn query_epochs<E: Engine>(
    engine: &E,
    alloc: Global,
    program: Program,
    log: Log,
    query: &Query,
    cuts: Cuts,
    parallelism: Parallelism,
) -> Result<(Job, Report), CheckFault>
    requires ready { E.ready engine.now }
    requires cutting { IsCutting (steps log) cuts }
    ensures checked { IfOk result (λ r. IsChecked program.bytes.items program.image log r.0) }
    ensures report { IfOk result (λ r. r.1 ≡ rows query.now (trace_of r.0)) }
    ensures fault { IfErr result (IsCausedBy (IsMisfit program.bytes.items program.image log)) }
{
    match parallelism.joining {
        Joining::ByLinks => {
            let (job, taker) = check_parts(alloc, program, log, &cuts)?;
            let report = report_of_taken(engine, alloc, &job, taker, query, cuts, parallelism)?;
            Ok((job, report))
        }
        Joining::ByOneLog => {
            let (job, sets) = engine.checked_rows(program, log, query, cuts, parallelism)?;
            let report = report_of(alloc, &job, query, sets)?;
            Ok((job, report))
        }
    }
}

/// The report of a run of several epochs, of the checkpoints that were taken where each begins. It gives up with NoMemory
/// alone.
fn report_of_taken<E: Engine>(
    engine: &E,
    alloc: Global,
    job: &Job,
    taker: CheckpointTaker,
    query: &Query,
    cuts: Cuts,
    parallelism: Parallelism,
) -> Result<Report, NoMemory>
    requires ready { E.ready engine.now }
    requires cuts { IsCutting (steps job.now.log) cuts }
    requires taken { AreTakenFor cuts job.now taker }
    ensures { IfOk result (λ report. report ≡ rows query.now (trace_of job.now)) }
{
    let checkpoints = taker.finish(job)?;
    report_of_epochs(engine, alloc, job, &checkpoints, query, cuts, parallelism)
}
