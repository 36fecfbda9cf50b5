//! A query over the first steps of a run, which has the rows of the whole.

ghost use Rattle.std.specs.Prelude.{◌≡◌, IfOk};
ghost use Rattle.report_model.specs.Rows.{rows};
ghost use Rattle.replayer.specs.Jobs.{trace_of};
ghost use Rattle.run_query.specs.Parts.{AreEnough};

use crate::whole::report;
use epoch_cut::Cuts;
use epoch_engine::{Engine, Parallelism};
use no_memory::NoMemory;
use query_lang::Query;
use replayer::Job;
use run_beginning::laws::beginning_has_rows;
use run_beginning::{cut_off, put_back};
use sink_collect::Report;
use std::alloc::Global;

/// The job, and the report of a query over its run, of which the first `steps` steps alone are analysed: no later step
/// changes a row. They are cut into epochs, each of which the engine enters. It gives up with NoMemory alone.
pub(crate) fn query_beginning<E: Engine>(
    engine: &E,
    alloc: Global,
    job: Job,
    query: &Query,
    steps: u64,
    cuts: Cuts,
    parallelism: Parallelism,
) -> Result<(Job, Report), NoMemory>
    requires ready { E.ready engine.now }
    requires enough { AreEnough query.now job.log steps cuts }
    ensures job { IfOk result (λ r. r.0 ≡ job) }
    ensures report { IfOk result (λ r. r.1 ≡ rows query.now (trace_of job)) }
{
    job.form();
    beginning_has_rows();
    let (beginning, tail) = cut_off(job, steps)?;
    let report = report(engine, alloc, &beginning, query, cuts, parallelism)?;
    let job = put_back(beginning, tail)?;
    Ok((job, report))
}
