//! A law of runs: no output byte and no point stands twice in the rows of a query.

ghost use Rattle.replayer.specs.Jobs.{trace_of};
ghost use Rattle.report_model.specs.Rows.{rows_as_written};
ghost use Rattle.sink_collect.specs.Distinct.{AreDistinct};

use query_lang::Query;
use replayer::Job;

/// Does nothing: it says that no output byte and no point stands twice in the rows of a query over the run of a job.
pub fn rows_are_distinct(job: &Job, query: &Query)
    ensures { AreDistinct (rows_as_written query.now (trace_of job.now)) }
{
    let _ = job;
    // The contract of this says that the points ascend.
    let _points = query.points();
}
