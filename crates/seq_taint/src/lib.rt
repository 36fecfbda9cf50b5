//! The rows of a whole run, in the order of the run: the run is one epoch, which asks nothing of any other. Its
//! locations are labelled with source bytes alone: what stood anywhere at the run's start came from none.
//!
//! Crates above rest on this: `sequential` is the rows in the order of the run, each output byte and each point once.
//! `check_whole` finds the sinks of a run, each with a label, while its log is checked. `check_beginning` gives the label of each
//! location at a time of the run, and the sinks up to there, each with a label, while the steps before that time are checked;
//! `check_all` gives them at the run's end: for each job whose run stands where the check does. `rows_are_distinct` is a law of all
//! runs. What watches a run is told of its steps by a loop that is compiled for this crate alone: so the loop has the machine and
//! the labels in its midst.
#![tactic(auto)]

mod beginning;
mod checking;
mod distinct;
mod labelled;

ghost use Rattle.std.specs.Prelude.{◌≡◌, IfOk};
ghost use Rattle.replayer.specs.Jobs.{trace_of};
ghost use Rattle.report_model.specs.Rows.{rows_as_written};
ghost use Rattle.sink_collect.specs.Distinct.{AreDistinct};
ghost use Rattle.source_labels.specs.Words.{label_words};
ghost use Rattle.taint_tracking.specs.Watched.{HasBegun};

pub use beginning::{check_all, check_beginning};
pub use checking::check_whole;
pub use distinct::rows_are_distinct;
use labelled::sinks_of;
use no_memory::NoMemory;
use query_lang::Query;
use replayer::Job;
use sink_collect::SinkSet;
use source_labels::SourceLabels;
use std::alloc::Global;
use taint_tracking::Watching;

/// The output bytes of a run and the points inside it that the query asks for, each with the source bytes that it came
/// from, in the order of the run: at each time the points, and then the bytes that the next step writes.
pub fn sequential(alloc: Global, job: &Job, query: &Query) -> Result<Vec<SinkSet>, NoMemory>
    ensures rows { IfOk result (λ sets. sets.items ≡ rows_as_written query.now (trace_of job.now)) }

    // No output byte and no point stands twice.
    ensures distinct { IfOk result (λ sets. AreDistinct sets.items) }
{
    rows_are_distinct(job, query);
    let mut watching = watching(alloc, query)?;
    job.watch(alloc, &mut watching)?;
    let sinks = sinks_of(watching)?;
    sinks.rows(alloc)
}

/// What watches a run from its first step on for the sinks of a query. It gives up with NoMemory alone.
pub(crate) fn watching<'q>(
    alloc: Global,
    query: &'q Query,
) -> Result<Watching<'q, SourceLabels>, NoMemory>
    ensures { IfOk result (HasBegun label_words query.now) }
{
    Watching::new(alloc, SourceLabels::new(alloc), query)
}
