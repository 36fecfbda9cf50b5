//! The sinks of a run that was watched.

ghost use Rattle.std.specs.Prelude.{IfOk};
ghost use Rattle.log_model.specs.Logs.{steps};
ghost use Rattle.report_model.specs.Query.{Query as AnyQuery};
ghost use Rattle.replayer.specs.Jobs.{Job as AnyJob, trace_of};
ghost use Rattle.source_labels.specs.Words.{label_words};
ghost use Rattle.taint_tracking.specs.Watched.{HasTracked};
ghost use Rattle.seq_taint.specs.Runs.{AreSinksOfRun};

use labelled_sinks::LabelledSinks;
use no_memory::NoMemory;
use source_labels::SourceLabels;
use taint_tracking::Watching;

/// The sinks of the run that was watched to its end, each with its label. The labels of its locations are let go. It gives up
/// with NoMemory alone: where memory ran out while it watched.
pub(crate) fn sinks_of(watching: Watching<'_, SourceLabels>) -> Result<LabelledSinks, NoMemory>
    ensures { IfOk result (λ sinks. (q : AnyQuery) (job : AnyJob)
        → HasTracked label_words q (trace_of job) (steps job.log) watching.entry → AreSinksOfRun q job sinks) }
{
    let tracked = watching.finish()?;
    Ok(LabelledSinks::new(tracked.labels, tracked.sinks))
}
