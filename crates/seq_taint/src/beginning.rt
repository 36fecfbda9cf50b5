//! The beginning of a run, tracked while it is checked.

ghost use Rattle.std.specs.Prelude.{◌≡◌, ◌≤◌, None, IfOk, IfErr, OnOk};
ghost use Rattle.log_model.specs.Logs.{end_at, steps};
ghost use Rattle.no_memory.specs.Faults.{IsCausedBy};
ghost use Rattle.replay_model.specs.Comparison.{divergence};
ghost use Rattle.replayer.specs.InParts.{AgreesSoFar, Differs};
ghost use Rattle.replayer.specs.Jobs.{Job as JobAt};
ghost use Rattle.source_labels.specs.Words.{label_words};
ghost use Rattle.taint_shadow.specs.Steps.{AreStanding};
ghost use Rattle.taint_tracking.specs.Sinks.{AreLabelled};
ghost use Rattle.seq_taint.specs.Beginnings.{IsTrackedFirst};

use crate::watching;
use no_memory::Fault;
use query_lang::Query;
use replayer::{Checker, Divergence};
use source_labels::SourceLabels;
use std::alloc::Global;
use taint_tracking::Tracked;

/// The labels of source bytes after the run's steps before a time, which are checked meanwhile. The check stands at the run's
/// beginning, and the time comes before the log's end. It says where the log differs from the run; else it gives up with NoMemory
/// alone.
pub fn check_beginning(
    alloc: Global,
    checker: Checker<'_>,
    until: u64,
    query: &Query,
) -> Result<Tracked<SourceLabels>, Fault<Divergence>>
    requires begins { checker.moment.time ≡ 0 }
    requires ends { until ≤ end_at checker.log.end }
    ensures standing { IfOk result (λ t. AreStanding label_words t.labels t.places) }
    ensures labelled { IfOk result (λ t. AreLabelled label_words t.labels t.sinks.items) }
    ensures tracked { IfOk result (IsTrackedFirst query.now checker.entry until) }
    ensures fault { IfErr result (IsCausedBy (Differs checker.entry)) }
{
    let mut watching = watching(alloc, query)?;
    match checker.go_to(until, &mut watching) {
        Ok(_) => Ok(watching.finish()?),
        Err(divergence) => Err(Fault::At(divergence)),
    }
}

/// The labels of source bytes after all steps of a run, which is checked meanwhile up to the log's end. The check stands at the
/// run's beginning. It says where the log differs from the run; else it gives up with NoMemory alone.
pub fn check_all(
    alloc: Global,
    checker: Checker<'_>,
    query: &Query,
) -> Result<Tracked<SourceLabels>, Fault<Divergence>>
    requires begins { checker.moment.time ≡ 0 }
    ensures standing { IfOk result (λ t. AreStanding label_words t.labels t.places) }
    ensures labelled { IfOk result (λ t. AreLabelled label_words t.labels t.sinks.items) }
    ensures tracked { IfOk result (IsTrackedFirst query.now checker.entry (steps checker.entry.log)) }
    ensures agrees { OnOk result ((job : JobAt)
        → AgreesSoFar job checker.entry → divergence job.start job.log ≡ None) }
    ensures fault { IfErr result (IsCausedBy (Differs checker.entry)) }
{
    let mut watching = watching(alloc, query)?;
    match checker.finish(&mut watching) {
        Ok(()) => Ok(watching.finish()?),
        Err(divergence) => Err(Fault::At(divergence)),
    }
}
