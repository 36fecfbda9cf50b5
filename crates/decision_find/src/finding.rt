//! The text of the decisions of a run, which is gone through once.

ghost use Rattle.std.specs.Prelude.{◌≡◌, IfOk, IfErr};
ghost use Rattle.no_memory.specs.Faults.{IsCausedBy};
ghost use Rattle.replayer.specs.Checks.{IsChecked, IsMisfit};
ghost use Rattle.decision_find.specs.Text.{decisions_report};

use crate::watching::DecisionWatching;
use elf_image::Program;
use no_memory::NoMemory;
use query_lang::Query;
use replay_log::Log;
use replayer::{CheckFault, Job};
use std::alloc::Global;

/// The text of the decisions of a job's run that come from the source bytes that a query chooses: a line for each place,
/// and the number of those lines. It fails only where there is no memory.
pub fn decisions(alloc: Global, job: &Job, query: &Query) -> Result<Vec<u8>, NoMemory>
    ensures { IfOk result (λ text. text.items ≡ decisions_report job.now.start job.now.log query.now) }
{
    job.form();
    let mut watching = DecisionWatching::new(alloc, query, job.log().end());
    job.watch(alloc, &mut watching)?;
    watching.text(alloc)
}

/// Checks that a log fits a program, and gives the job of its run, and the text of the run's decisions, as [`decisions`] does.
/// They are found in the replay that checks the log.
///
/// The fault is that of [`Job::check`]: the first misfit that holds, or out of memory.
pub fn check_and_decide(
    alloc: Global,
    program: Program,
    log: Log,
    query: &Query,
) -> Result<(Job, Vec<u8>), CheckFault>
    ensures checked { IfOk result (λ r. IsChecked program.bytes.items program.image log r.0) }
    ensures text { IfOk result (λ r. r.1.items ≡ decisions_report r.0.start r.0.log query.now) }
    ensures fault { IfErr result (IsCausedBy (IsMisfit program.bytes.items program.image log)) }
{
    let mut watching = DecisionWatching::new(alloc, query, log.end());
    let Program { bytes, image } = program;
    let job = Job::check_watched(alloc, &bytes, image, log, &mut watching)?;
    job.form();
    let text = watching.text(alloc)?;
    Ok((job, text))
}
