//! The sinks of a run, found while its log is checked.

ghost use Rattle.std.specs.Prelude.{IfOk, IfErr};
ghost use Rattle.no_memory.specs.Faults.{IsCausedBy};
ghost use Rattle.replayer.specs.Checks.{IsChecked, IsMisfit};
ghost use Rattle.seq_taint.specs.Runs.{AreSinksOfRun};

use crate::labelled::sinks_of;
use crate::watching;
use elf_image::Program;
use labelled_sinks::LabelledSinks;
use query_lang::Query;
use replay_log::Log;
use replayer::{CheckFault, Job};
use std::alloc::Global;

/// Checks that a log fits a program, and finds in the same replay the sinks of the run, which is analysed as a whole.
///
/// The fault is that of [`Job::check`]: the first misfit that holds, or out of memory.
pub fn check_whole(
    alloc: Global,
    program: Program,
    log: Log,
    query: &Query,
) -> Result<(Job, LabelledSinks), CheckFault>
    ensures checked { IfOk result (λ r. IsChecked program.bytes.items program.image log r.0) }
    ensures sinks { IfOk result (λ r. AreSinksOfRun query.now r.0 r.1) }
    ensures fault { IfErr result (IsCausedBy (IsMisfit program.bytes.items program.image log)) }
{
    let mut watching = watching(alloc, query)?;
    let Program { bytes, image } = program;
    let job = Job::check_watched(alloc, &bytes, image, log, &mut watching)?;
    let sinks = sinks_of(watching)?;
    Ok((job, sinks))
}
