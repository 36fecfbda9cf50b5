//! Where the epochs of a run begin, found while its log is checked.

ghost use Rattle.std.specs.Prelude.{IfOk, IfErr};
ghost use Rattle.no_memory.specs.Faults.{IsCausedBy};
ghost use Rattle.replayer.specs.Checks.{IsChecked, IsMisfit};
ghost use Rattle.run_query.specs.Checking.{AreTakenFor};

use checkpoints::CheckpointTaker;
use elf_image::Program;
use epoch_cut::Cuts;
use replay_log::Log;
use replayer::{CheckFault, Job};
use std::alloc::Global;

/// Checks that a log fits a program, and takes in the same replay the checkpoints at the cuts of the run.
///
/// The fault is that of [`Job::check`]: the first misfit that holds, or out of memory.
pub fn check_parts(
    alloc: Global,
    program: Program,
    log: Log,
    cuts: &Cuts,
) -> Result<(Job, CheckpointTaker), CheckFault>
    ensures checked { IfOk result (λ r. IsChecked program.bytes.items program.image log r.0) }
    ensures taken { IfOk result (λ r. AreTakenFor cuts.now r.0 r.1) }
    ensures fault { IfErr result (IsCausedBy (IsMisfit program.bytes.items program.image log)) }
{
    let mut taker = CheckpointTaker::new(alloc, cuts)?;
    let Program { bytes, image } = program;
    let job = Job::check_watched(alloc, &bytes, image, log, &mut taker)?;
    Ok((job, taker))
}
