//! A run whose log fits its program, with the checkpoints from which earlier places are reached.

ghost use Rattle.std.specs.Prelude.{IfOk, IfErr};
ghost use Rattle.log_model.specs.Logs.{steps};
ghost use Rattle.epoch_model.specs.Cutting.{IsCutting};
ghost use Rattle.replayer.specs.Checks.{IsChecked};
ghost use Rattle.jet_model.specs.Answer.{fitting_start};
ghost use Rattle.command_parts.specs.Outcome.{IsWork};
ghost use Rattle.command_parts.specs.Views.{run_of};
ghost use Rattle.gdb_server.specs.Checking.{AreTakenFor};

use checkpoints::CheckpointTaker;
use command_parts::Run;
use elf_image::Program;
use epoch_cut::laws::cut_times_are_cutting;
use epoch_cut::{CutFault, Cuts, cuts};
use jet_refusal::Refusal;
use replay_log::Log;
use replayer::{Job, steps_of};
use std::alloc::Global;

/// How many pages of 4096 bytes the windows of all checkpoints may have together: 256 MiB.
const MOST_PAGES: u64 = 65536;

/// The fewest checkpoints of a run, however large its window is.
const FEWEST: u64 = 16;

/// The most checkpoints of a run.
const MOST: u64 = 4096;

/// The fewest steps between two checkpoints.
const SHORTEST: u64 = 4096;

/// The cuts at which the checkpoints of a log's run are taken: as many as there is room for.
pub(crate) fn cuts_of(log: &Log) -> Cuts
    ensures { IsCutting (steps log.now) result }
{
    cut_times_are_cutting();
    let room = MOST_PAGES / u64::from(log.pages()).max(1);
    let count = room.max(FEWEST).min(MOST);
    let steps = steps_of(log);
    let length = steps.div_ceil(count).max(SHORTEST);
    match cuts(steps, length) {
        Ok(cuts) => cuts,
        Err(CutFault::TooMany(_)) => unreachable!(),
    }
}

/// The job of a run whose log fits its program, and who took the checkpoints at these cuts meanwhile. It gives up with the
/// refusal of a log that doesn't fit, or is out of memory.
pub(crate) fn checked(
    alloc: Global,
    run: Run,
    cuts: &Cuts,
) -> Result<(Job, CheckpointTaker), Refusal>
    ensures checked { IfOk result (λ r. IsChecked run.program.bytes.items run.program.image run.log r.0) }
    ensures taken { IfOk result (λ r. AreTakenFor cuts.now r.0 r.1) }
    ensures err { IfErr result (λ r. IsWork (fitting_start (run_of run).program run.log) (Err r)) }
{
    let mut taker = CheckpointTaker::new(alloc, cuts)?;
    let Run { program, log } = run;
    let Program { bytes, image } = program;
    let job = Job::check_watched(alloc, &bytes, image, log, &mut taker)?;
    Ok((job, taker))
}
