//! The run of the guest, recorded in memory.

ghost use Rattle.std.specs.Prelude.{◌≡◌, ◌≤◌, ◌^◌, length, IfOk, IfErr};
ghost use Rattle.log_model.specs.declared.Version.TheVariants.{Two};
ghost use Rattle.log_model.specs.Logs.{CanHold, log_text};
ghost use Rattle.order_gateway.specs.Guest.{guest_file, guest_image};
ghost use Rattle.order_gateway.specs.Answer.{IsWorkloadLog};
ghost use Rattle.no_memory.specs.Faults.{IsCausedBy};
ghost use Rattle.order_gateway.specs.Recordings.{IsCause};

use crate::clock::StoppedClock;
use crate::generator::input;
use crate::guest::guest_program;
use call_record::{CaptureFault, Unrecorded, capture};
use elf_image::Program;
use no_memory::Fault;
use replay_log::Log;
use std::alloc::Global;

/// The most steps after which a run is cut off.
pub const MOST_STEPS: u64 = 2_000_000;

/// The pages of the run's window.
const PAGES: u32 = 4;

/// How many bytes a read gets at most.
const PIECE: u32 = 16_777_216;

/// The guest, and the log of its run.
#[derive(Drop)]
pub struct Recording {
    pub program: Program,
    pub log: Log,
}

/// Records the run with this seed, of so many steps, with a clock that answers 0.
///
/// The fault is `LogTooLong` where the text of the run's log has more than 2^26 bytes, with their number, or 2^64 - 1
/// where they are more.
pub fn recorded(alloc: Global, seed: u64, steps: u64) -> Result<Recording, CaptureFault>
    requires { steps ≤ MOST_STEPS }
    ensures program { IfOk result (λ run. run.program.bytes.items ≡ guest_file) }
    ensures image { IfOk result (λ run. run.program.image ≡ guest_image) }
    ensures log { IfOk result (λ run. IsWorkloadLog seed steps run.log) }
    ensures short { IfOk result (λ run. length (log_text Two run.log) ≤ 2 ^ 26) }
    ensures held { IfOk result (λ run. CanHold Two run.log) }
    ensures cause { IfErr result (IsCausedBy (IsCause seed steps)) }
{
    let program = guest_program(alloc)?;
    let inputs = [input(alloc, seed, steps)?];
    let mut clock = StoppedClock::new();
    match capture(
        alloc,
        &program.bytes,
        &program.image,
        PAGES,
        &inputs,
        &mut clock,
        PIECE,
        steps,
    ) {
        Ok(log) => {
            clock.counted()?;
            Ok(Recording { program, log })
        }
        Err(Fault::At(Unrecorded::LogTooLong(size))) => {
            clock.counted()?;
            Err(Fault::At(Unrecorded::LogTooLong(size)))
        }
        Err(Fault::At(Unrecorded::Window(_))) => unreachable!(),
        Err(Fault::NoMemory(no_memory)) => Err(Fault::NoMemory(no_memory)),
    }
}
