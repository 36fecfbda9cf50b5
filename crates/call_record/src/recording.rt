//! Capturing a run.

ghost use Rattle.std.specs.Prelude.{◌≡◌, ◌≤◌, ◌^◌, None, Ok, Err, length, IfOk, IfErr, OnErr};
ghost use Rattle.std.specs.List.{All};
ghost use Rattle.elf_model.specs.Image.{image as image_of_file};
ghost use Rattle.elf_model.specs.Window.{start_of};
ghost use Rattle.log_model.specs.declared.Version.TheVariants.{Two};
ghost use Rattle.log_model.specs.Logs.{CanHold, log_text};
ghost use Rattle.call_record.specs.Captures.{setting_of, IsCaptured, IsCause};
ghost use Rattle.call_record.specs.Steps.{Gained};
ghost use Rattle.no_memory.specs.declared.Fault.TheVariants.{At};
ghost use Rattle.no_memory.specs.Faults.{IsCausedBy};
ghost use Rattle.record_model.specs.declared.Unrecorded.TheVariants.{Window};

use crate::fault::CaptureFault;
use crate::recorder::Recorder;
use crate::source::Source;
use elf_image::Image;
use no_memory::Fault;
use outer_io::Clock;
use record_model::Unrecorded;
use replay_log::Log;
use rv_machine::Machine;
use sha2::{Digest, Sha256};
use std::alloc::Global;

/// Runs a program, of which `image` is the image, and gives the log of the run.
///
/// The window has this many pages of 4096 bytes, 1 to 4096. There are at most 16 inputs, each of at most 2^26
/// bytes: input c is what the guest reads on channel c. A read gets the next bytes of its channel, at most as
/// many as it asks for and at most `piece`: with a piece of 0 each read that isn't refused gets 0 bytes, as at
/// the end of its input. The clock is read once for each clock call of the guest, and at no other time. The run
/// is cut off once `steps` steps are done, at most 2^40: with 0 steps the log has no record, and its end is a limit
/// at 0.
///
/// The log fits the program, version 2 can hold it, and its text there has at most 2^26 bytes. The faults are:
/// `Window`, exactly where the window can't hold the image; and `LogTooLong`, where the text of the whole run's log has
/// more bytes than that, with their number, or 2^64 - 1 where they are more: the run goes on to its end, but no more
/// records are kept.
pub fn capture<K: Clock>(
    alloc: Global,
    program: &[u8],
    image: &Image,
    pages: u32,
    inputs: &[Vec<u8>],
    clock: &mut K,
    piece: u32,
    steps: u64,
) -> Result<Log, CaptureFault>
    requires image { image_of_file program.now ≡ Ok image.now }
    requires some { 1 ≤ pages }
    requires most { pages ≤ 4096 }
    requires few { length inputs.now ≤ 16 }
    requires short { All (λ v. length v.items ≤ 2 ^ 26) inputs.now }
    requires limit { steps ≤ 2 ^ 40 }
    ensures captured { IfOk result (IsCaptured (setting_of program.now pages inputs.now piece steps)
        (K.answers clock.old) (K.answers clock.new)) }
    ensures small { IfOk result (λ log. length (log_text Two log) ≤ 2 ^ 26) }
    ensures held { IfOk result (CanHold Two) }
    ensures window { start_of image.now pages ≡ None → result ≡ Err (At (Window (record { pages = pages }))) }
    ensures cause { IfErr result (IsCausedBy (IsCause (setting_of program.now pages inputs.now piece steps) image.now
        (K.answers clock.old) (K.answers clock.new))) }
    ensures gained { OnErr result (Gained (K.answers clock.old) (K.answers clock.new)) }
{
    let machine = match Machine::new(alloc, image, pages) {
        Ok(machine) => machine,
        Err(Fault::At(window)) => return Err(Fault::At(Unrecorded::Window(window))),
        Err(Fault::NoMemory(no_memory)) => return Err(Fault::NoMemory(no_memory)),
    };
    let source = Source { inputs, piece };
    let mut recorder = Recorder::new(alloc, machine, source.channels());
    let end = recorder.run(alloc, &source, clock, steps)?;
    let Recorder {
        machine: _,
        counts: _,
        tape,
    } = recorder;
    tape.into_log(pages, Sha256::digest(program), end)
}
