//! The command `record`: a program is run over its inputs, and the log of the run is made.
ghost use Rattle.std.specs.Prelude.{◌≡◌, ◌≤◌, ◌^◌, ◌∷◌, length, map, IfOk, IfErr};
ghost use Rattle.std.specs.List.{All};
ghost use Rattle.call_record.specs.Sources.{contents};
ghost use Rattle.command_parts.specs.Outcome.{seen_by};
ghost use Rattle.command_parts.specs.Views.{program_of};
ghost use Rattle.jet_commands.specs.Targets.{ToFile};
ghost use Rattle.jet_commands.specs.Answers.{limits_of, IsCapture, IsRecording, IsWorkOf};
ghost use Rattle.jet_commands.specs.Ending.{IsUnasked};
ghost use Rattle.jet_commands.specs.Obeying.{given_text, given_target, Gives};

use crate::delivery::Given;
use crate::inputs::open_inputs;
use call_record::capture;
use command_parts::open_program;
use elf_image::Program;
use jet_refusal::Refusal;
use outer_io::{Clock, Store};
use replay_log::write_log;
use std::alloc::Global;

/// How a run is recorded.
#[derive(Clone, Copy)]
pub struct Limits {
    /// The pages of 4096 bytes of the window, 1 to 4096.
    pub pages: u32,
    /// The greatest number of bytes that a read gets.
    pub piece: u32,
    /// The number of steps after which the run is cut off, at most 2^40.
    pub steps: u64,
}

/// The log of the program's run over these inputs, as a file of this name.
fn log_file<'a, K: Clock>(
    alloc: Global,
    clock: &mut K,
    program: &Program,
    inputs: &[Vec<u8>],
    limits: Limits,
    name: &'a str,
) -> Result<Given<'a>, Refusal>
    requires some { 1 ≤ limits.pages }
    requires most { limits.pages ≤ 4096 }
    requires steps { limits.steps ≤ 2 ^ 40 }
    requires few { length inputs.now ≤ 16 }
    requires short { All (λ v. length v.items ≤ 2 ^ 26) inputs.now }
    ensures answer { IsWorkOf (IsCapture (record { program = program_of program.now; inputs = contents inputs.now })
        (limits_of limits.pages limits.piece limits.steps) (K.answers clock.old) (K.answers clock.new))
        (seen_by given_text result) }
    ensures goes { IfOk result (λ given. given_target given ≡ ToFile name.entry.now) }
    ensures unasked { IfErr result (IsUnasked (K.answers clock.old) (K.answers clock.new)) }
{
    let log = capture(
        alloc,
        &program.bytes,
        &program.image,
        limits.pages,
        inputs,
        clock,
        limits.piece,
        limits.steps,
    )?;
    let content = write_log(alloc, &log)?;
    Ok(Given::Made { name, content })
}

/// Reads the program and its inputs, one after another, and records the run, into a log of this name. It gives up as reading
/// them does, with `Window`, with `LogTooLong`, or out of memory.
pub fn record<'a, S: Store, K: Clock>(
    alloc: Global,
    store: &mut S,
    clock: &mut K,
    program: &str,
    inputs: &[&str],
    limits: Limits,
    name: &'a str,
) -> Result<Given<'a>, Refusal>
    requires some { 1 ≤ limits.pages }
    requires most { limits.pages ≤ 4096 }
    requires steps { limits.steps ≤ 2 ^ 40 }
    requires few { length inputs.now ≤ 16 }
    ensures gives { Gives (IsRecording program.now (map (λ input. input.now) inputs.now)
        (limits_of limits.pages limits.piece limits.steps) (K.answers clock.old) (K.answers clock.new))
        (program.now ∷ map (λ input. input.now) inputs.now) (ToFile name.entry.now) (S.shown store.old)
        (S.shown store.new) result }
    ensures unasked { IfErr result (IsUnasked (K.answers clock.old) (K.answers clock.new)) }
{
    let program = open_program(alloc, store, program)?;
    let inputs = open_inputs(alloc, store, inputs)?;
    log_file(alloc, clock, &program, &inputs, limits, name)
}
