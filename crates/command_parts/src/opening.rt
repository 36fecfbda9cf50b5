//! Programs and logs, read from their files.
ghost use Rattle.std.specs.Prelude.{◌≡◌, ◌≤◌, ◌^◌, ◌∷◌, [], true, length, is_ok, IfOk};
ghost use Rattle.outer_io.specs.Reads.{Reads};
ghost use Rattle.jet_model.specs.Contents.{log_in, program_at, log_at, run_at};
ghost use Rattle.command_parts.specs.Outcome.{IsOutcomeOf, IsWork, seen_by};
ghost use Rattle.command_parts.specs.Views.{program_of, run_of};

use crate::reading::read_file;
use elf_image::Program;
use jet_refusal::Refusal;
use outer_io::Store;
use replay_log::{Log, read_log};
use std::alloc::Global;

/// A program and a log.
#[derive(Drop)]
pub struct Run {
    pub program: Program,
    pub log: Log,
}

/// The log of these bytes.
fn log_of(alloc: Global, bytes: &[u8]) -> Result<Log, Refusal>
    requires { length bytes.now ≤ 2 ^ 26 }
    ensures { IsWork (log_in bytes.now) result }
{
    Ok(read_log(alloc, bytes)?)
}

/// Reads a program. It gives up as `read_file` does, or with `Image`, the first fault of a file that is none.
pub fn open_program<S: Store>(alloc: Global, store: &mut S, name: &str) -> Result<Program, Refusal>
    ensures outcome { IsOutcomeOf (λ file. program_at file name.now) (S.shown store.old) (S.shown store.new)
        (seen_by program_of result) }
    ensures short { IfOk result (λ p. length p.bytes.items ≤ 2 ^ 26) }
    ensures reads { Reads (name.now ∷ []) true (S.shown store.old) (S.shown store.new) }
{
    let bytes = read_file(alloc, store, name)?;
    let program = Program::load(alloc, bytes)?;
    Ok(program)
}

/// Reads a log. It gives up as `read_file` does, or with `Log`, the first fault of bytes that are none.
pub fn open_log<S: Store>(alloc: Global, store: &mut S, name: &str) -> Result<Log, Refusal>
    ensures outcome { IsOutcomeOf (λ file. log_at file name.now) (S.shown store.old) (S.shown store.new) result }
    ensures reads { Reads (name.now ∷ []) true (S.shown store.old) (S.shown store.new) }
{
    let bytes = read_file(alloc, store, name)?;
    log_of(alloc, &bytes)
}

/// Reads a program and then a log. Whether they fit is not looked at. It gives up as `open_program` and `open_log` do.
pub fn open_run<S: Store>(
    alloc: Global,
    store: &mut S,
    program: &str,
    log: &str,
) -> Result<Run, Refusal>
    ensures outcome { IsOutcomeOf (λ file. run_at file program.now log.now) (S.shown store.old) (S.shown store.new)
        (seen_by run_of result) }
    ensures short { IfOk result (λ run. length run.program.bytes.items ≤ 2 ^ 26) }
    ensures reads { Reads (program.now ∷ log.now ∷ []) (is_ok result) (S.shown store.old) (S.shown store.new) }
{
    let program = open_program(alloc, store, program)?;
    let log = open_log(alloc, store, log)?;
    Ok(Run { program, log })
}
