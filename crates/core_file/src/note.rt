//! The note of a core file: the signal and the registers.

ghost use Rattle.std.specs.Prelude.{◌≡◌, ◌++◌, OnOk};
ghost use Rattle.replayer.specs.Positions.{state_at};
ghost use Rattle.core_file.specs.Headers.{words};
ghost use Rattle.core_file.specs.Note.{trap_signal as signal_of_trap, pr_reg, prstatus, note};
ghost use Rattle.core_file.specs.CoreFile.{signal_after as signal_of_run};

use crate::words::{push_word, push_words};
use log_model::RunEnd;
use no_memory::NoMemory;
use replayer::Cursor;

/// An illegal instruction.
const SIGILL: u16 = 4;

/// A breakpoint; and any other place in a run.
const SIGTRAP: u16 = 5;

/// A misaligned target.
const SIGBUS: u16 = 7;

/// A fetch, a load or a store outside the window.
const SIGSEGV: u16 = 11;

/// The length of `CORE` with its end.
const NAME_LENGTH: u32 = 5;

/// The length of a `struct elf_prstatus`.
const DESCRIPTOR_LENGTH: u32 = 204;

/// The type of the note.
const NT_PRSTATUS: u32 = 1;

/// The number of the one process.
const PROCESS: u32 = 1;

/// The signal of a trap, by its kind.
fn trap_signal(kind: u32) -> u16
    ensures { result ≡ signal_of_trap kind }
{
    match kind {
        0 => SIGBUS,
        2 => SIGILL,
        3 => SIGTRAP,
        _ => SIGSEGV,
    }
}

/// The signal after so many steps of a run that ends so: that of its trap where it stands there, and else SIGTRAP.
pub(crate) fn signal_after(end: RunEnd, time: u64) -> u16
    ensures { result ≡ signal_of_run end time }
{
    match end {
        RunEnd::Exit { .. } => SIGTRAP,
        RunEnd::Trap { at, kind, .. } => {
            if at <= time {
                trap_signal(kind)
            } else {
                SIGTRAP
            }
        }
        RunEnd::Limit { .. } => SIGTRAP,
    }
}

/// Appends the pc and x1 to x31, as they are where the cursor stands.
fn push_registers(file: &mut Vec<u8>, cursor: &Cursor<'_>) -> Result<(), NoMemory>
    ensures { OnOk result (file.new.items ≡ file.old.items ++ words (pr_reg (state_at cursor.now))) }
{
    push_word(file, cursor.pc())?;
    for number in 1..32 {
        push_word(file, cursor.register(number))?;
    }
    Ok(())
}

/// Appends the `struct elf_prstatus` of a process that got this signal where the cursor stands.
fn push_prstatus(file: &mut Vec<u8>, signal: u16, cursor: &Cursor<'_>) -> Result<(), NoMemory>
    ensures { OnOk result (file.new.items ≡ file.old.items ++ prstatus signal (state_at cursor.now)) }
{
    file.extend_from_slice(&[0; 12])?;
    file.extend_from_slice(&signal.to_le_bytes())?;
    file.extend_from_slice(&[0; 10])?;
    push_words(file, &[PROCESS])?;
    file.extend_from_slice(&[0; 44])?;
    push_registers(file, cursor)?;
    file.extend_from_slice(&[0; 4])?;
    Ok(())
}

/// Appends the note.
#[tactic(auto, unfolding(crate::specs::Note::note))]
pub(crate) fn push_note(
    file: &mut Vec<u8>,
    signal: u16,
    cursor: &Cursor<'_>,
) -> Result<(), NoMemory>
    ensures { OnOk result (file.new.items ≡ file.old.items ++ note signal (state_at cursor.now)) }
{
    push_words(file, &[NAME_LENGTH, DESCRIPTOR_LENGTH, NT_PRSTATUS])?;
    file.extend_from_slice(b"CORE\0\0\0\0")?;
    push_prstatus(file, signal, cursor)
}
