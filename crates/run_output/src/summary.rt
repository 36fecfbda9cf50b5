//! The numbers of a run, as text.

ghost use Rattle.std.specs.Prelude.{◌≡◌, ◌++◌, IfOk, OnOk};
ghost use Rattle.run_output.specs.Summary.{number_line, trap_line, end_line, numbers_text};

use itoa::Buffer;
use log_model::RunEnd;
use no_memory::NoMemory;
use replayer::ReplaySummary;
use std::alloc::Global;

/// The length of the longest text: its names, blanks and line feeds, four numbers of 20 digits and two of 10.
const MOST_BYTES: usize = 140;

/// Appends a name, a blank, a number and a line feed. It gives up with NoMemory alone.
pub fn push_number(out: &mut Vec<u8>, name: &[u8], number: u64) -> Result<(), NoMemory>
    ensures { OnOk result (out.new.items ≡ out.old.items ++ number_line name.now number) }
{
    let mut buffer = Buffer::new();
    out.extend_from_slice(name)?;
    out.push(b' ')?;
    out.extend_from_slice(buffer.format(number).as_bytes())?;
    out.push(b'\n')?;
    Ok(())
}

/// Appends the line of a trap.
fn push_trap(out: &mut Vec<u8>, kind: u32, pc: u32) -> Result<(), NoMemory>
    ensures { OnOk result (out.new.items ≡ out.old.items ++ trap_line kind pc) }
{
    let mut buffer = Buffer::new();
    out.extend_from_slice(b"end trap ")?;
    out.extend_from_slice(buffer.format(kind).as_bytes())?;
    out.push(b' ')?;
    out.extend_from_slice(buffer.format(pc).as_bytes())?;
    out.push(b'\n')?;
    Ok(())
}

/// Appends the line of a run's end.
fn push_end(out: &mut Vec<u8>, end: RunEnd) -> Result<(), NoMemory>
    ensures { OnOk result (out.new.items ≡ out.old.items ++ end_line end) }
{
    match end {
        RunEnd::Exit { code, .. } => push_number(out, b"end exit", u64::from(code)),
        RunEnd::Trap { kind, pc, .. } => push_trap(out, kind, pc),
        RunEnd::Limit { .. } => Ok(out.extend_from_slice(b"end limit\n")?),
    }
}

/// The five lines of these numbers: `steps N`, `calls N`, `read N`, `written N`, and `end exit CODE`,
/// `end trap KIND PC` or `end limit`, each with a line feed. All numbers are decimals. It gives up with
/// NoMemory alone.
pub fn summary_text(alloc: Global, numbers: &ReplaySummary) -> Result<Vec<u8>, NoMemory>
    ensures { IfOk result (λ text. text.items ≡
        numbers_text numbers.now.steps numbers.now.calls numbers.now.read numbers.now.written
        numbers.now.end) }
{
    let mut out = Vec::with_capacity(alloc, MOST_BYTES)?;
    push_number(&mut out, b"steps", numbers.steps)?;
    push_number(&mut out, b"calls", numbers.calls)?;
    push_number(&mut out, b"read", numbers.read)?;
    push_number(&mut out, b"written", numbers.written)?;
    push_end(&mut out, numbers.end)?;
    Ok(out)
}
