//! The lines of a run's calls, and the text of them all.

ghost use Rattle.std.specs.Prelude.{◌≡◌, ◌+◌, ◌<◌, ◌^◌, ◌++◌, length, IfOk, OnOk};
ghost use Rattle.std.specs.List.{flat_map};
ghost use Rattle.std.specs.Fmt.{decimal};
ghost use Rattle.isa.specs.Calls.{channel_of};
ghost use Rattle.log_model.specs.Logs.{IsRecord, IsTransfer};
ghost use Rattle.run_output.specs.Lines.{piece, refusal, transfer_line, line_of, word_of, extent_text, refused_text, piece_text, refusal_text, number_text, line_text};
ghost use Rattle.run_output.specs.Calls.{lines, trap_text, limit_text, end_text, calls_text as text_of_calls};
ghost use Rattle.run_output.specs.Counts.{count_of, AreAdded, IsCounted, HasRoom};

use crate::Way;
use crate::counts::ByteCounts;
use flow_model::Loc;
use itoa::Buffer;
use log_model::{CallRecord, Data, RunEnd};
use no_memory::NoMemory;
use printed_names::{push_lines_end, push_location, push_pc, push_quoted, push_wide_byte};
use replay_log::Log;
use std::alloc::Global;

/// Appends a step, and ` read ` or ` write `.
fn push_beginning(out: &mut Vec<u8>, at: u64, way: Way) -> Result<(), NoMemory>
    ensures { OnOk result (out.new.items ≡ out.old.items ++ decimal at ++ word_of way) }
{
    let mut buffer = Buffer::new();
    out.extend_from_slice(buffer.format(at).as_bytes())?;
    match way {
        Way::Received => Ok(out.extend_from_slice(b" read ")?),
        Way::Written => Ok(out.extend_from_slice(b" write ")?),
    }
}

/// Appends how many bytes, and the address of the first.
fn push_extent(out: &mut Vec<u8>, count: u64, address: u32) -> Result<(), NoMemory>
    ensures { OnOk result (out.new.items ≡ out.old.items ++ extent_text count address) }
{
    let mut buffer = Buffer::new();
    out.push(b' ')?;
    out.extend_from_slice(buffer.format(count).as_bytes())?;
    out.push(b' ')?;
    push_location(out, Loc::Mem { place: address })
}

/// Appends the line of a read or a write that moved bytes.
fn push_piece(
    out: &mut Vec<u8>,
    way: Way,
    at: u64,
    args: &[u32; 3],
    offset: u64,
    bytes: &[u8],
) -> Result<(), NoMemory>
    ensures { OnOk result (out.new.items ≡ out.old.items ++ piece_text way (piece at args.now offset bytes.now)) }
{
    push_beginning(out, at, way)?;
    push_wide_byte(out, args[0], offset)?;
    push_extent(out, bytes.len() as u64, args[1])?;
    out.push(b' ')?;
    push_quoted(out, bytes)?;
    out.push(b'\n')?;
    Ok(())
}

/// Appends a channel, and the result of a call on it that was refused.
fn push_refused(out: &mut Vec<u8>, channel: u32, refused: i32) -> Result<(), NoMemory>
    ensures { OnOk result (out.new.items ≡ out.old.items ++ refused_text channel refused) }
{
    let mut buffer = Buffer::new();
    out.extend_from_slice(buffer.format(channel).as_bytes())?;
    out.push(b' ')?;
    out.extend_from_slice(buffer.format(refused).as_bytes())?;
    Ok(())
}

/// Appends the line of a read or a write that was refused.
fn push_refusal(
    out: &mut Vec<u8>,
    way: Way,
    at: u64,
    args: &[u32; 3],
    refused: i32,
) -> Result<(), NoMemory>
    ensures { OnOk result (out.new.items ≡ out.old.items ++ refusal_text way (refusal at args.now refused)) }
{
    push_beginning(out, at, way)?;
    push_refused(out, args[0], refused)?;
    push_extent(out, u64::from(args[2]), args[1])?;
    out.push(b'\n')?;
    Ok(())
}

/// Appends the line of a read or a write, and counts the bytes that it moved.
fn push_transfer(
    out: &mut Vec<u8>,
    counts: &mut ByteCounts,
    way: Way,
    at: u64,
    args: &[u32; 3],
    outcome: i32,
    bytes: &Data,
) -> Result<(), NoMemory>
    requires form { IsTransfer args.now outcome bytes.now }
    requires room { count_of counts.old way (channel_of args.now) + length bytes.now < 2 ^ 64 }
    ensures line { OnOk result (out.new.items ≡ out.old.items ++ line_text (transfer_line way
        (count_of counts.old way (channel_of args.now)) at args.now outcome bytes.now)) }
    ensures counted { OnOk result (AreAdded counts.old way (channel_of args.now) (length bytes.now) counts.new) }
{
    if outcome < 0 {
        return push_refusal(out, way, at, args, outcome);
    }
    let offset = counts.add(way, args[0], bytes.len() as u64)?;
    push_piece(out, way, at, args, offset, bytes.as_slice())
}

/// Appends a line of a step, a word and a number.
fn push_number(out: &mut Vec<u8>, at: u64, word: &[u8], number: u64) -> Result<(), NoMemory>
    ensures { OnOk result (out.new.items ≡ out.old.items ++ number_text at word.now number) }
{
    let mut buffer = Buffer::new();
    out.extend_from_slice(buffer.format(at).as_bytes())?;
    out.extend_from_slice(word)?;
    out.extend_from_slice(buffer.format(number).as_bytes())?;
    out.push(b'\n')?;
    Ok(())
}

/// Appends the line of a call, and counts the bytes that it moved.
fn push_call(out: &mut Vec<u8>, counts: &mut ByteCounts, call: &CallRecord) -> Result<(), NoMemory>
    requires form { IsRecord call.now }
    requires room { HasRoom counts.old call.now }
    ensures line { OnOk result (out.new.items ≡ out.old.items ++ line_text (line_of (count_of counts.old) call.now)) }
    ensures counted { OnOk result (IsCounted counts.old call.now counts.new) }
{
    match call {
        CallRecord::Read {
            at,
            args,
            result: outcome,
            bytes,
        } => push_transfer(out, counts, Way::Received, *at, args, *outcome, bytes),
        CallRecord::Write {
            at,
            args,
            result: outcome,
            bytes,
        } => push_transfer(out, counts, Way::Written, *at, args, *outcome, bytes),
        CallRecord::Clock { at, value } => push_number(out, *at, b" clock ", *value),
        CallRecord::Other { at, number } => push_number(out, *at, b" other ", u64::from(*number)),
    }
}

/// Appends the lines of all calls.
fn push_calls(alloc: Global, out: &mut Vec<u8>, log: &Log) -> Result<(), NoMemory>
    ensures { OnOk result (out.new.items ≡ out.old.items ++ flat_map line_text (lines log.now)) }
{
    log.form();
    let _size = log.size();
    let records = log.records();
    let mut counts = ByteCounts::new(alloc);
    for call in records {
        push_call(out, &mut counts, call)?;
    }
    Ok(())
}

/// Appends the line of the end.
fn push_end(out: &mut Vec<u8>, end: RunEnd) -> Result<(), NoMemory>
    ensures { OnOk result (out.new.items ≡ out.old.items ++ end_text end) }
{
    match end {
        RunEnd::Exit { at, code } => push_number(out, at, b" exit ", u64::from(code)),
        RunEnd::Trap { at, kind, pc } => push_trap(out, at, kind, pc),
        RunEnd::Limit { at } => push_limit(out, at),
    }
}

/// Appends the line of a trap.
fn push_trap(out: &mut Vec<u8>, at: u64, kind: u32, pc: u32) -> Result<(), NoMemory>
    ensures { OnOk result (out.new.items ≡ out.old.items ++ trap_text at kind pc) }
{
    let mut buffer = Buffer::new();
    out.extend_from_slice(buffer.format(at).as_bytes())?;
    out.extend_from_slice(b" trap ")?;
    out.extend_from_slice(buffer.format(kind).as_bytes())?;
    out.push(b' ')?;
    push_pc(out, pc)?;
    out.push(b'\n')?;
    Ok(())
}

/// Appends the line of a run that was cut off.
fn push_limit(out: &mut Vec<u8>, at: u64) -> Result<(), NoMemory>
    ensures { OnOk result (out.new.items ≡ out.old.items ++ limit_text at) }
{
    let mut buffer = Buffer::new();
    out.extend_from_slice(buffer.format(at).as_bytes())?;
    out.extend_from_slice(b" limit\n")?;
    Ok(())
}

/// The text of the calls of a run: a line for each, in order, one for the end, and `end N`, N the number of those
/// lines. A log that fits no program has a text too. It fails only where there is no memory.
pub fn calls_text(alloc: Global, log: &Log) -> Result<Vec<u8>, NoMemory>
    ensures { IfOk result (λ text. text.items ≡ text_of_calls log.now) }
{
    let mut out = Vec::new(alloc);
    push_calls(alloc, &mut out, log)?;
    push_end(&mut out, log.end())?;
    push_lines_end(&mut out, log.records().len() as u64 + 1)?;
    Ok(out)
}
