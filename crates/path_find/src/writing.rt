//! The lines of a path.

ghost use Rattle.std.specs.Prelude.{◌≡◌, ◌<◌, ◌^◌, ◌++◌, length, IfOk, OnOk};
ghost use Rattle.path_find.specs.Text.{step_text, read_line, hop_line, hop_lines, end_line, no_path_text, path_text};

use flow_model::{Loc, SinkPoint, SourceByte};
use instruction_text::push_instruction;
use isa::Instr;
use itoa::Buffer;
use no_memory::NoMemory;
use printed_names::{push_byte, push_lines_end, push_location, push_pc, push_point};
use std::alloc::Global;

/// A stop of a path: the step in which the content arrived, by how many were done before it, the pc before it, its instruction,
/// and where the content arrived.
#[derive(Clone, Copy)]
pub struct Stop {
    pub number: u64,
    pub pc: u32,
    pub instr: Instr,
    pub loc: Loc,
}

/// The end of a path: the output byte or the point, the number of steps done before it, the pc there, and the location.
#[derive(Clone, Copy)]
pub struct End {
    pub name: SinkPoint,
    pub number: u64,
    pub pc: u32,
    pub loc: Loc,
}

/// Appends a step's number and pc, between blanks.
fn push_step(out: &mut Vec<u8>, number: u64, pc: u32) -> Result<(), NoMemory>
    ensures { OnOk result (out.new.items ≡ out.old.items ++ step_text number pc) }
{
    let mut buffer = Buffer::new();
    out.push(b' ')?;
    out.extend_from_slice(buffer.format(number).as_bytes())?;
    out.push(b' ')?;
    push_pc(out, pc)?;
    out.push(b' ')?;
    Ok(())
}

/// Appends the line of the read.
fn push_read(out: &mut Vec<u8>, source: SourceByte, stop: &Stop) -> Result<(), NoMemory>
    ensures { OnOk result (out.new.items ≡ out.old.items ++ read_line source stop.now) }
{
    out.extend_from_slice(b"read")?;
    push_step(out, stop.number, stop.pc)?;
    push_byte(out, source.channel, source.offset)?;
    out.push(b' ')?;
    push_location(out, stop.loc)?;
    out.push(b'\n')?;
    Ok(())
}

/// Appends the line of a hop.
fn push_hop(out: &mut Vec<u8>, before: &Stop, stop: &Stop) -> Result<(), NoMemory>
    ensures { OnOk result (out.new.items ≡ out.old.items ++ hop_line before.now stop.now) }
{
    out.extend_from_slice(b"hop")?;
    push_step(out, stop.number, stop.pc)?;
    push_location(out, before.loc)?;
    out.push(b' ')?;
    push_location(out, stop.loc)?;
    out.push(b' ')?;
    push_instruction(out, &stop.instr)?;
    out.push(b'\n')?;
    Ok(())
}

/// Appends the lines of the hops.
fn push_hops(out: &mut Vec<u8>, stops: &[Stop]) -> Result<(), NoMemory>
    ensures { OnOk result (out.new.items ≡ out.old.items ++ hop_lines stops.now) }
{
    for i in 1..stops.len() {
        push_hop(out, &stops[i - 1], &stops[i])?;
    }
    Ok(())
}

/// Appends the line of the end.
fn push_end(out: &mut Vec<u8>, end: &End) -> Result<(), NoMemory>
    ensures { OnOk result (out.new.items ≡ out.old.items ++ end_line end.now) }
{
    match end.name {
        SinkPoint::Out(_) => out.extend_from_slice(b"write")?,
        SinkPoint::At(_) => out.extend_from_slice(b"point")?,
    }
    push_step(out, end.number, end.pc)?;
    push_location(out, end.loc)?;
    out.push(b' ')?;
    push_point(out, end.name)?;
    out.push(b'\n')?;
    Ok(())
}

/// Appends the lines of a path that has stops, of which there is one at least.
fn push_lines(
    out: &mut Vec<u8>,
    source: SourceByte,
    end: &End,
    stops: &[Stop],
) -> Result<(), NoMemory>
    requires some { 0 < length stops.now }
    requires few { length stops.now < 2 ^ 63 }
    ensures { OnOk result (out.new.items ≡ out.old.items ++ path_text source end.now stops.now) }
{
    push_read(out, source, &stops[0])?;
    push_hops(out, stops)?;
    push_end(out, end)?;
    push_lines_end(out, stops.len() as u64 + 1)
}

/// The text of a path of a source byte by its stops, in the order of the run, and its end. It fails only where there is no
/// memory.
pub fn text(
    alloc: Global,
    source: SourceByte,
    end: &End,
    stops: &[Stop],
) -> Result<Vec<u8>, NoMemory>
    requires { length stops.now < 2 ^ 63 }
    ensures { IfOk result (λ text. text.items ≡ path_text source end.now stops.now) }
{
    if stops.is_empty() {
        return text_of_none(alloc);
    }
    let mut out = Vec::new(alloc);
    push_lines(&mut out, source, end, stops)?;
    Ok(out)
}

/// The text where there is no path: `end 0`. It fails only where there is no memory.
pub fn text_of_none(alloc: Global) -> Result<Vec<u8>, NoMemory>
    ensures { IfOk result (λ text. text.items ≡ no_path_text) }
{
    let mut out = Vec::new(alloc);
    push_lines_end(&mut out, 0)?;
    Ok(out)
}
