//! Information flow as definitions: locations, source and sink bytes, the steps of a trace, which locations' content
//! flows where in one step, and the origins of each location at each time; and the messages that carry locations and
//! source bytes between the parts of an analysis.
//!
//! What there is to read stands in specs/. These definitions know no log and no program: a trace is a plain list of
//! steps.
//!
//! Proved (`laws`): after a step a source byte is among a location's origins exactly where it is fresh there or was
//! among those of a location that flows into it, and at the start there is none; origins ascend without repeats; a
//! location that no step targets keeps its origins; a received byte has its own source byte; every origin was read; the
//! table's origins ascend.
#![tactic(auto)]

pub mod laws;

use isa::{CallKind, Instr};

/// Where a byte of a run lies: lane 0 to 3 (the lowest byte is lane 0) of a register 1 to 31, or an
/// address of memory. Registers come first, by number and lane, and then memory by place.
#[derive(Clone, Copy, Debug, PartialEq, Eq, PartialOrd, Ord, Hash)]
pub enum Loc {
    Reg { number: u8, lane: u8 },
    Mem { place: u32 },
}

/// The byte of this offset among all bytes that a run read on a channel, counted from 0. The order is
/// by channel and then offset.
#[derive(Clone, Copy, Debug, PartialEq, Eq, PartialOrd, Ord, Hash)]
pub struct SourceByte {
    pub channel: u8,
    pub offset: u32,
}

/// The byte of this offset among all bytes that a run wrote on a channel, counted from 0. The order is
/// by channel and then offset.
#[derive(Clone, Copy, Debug, PartialEq, Eq, PartialOrd, Ord)]
pub struct SinkByte {
    pub channel: u8,
    pub offset: u32,
}

/// A location at a time inside a run: its content after `time` steps. The order is by time and then location.
#[derive(Clone, Copy, PartialEq, Eq, PartialOrd, Ord)]
pub struct InnerSink {
    pub time: u64,
    pub loc: Loc,
}

/// What a query may ask the sources of: an output byte, or a location at a time inside the run. Output bytes
/// come first.
#[derive(Clone, Copy, PartialEq, Eq, PartialOrd, Ord)]
pub enum SinkPoint {
    Out(SinkByte),
    At(InnerSink),
}

/// What the parts of an analysis send each other: a question for a location's origins, one of its source
/// bytes, the end of a location's source bytes, and the end of all, which says whether nothing was lost.
#[derive(Clone, Copy)]
pub enum Message {
    Ask(Loc),
    Byte(SourceByte),
    Close(Loc),
    End { whole: bool },
}

/// Which flows count.
#[derive(Clone, Copy, Debug, PartialEq, Eq)]
pub enum Rule {
    /// Moves alone.
    Copy,
    /// Moves, and the lanes that an operation with an immediate keeps whole: those that ANDI, ORI and XORI leave as
    /// they are, and those that a shift by 0, 8, 16 or 24 bits moves.
    Keep,
    /// Moves, and whatever is computed from an operand.
    Compute,
    /// As `Compute`; besides, what is loaded or stored comes from the register that holds the base address too.
    Index,
}

/// A step of a trace: its number, counted from 0, the instruction, the effective address of a load or a
/// store (0 otherwise), and the guest call, where the step was one.
#[derive(Clone, Copy)]
pub struct StepSeen {
    pub number: u64,
    pub instr: Instr,
    pub place: u32,
    pub call: Option<CallSeen>,
}

/// A guest call of a trace. Of a read or a write, `channel` and `place` are the first two arguments,
/// `length` is the number of bytes moved, and `offset` the channel's offset of the first of them; the
/// last two are 0 where none is moved. All four are 0 for the other kinds.
#[derive(Clone, Copy, PartialEq, Eq)]
pub struct CallSeen {
    pub kind: CallKind,
    pub channel: u32,
    pub place: u32,
    pub offset: u32,
    pub length: u32,
}
