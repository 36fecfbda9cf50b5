//! The bytes of memory that a step reads, and those that it writes.

ghost use Rattle.std.specs.Prelude.{◌≡◌};
ghost use Rattle.rv_decode.specs.Accesses.{access_of};
ghost use Rattle.checkpoints.specs.Touched.{stored_size};
ghost use Rattle.run_travel.specs.Accesses.{size_loaded, read_by, written_by};

use flow_model::StepSeen;
use isa::{CallKind, Instr};

/// Some bytes of memory: the address of the first, and how many they are.
#[derive(Clone, Copy)]
pub(crate) struct Span {
    pub(crate) place: u32,
    pub(crate) size: u32,
}

/// How many bytes an instruction loads.
#[inline(always)]
fn size_loaded(instr: Instr) -> u32
    ensures { result ≡ size_loaded (access_of instr) }
{
    match instr {
        Instr::Lb { .. } | Instr::Lbu { .. } => 1,
        Instr::Lh { .. } | Instr::Lhu { .. } => 2,
        Instr::Lw { .. } => 4,
        _ => 0,
    }
}

/// How many bytes an instruction stores.
#[inline(always)]
fn size_stored(instr: Instr) -> u32
    ensures { result ≡ stored_size instr }
{
    match instr {
        Instr::Sb { .. } => 1,
        Instr::Sh { .. } => 2,
        Instr::Sw { .. } => 4,
        _ => 0,
    }
}

/// The bytes that a step reads: a load's at its effective address, and those that a write takes from its buffer.
#[inline(always)]
pub(crate) fn read_by(step: &StepSeen) -> Span
    ensures { result ≡ read_by step.now step.now.call }
{
    match step.call {
        Some(call) => Span {
            place: call.place,
            size: match call.kind {
                CallKind::Write => call.length,
                _ => 0,
            },
        },
        None => Span {
            place: step.place,
            size: size_loaded(step.instr),
        },
    }
}

/// The bytes that a step writes: a store's at its effective address, and those that a read moves into its buffer.
#[inline(always)]
pub(crate) fn written_by(step: &StepSeen) -> Span
    ensures { result ≡ written_by step.now step.now.call }
{
    match step.call {
        Some(call) => Span {
            place: call.place,
            size: match call.kind {
                CallKind::Read => call.length,
                _ => 0,
            },
        },
        None => Span {
            place: step.place,
            size: size_stored(step.instr),
        },
    }
}
