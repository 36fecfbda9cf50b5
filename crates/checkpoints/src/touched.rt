//! The pages that the steps since the last checkpoint may have written.

ghost use Rattle.std.specs.Prelude.{◌≡◌, ◌-◌, ◌<◌, true, false, length, replicate, IfOk};
ghost use Rattle.std.specs.Int.{div_ceil};
ghost use Rattle.checkpoints.specs.Touched.{span, stored_size, written, is_touched, AreMarked};

use crate::paging::PAGE_SIZE;
use flow_model::StepSeen;
use isa::{CallKind, Instr};
use no_memory::NoMemory;
use std::alloc::Global;
use std::marker::Model;

/// Some bytes of memory: the address of the first, and how many they are.
#[derive(Clone, Copy)]
pub(crate) struct Span {
    pub(crate) place: u32,
    pub(crate) size: u32,
}

/// For each page of a window, by its place, whether it may have been written since the last checkpoint.
#[derive(Drop)]
pub(crate) struct Touched {
    base: u32,
    flags: Vec<bool>,
}

impl Model for Touched {
    ghost use Rattle.checkpoints.specs.Touched.{TouchedAt};

    ghost Value = { TouchedAt };

    ghost view = { λ t. record { base = t.base; flags = t.flags.items } };
}

/// How many bytes an instruction stores.
fn stored_size(instr: Instr) -> u32
    ensures { result ≡ stored_size instr }
{
    match instr {
        Instr::Sb { .. } => 1,
        Instr::Sh { .. } => 2,
        Instr::Sw { .. } => 4,
        _ => 0,
    }
}

/// The bytes that an instruction stores at its effective address.
pub(crate) fn stored(instr: Instr, place: u32) -> Span
    ensures { result ≡ span place (stored_size instr) }
{
    Span {
        place,
        size: stored_size(instr),
    }
}

/// The bytes that a step writes: a store's at its effective address, and those that a read moves into its buffer.
pub(crate) fn written(step: &StepSeen) -> Span
    ensures { result ≡ written step.now }
{
    match step.call {
        Some(call) => Span {
            place: call.place,
            size: match call.kind {
                CallKind::Read => call.length,
                _ => 0,
            },
        },
        None => stored(step.instr, step.place),
    }
}

/// Sets the flag of each page that has one of so many bytes of the window, from the first on.
fn mark(flags: &mut Vec<bool>, first: u32, size: u32)
    requires some { 0 < size }
    ensures { AreMarked flags.old.items first size flags.new.items }
{
    let first = first as usize;
    let past = first + size as usize;
    for page in first / PAGE_SIZE..past.div_ceil(PAGE_SIZE).min(flags.len()) {
        flags[page] = true;
    }
}

impl Touched {
    /// Each page of a window of so many bytes. It gives up with NoMemory alone.
    pub fn all(alloc: Global, base: u32, size: usize) -> Result<Touched, NoMemory>
        ensures { IfOk result (λ touched.
            touched ≡ record { base = base; flags = replicate (div_ceil size 4096) true }) }
    {
        let flags = vec![in alloc; true; size.div_ceil(PAGE_SIZE)]?;
        Ok(Touched { base, flags })
    }

    /// No page.
    pub fn none(alloc: Global) -> Touched {
        Touched {
            base: 0,
            flags: Vec::new(alloc),
        }
    }

    /// Whether the page at a place may have been written. So may one past the last.
    pub fn is_touched(&self, place: usize) -> bool
        ensures { result ≡ is_touched self.now.flags place }
    {
        match self.flags.get(place) {
            Some(flag) => *flag,
            None => true,
        }
    }

    /// Notes the pages that have some of these bytes, which a step writes.
    pub fn note(&mut self, bytes: Span)
        ensures base { self.new.base ≡ self.old.base }
        ensures flags { AreMarked self.old.flags (bytes.place - self.old.base) bytes.size self.new.flags }
    {
        let Span { place, size } = bytes;
        if size > 0 {
            mark(&mut self.flags, place.saturating_sub(self.base), size);
        }
    }

    /// No page is noted from here on.
    pub fn clear(&mut self)
        ensures { self.new ≡ record { base = self.old.base; flags = replicate (length self.old.flags) false } }
    {
        self.flags.fill(false);
    }
}
