//! Breakpoints and watchpoints.

ghost use Rattle.std.specs.Prelude.{◌≡◌, ◌==◌, ◌||◌, [], false, Some, not, filter, IfSome, OnOk, OnErr};
ghost use Rattle.std.specs.List.{find, list_any};
ghost use Rattle.std.specs.Option.{is_some};
ghost use Rattle.run_travel.specs.Stops.{same_watch, met_by, is_break, is_point, with_break, without_break, with_watch, without_watch};
ghost use Rattle.run_travel.specs.Looks.{meets_bytes};

use crate::access::{Span, read_by, written_by};
use crate::watch::Watch;
use flow_model::StepSeen;
use no_memory::NoMemory;
use std::alloc::Global;
use std::marker::Model;

/// Breakpoints, which are addresses of instructions, and watchpoints: of each kind a list, in the order in which they
/// were set. None stands twice.
#[derive(Drop)]
pub struct Points {
    breaks: Vec<u32>,
    watches: Vec<Watch>,
}

impl Model for Points {
    ghost use Rattle.run_travel.specs.Stops.{PointsAt};

    ghost Value = { PointsAt };

    ghost view = { λ p. record { breaks = p.breaks.items; watches = p.watches.items } };
}

/// Whether an address is among these.
#[inline(always)]
fn has_break(breaks: &[u32], pc: u32) -> bool
    ensures { result ≡ list_any (λ kept. kept == pc) breaks.now }
{
    breaks.contains(&pc)
}

/// Leaves an address out.
fn clear_break(breaks: &mut Vec<u32>, pc: u32)
    ensures { breaks.new.items ≡ filter (λ kept. not (kept == pc)) breaks.old.items }
{
    breaks.retain(|kept| *kept != pc);
}

/// Whether a watchpoint is among these.
fn has_watch(watches: &[Watch], watch: &Watch) -> bool
    ensures { result ≡ list_any (λ kept. same_watch kept watch.now) watches.now }
{
    watches.iter().any(|kept| kept.is_same(watch))
}

/// Leaves a watchpoint out.
fn clear_watch(watches: &mut Vec<Watch>, watch: &Watch)
    ensures { watches.new.items ≡ filter (λ kept. not (same_watch kept watch.now)) watches.old.items }
{
    watches.retain(|kept| !kept.is_same(watch));
}

/// The first of these watchpoints that a step meets, which writes and reads these bytes.
#[inline(always)]
fn first_met(watches: &[Watch], written: Span, read: Span) -> Option<Watch>
    ensures { result ≡ find (meets_bytes written read) watches.now }
{
    for watch in watches {
        if watch.is_met(written, read) {
            return Some(*watch);
        }
    }
    None
}

impl Points {
    /// No points.
    pub fn new(alloc: Global) -> Points
        ensures { result ≡ record { breaks = []; watches = [] } }
    {
        Points {
            breaks: Vec::new(alloc),
            watches: Vec::new(alloc),
        }
    }

    /// Sets a breakpoint after the others. Where it is set, nothing changes. It gives up with NoMemory alone.
    pub fn set_break(&mut self, pc: u32) -> Result<(), NoMemory>
        ensures ok { OnOk result (self.new ≡ with_break self.old pc) }
        ensures err { OnErr result (self.new ≡ self.old) }
    {
        if !has_break(&self.breaks, pc) {
            self.breaks.push(pc)?;
        }
        Ok(())
    }

    /// Clears a breakpoint. Where it isn't set, nothing changes.
    pub fn clear_break(&mut self, pc: u32)
        ensures { self.new ≡ without_break self.old pc }
    {
        clear_break(&mut self.breaks, pc);
    }

    /// Sets a watchpoint after the others. Where it is set, nothing changes. It gives up with NoMemory alone.
    pub fn set_watch(&mut self, watch: Watch) -> Result<(), NoMemory>
        ensures ok { OnOk result (self.new ≡ with_watch self.old watch) }
        ensures err { OnErr result (self.new ≡ self.old) }
    {
        if !has_watch(&self.watches, &watch) {
            self.watches.push(watch)?;
        }
        Ok(())
    }

    /// Clears a watchpoint. Where it isn't set, nothing changes.
    pub fn clear_watch(&mut self, watch: Watch)
        ensures { self.new ≡ without_watch self.old watch }
    {
        clear_watch(&mut self.watches, &watch);
    }

    /// The watchpoint that a step meets: of several the one that was set first.
    #[inline(always)]
    pub(crate) fn met(&self, step: &StepSeen) -> Option<Watch>
        ensures { result ≡ met_by self.now (Some step.now) }
    {
        self.met_by_bytes(written_by(step), read_by(step))
    }

    /// The watchpoint that a step meets, which writes and reads these bytes: of several the one that was set first.
    #[inline(always)]
    pub(crate) fn met_by_bytes(&self, written: Span, read: Span) -> Option<Watch>
        ensures { result ≡ find (meets_bytes written read) self.now.watches }
    {
        first_met(&self.watches, written, read)
    }

    /// Whether an address is a breakpoint.
    #[inline(always)]
    pub(crate) fn has_break(&self, pc: u32) -> bool
        ensures { result ≡ is_break self.now pc }
    {
        has_break(&self.breaks, pc)
    }

    /// Whether there is a watchpoint.
    pub(crate) fn has_watches(&self) -> bool
        ensures { result ≡ false → self.now.watches ≡ [] }
    {
        !self.watches.is_empty()
    }

    /// Whether a run stops at a pc, by a step that meets this watchpoint, if any.
    #[inline(always)]
    pub(crate) fn is_point(&self, met: &Option<Watch>, pc: u32) -> bool
        ensures { result ≡ is_point self.now met.now pc }
    {
        met.is_some() || self.has_break(pc)
    }
}
