//! A run that is being recorded.

ghost use Rattle.std.specs.Prelude.{◌≡◌, ℕ, ◌+◌, ◌^◌, ◌<◌, ◌≤◌, ◌==◌, if◌then◌else◌, [], false, true, length, slice_index, IsTrue, ◌⊎◌, IfOk, OnOk, OnErr};
ghost use Rattle.isa.specs.Machine.{call_of, in_window, bytes_at};
ghost use Rattle.isa.specs.declared.CallKind.TheVariants as kind;
ghost use Rattle.log_model.specs.declared.CallRecord.TheVariants.{Clock as ClockOf, Other as OtherOf};
ghost use Rattle.call_record.specs.Sources.{IsSource};
ghost use Rattle.call_record.specs.Steps.{point_of, IsSafe, IsCalled, WaitsFor, Keeps, Records, IsStepOf, Gained};
ghost use Rattle.call_record.specs.Runs.{IsFresh, IsWhole};

use crate::entry::LentRecord;
use crate::source::Source;
use crate::tape::Tape;
use crate::transfer::Transfer;
use isa::{Call, CallKind};
use log_model::RunEnd;
use no_memory::NoMemory;
use outer_io::Clock;
use rv_machine::{Machine, Reply, Stepped, Unfollowed};
use std::alloc::Global;

/// A machine, how many bytes were received on each channel, and the records of the calls so far.
#[derive(Drop)]
pub(crate) struct Recorder {
    pub machine: Machine,
    pub counts: [usize; 16],
    pub tape: Tape,
}

/// Counts bytes that were received on a channel.
fn count(counts: &mut [usize; 16], channel: u32, length: usize)
    requires { 0 < length → (channel < 16) × (slice_index counts.old channel + length ≤ 2 ^ 26) }
    ensures { (c : ℕ) → slice_index counts.new c ≡ slice_index counts.old c + (if channel == c then length else 0) }
{
    if length > 0 {
        counts[channel as usize] += length;
    }
}

/// How many bytes were received on a channel: none where there is no such channel.
fn count_of(counts: &[usize; 16], channel: u32) -> usize
    ensures { result ≡ slice_index counts.now channel }
{
    if channel < 16 {
        counts[channel as usize]
    } else {
        0
    }
}

/// The bytes of memory that a write takes: none where its buffer isn't wholly in the window.
fn written(machine: &Machine, place: u32, count: u32) -> &[u8]
    ensures part { (count ≡ 0) ⊎ IsTrue (in_window machine.now.state place count)
        → result.now ≡ bytes_at machine.now.state place count }
    ensures short { length result.now ≤ length machine.now.state.memory }
{
    match machine.bytes(place, count) {
        Some(bytes) => bytes,
        None => &[],
    }
}

impl Recorder {
    /// The recording of a machine that has done no step, in a run with so many input channels.
    pub(crate) fn new(alloc: Global, machine: Machine, inputs: u32) -> Recorder
        requires { inputs ≤ 16 }
        ensures machine { result.machine ≡ machine }
        ensures fresh { IsFresh inputs result }
    {
        Recorder {
            machine,
            counts: [0; 16],
            tape: Tape::new(alloc, inputs),
        }
    }

    /// Answers a read: it gets the next bytes of its channel, at most a piece.
    fn read(
        &mut self,
        alloc: Global,
        source: &Source<'_>,
        at: u64,
        call: &Call,
    ) -> Result<(), NoMemory>
        requires waits { WaitsFor self.old.machine call.now kind.Read }
        requires source { IsSource source.now }
        requires safe { IsSafe source.now (point_of self.old) }
        requires early { at < 2 ^ 40 }
        ensures { OnOk result (Records source.now at [] (point_of self.old) self.new) }
    {
        let refusal = self.machine.refusal(call, source.channels());
        let offset = count_of(&self.counts, call.args[0]);
        let transfer = Transfer::unless_refused(refusal, source.part(&call.args, offset));
        count(&mut self.counts, call.args[0], transfer.bytes.len());
        self.tape.add(
            alloc,
            LentRecord::Read {
                at,
                args: call.args,
                result: transfer.outcome,
                bytes: transfer.bytes,
            },
        )?;
        self.machine.answer(Reply::Read {
            result: transfer.outcome,
            bytes: transfer.bytes,
        });
        Ok(())
    }

    /// Answers a write: it is taken whole.
    fn write(
        &mut self,
        alloc: Global,
        source: &Source<'_>,
        at: u64,
        call: &Call,
    ) -> Result<(), NoMemory>
        requires waits { WaitsFor self.old.machine call.now kind.Write }
        requires source { IsSource source.now }
        requires safe { IsSafe source.now (point_of self.old) }
        requires early { at < 2 ^ 40 }
        ensures { OnOk result (Records source.now at [] (point_of self.old) self.new) }
    {
        let refusal = self.machine.refusal(call, source.channels());
        let transfer = Transfer::unless_refused(
            refusal,
            written(&self.machine, call.args[1], call.args[2]),
        );
        let outcome = transfer.outcome;
        self.tape.add(
            alloc,
            LentRecord::Write {
                at,
                args: call.args,
                result: outcome,
                bytes: transfer.bytes,
            },
        )?;
        self.machine.answer(Reply::Write { result: outcome });
        Ok(())
    }

    /// Answers the clock call.
    fn clock(&mut self, alloc: Global, at: u64, value: u64) -> Result<(), NoMemory>
        requires waits { self.old.machine.waits ≡ true }
        requires kind { (call_of self.old.machine.state).kind ≡ kind.Clock }
        requires early { at < 2 ^ 40 }
        ensures { OnOk result (Keeps (ClockOf at value) (point_of self.old) self.new) }
    {
        self.tape.add(alloc, LentRecord::Clock { at, value })?;
        self.machine.answer(Reply::Clock { value });
        Ok(())
    }

    /// Answers a call that there is none of.
    fn other(&mut self, alloc: Global, at: u64, number: u32) -> Result<(), NoMemory>
        requires waits { self.old.machine.waits ≡ true }
        requires kind { (call_of self.old.machine.state).kind ≡ kind.Other }
        requires early { at < 2 ^ 40 }
        ensures { OnOk result (Keeps (OtherOf at number) (point_of self.old) self.new) }
    {
        self.tape.add(alloc, LentRecord::Other { at, number })?;
        self.machine.answer(Reply::Other);
        Ok(())
    }

    /// Answers a call, or says that the run ends by it.
    fn answer<K: Clock>(
        &mut self,
        alloc: Global,
        source: &Source<'_>,
        clock: &mut K,
        at: u64,
        call: &Call,
    ) -> Result<Option<RunEnd>, NoMemory>
        requires called { IsCalled self.old.machine call.now }
        requires source { IsSource source.now }
        requires safe { IsSafe source.now (point_of self.old) }
        requires early { at < 2 ^ 40 }
        ensures ok { IfOk result (λ end. IsStepOf source.now at end (point_of self.old) self.new
            (K.answers clock.old) (K.answers clock.new)) }
        ensures gained { OnErr result (Gained (K.answers clock.old) (K.answers clock.new)) }
    {
        match call.kind {
            CallKind::Read => {
                self.read(alloc, source, at, call)?;
                Ok(None)
            }
            CallKind::Write => {
                self.write(alloc, source, at, call)?;
                Ok(None)
            }
            CallKind::Clock => {
                self.clock(alloc, at, clock.now())?;
                Ok(None)
            }
            CallKind::Other => {
                self.other(alloc, at, call.number)?;
                Ok(None)
            }
            CallKind::Exit => Ok(Some(RunEnd::Exit {
                at,
                code: call.args[0],
            })),
        }
    }

    /// Makes one step and records it, or says that the run ends there.
    fn step<K: Clock>(
        &mut self,
        alloc: Global,
        source: &Source<'_>,
        clock: &mut K,
        at: u64,
    ) -> Result<Option<RunEnd>, NoMemory>
        requires goes_on { self.old.machine.waits ≡ false }
        requires source { IsSource source.now }
        requires safe { IsSafe source.now (point_of self.old) }
        requires early { at < 2 ^ 40 }
        ensures ok { IfOk result (λ end. IsStepOf source.now at end (point_of self.old) self.new
            (K.answers clock.old) (K.answers clock.new)) }
        ensures gained { OnErr result (Gained (K.answers clock.old) (K.answers clock.new)) }
    {
        match self.machine.step_inlined() {
            Stepped::Plain { .. } => Ok(None),
            Stepped::Called(call) => self.answer(alloc, source, clock, at, &call),
            Stepped::Trapped { kind, pc } => Ok(Some(RunEnd::Trap { at, kind, pc })),
        }
    }

    /// Runs to the end, or until so many steps are done.
    pub(crate) fn run<K: Clock>(
        &mut self,
        alloc: Global,
        source: &Source<'_>,
        clock: &mut K,
        steps: u64,
    ) -> Result<RunEnd, NoMemory>
        requires source { IsSource source.now }
        requires fresh { IsFresh (length source.now.inputs.now) self.old }
        requires goes_on { self.old.machine.waits ≡ false }
        requires window { length self.old.machine.state.memory ≤ 2 ^ 24 }
        requires limit { steps ≤ 2 ^ 40 }
        ensures ok { IfOk result (λ end. IsWhole self.old.machine.state source.now steps end self.new.tape
            (K.answers clock.old) (K.answers clock.new)) }
        ensures gained { OnErr result (Gained (K.answers clock.old) (K.answers clock.new)) }
    {
        let mut at = 0;
        while at < steps {
            at += self.machine.run_plain(steps - at, &mut Unfollowed);
            if at == steps {
                break;
            }
            if let Some(end) = self.step(alloc, source, clock, at)? {
                return Ok(end);
            }
            at += 1;
        }
        Ok(RunEnd::Limit { at: steps })
    }
}
