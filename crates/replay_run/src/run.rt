//! A machine that runs under a log.

ghost use Rattle.std.specs.Prelude.{◌≡◌, ◌==◌, if◌then◌else◌, ◌+◌, ◌<◌, ◌≤◌, ◌^◌, length, Some, None, true, false, slice_index, slice_set};
ghost use Rattle.replay_model.specs.Run.{start, after_call, call_seen, simple_call as simple};
ghost use Rattle.replay_model.specs.Comparison.{expected};
ghost use Rattle.rv_machine.specs.Hart.{IsStep};
ghost use Rattle.rv_machine.specs.Running.{IsFollowed};
ghost use Rattle.flow_model.specs.Ranges.{IsInRange};
ghost use Rattle.replay_run.specs.Expects.{expected_of, event_time};
ghost use Rattle.replay_run.specs.Runs.{hart_of, with_hart, later_by_one, gone_on, IsUnderLog, IsDue, IsLater, AreLater, IsReady, IsFinished};
ghost use Rattle.replay_run.specs.Counters.{run_at, CountRecords};

use crate::counters::Counters;
use crate::expected::{Expected, time_of_call, time_of_end};
use flow_model::{CallSeen, StepSeen};
use isa::{CallKind, Instr};
use log_model::CallRecord;
use no_memory::NoMemory;
use replay_log::Log;
use rv_machine::{Follower, Machine, Reply, Stepped};
use std::alloc::Global;
use std::marker::Model;

/// A machine that runs under a log. It counts the records whose calls are done, the steps, and the bytes
/// that were read and written on each channel.
#[derive(Drop)]
pub struct Run<'a> {
    machine: Machine,
    log: &'a Log,
    done: usize,
    time: u64,
    read: [u32; 16],
    written: [u32; 16],
}

impl<'a> Model for Run<'a> {
    ghost use Rattle.replay_run.specs.Runs.{RunAt};

    ghost Value = { RunAt };

    ghost use Rattle.replay_run.specs.Counters.{run_at, IsCounted};

    ghost view = { λ r. run_at r.log.now r.time r.machine r.done };

    ghost invariant = { λ r. IsCounted r.log.now r.time r.done r.read r.written };
}

/// Counts bytes that a call moves, and gives the offset of the first: 0 where none is moved.
fn count(counts: &mut [u32; 16], channel: u32, length: usize) -> u32
    requires { 0 < length → (channel < 16) × (slice_index counts.old channel + length ≤ 2 ^ 27) }
    ensures offset { result ≡ (if length == 0 then 0 else slice_index counts.old channel) }
    ensures counted { counts.new ≡ slice_set counts.old channel (slice_index counts.old channel + length) }
{
    if length == 0 {
        return 0;
    }
    let offset = counts[channel as usize];
    counts[channel as usize] = offset + length as u32;
    offset
}

/// A call that moves no bytes.
fn simple_call(kind: CallKind) -> CallSeen
    ensures { result ≡ simple kind }
{
    CallSeen {
        kind,
        channel: 0,
        place: 0,
        offset: 0,
        length: 0,
    }
}

/// A read or a write that moves bytes, with the offset of the first.
fn transfer(kind: CallKind, args: &[u32; 3], offset: u32, length: usize) -> CallSeen
    requires { length < 2 ^ 32 }
    ensures { result ≡ record {
      kind = kind;
      channel = slice_index args.now 0;
      place = slice_index args.now 1;
      offset = offset;
      length = length;
    } }
{
    CallSeen {
        kind,
        channel: args[0],
        place: args[1],
        offset,
        length: length as u32,
    }
}

impl<'a> Run<'a> {
    /// The run of a machine that has done no step.
    pub fn start(machine: Machine, log: &'a Log) -> Run<'a>
        ensures { result ≡ record { log = log.now; moment = start machine.state log.now; waits = machine.waits } }
    {
        log.form();
        let _size = log.size();
        Run {
            machine,
            log,
            done: 0,
            time: 0,
            read: [0; 16],
            written: [0; 16],
        }
    }

    /// The run of a machine that stands where these counters were taken, under the same log. It takes no memory.
    pub fn resume(machine: Machine, log: &'a Log, counters: Counters) -> Run<'a>
        requires { CountRecords log.now counters }
        ensures { result ≡ run_at log.now counters.time machine counters.done }
    {
        let Counters {
            time,
            done,
            read,
            written,
        } = counters;
        Run {
            machine,
            log,
            done,
            time,
            read,
            written,
        }
    }

    /// The numbers that the run keeps beside its machine and its log, with which [`Run::resume`] makes it again.
    pub fn counters(&self) -> Counters
        ensures counted { CountRecords self.now.log result }
        ensures again { run_at self.now.log result.time (hart_of self.now) result.done ≡ self.now }
    {
        Counters {
            time: self.time,
            done: self.done,
            read: self.read,
            written: self.written,
        }
    }

    /// The machine, and the numbers beside it and the log, with which [`Run::resume`] makes the run again. It takes no memory.
    pub fn into_parts(self) -> (Machine, Counters)
        ensures counted { CountRecords self.entry.log result.1 }
        ensures machine { result.0 ≡ hart_of self.entry }
        ensures again { run_at self.entry.log result.1.time result.0 result.1.done ≡ self.entry }
    {
        let counters = self.counters();
        (self.machine, counters)
    }

    /// The log.
    pub fn log(&self) -> &'a Log
        ensures { result.now ≡ self.now.log }
    {
        self.log
    }

    /// Makes the room in which the machine keeps what it decoded, unless there is some: [`Machine::keep_decoded`].
    pub fn keep_decoded(&mut self, alloc: Global) -> Result<(), NoMemory>
        ensures { self.new ≡ self.old }
    {
        self.machine.keep_decoded(alloc)
    }

    /// The machine.
    pub fn machine(&self) -> &Machine
        ensures { result.now ≡ hart_of self.now }
    {
        &self.machine
    }

    /// The number of steps that are done.
    pub fn time(&self) -> u64
        ensures { result ≡ self.now.moment.time }
    {
        self.time
    }

    /// Does nothing: it says what is true of each run.
    pub fn form(&self)
        ensures { IsUnderLog self.now }
    {
        let _ = &self.log;
    }

    /// The records that are left.
    fn left(&self) -> &'a [CallRecord]
        ensures { result.now ≡ self.now.moment.left }
    {
        &self.log.records()[self.done..]
    }

    /// What the log has next.
    pub fn expected(&self) -> Expected<'a>
        ensures { expected_of result ≡ expected self.now.moment.time self.now.moment.left self.now.log.end }
    {
        let end = self.log.end();
        match self.left() {
            [] => {
                if self.time < time_of_end(end) {
                    Expected::PlainStep
                } else {
                    Expected::End(end)
                }
            }
            [call, ..] => {
                if self.time < time_of_call(call) {
                    Expected::PlainStep
                } else {
                    Expected::Call(call)
                }
            }
        }
    }

    /// The number of steps done before the next call that the log has, or before its end.
    pub fn event_time(&self) -> u64
        ensures { result ≡ event_time self.now.moment.left self.now.log.end }
    {
        match self.left() {
            [] => time_of_end(self.log.end()),
            [call, ..] => time_of_call(call),
        }
    }

    /// The same as [`Run::step`], inlined where it is called.
    #[inline(always)]
    pub fn step_inlined(&mut self) -> Stepped
        requires { self.old.waits ≡ false }
        ensures step { IsStep self.old.moment.state result (hart_of self.new) }
        ensures rest { self.new ≡ with_hart self.old (hart_of self.new) }
    {
        self.machine.step_inlined()
    }

    /// Makes one step of the machine. A call then waits for [`Run::finish`].
    pub fn step(&mut self) -> Stepped
        requires { self.old.waits ≡ false }
        ensures step { IsStep self.old.moment.state result (hart_of self.new) }
        ensures rest { self.new ≡ with_hart self.old (hart_of self.new) }
    {
        self.machine.step()
    }

    /// Answers the call that waits from the next record, which finishes the step.
    fn answer(&mut self) -> CallSeen
        requires waits { self.old.waits ≡ true }
        requires due { IsDue self.old.log.inputs self.old.moment self.old.moment.left }
        requires time { self.old.moment.time < 2 ^ 41 }
        ensures seen { result ≡ call_seen self.old.moment self.old.moment.left }
        ensures after { self.new ≡ record self.old {
          moment = after_call self.old.moment self.old.moment.left;
          waits = false;
        } }
    {
        let left = self.left();
        self.time += 1;
        let [call, ..] = left else {
            self.machine.answer(Reply::Exit);
            return simple_call(CallKind::Exit);
        };
        self.done += 1;
        let answer = match call {
            CallRecord::Read {
                args,
                result: moved,
                bytes,
                ..
            } => {
                let offset = count(&mut self.read, args[0], bytes.len());
                let reply = Reply::Read {
                    result: *moved,
                    bytes: bytes.as_slice(),
                };
                (reply, transfer(CallKind::Read, args, offset, bytes.len()))
            }
            CallRecord::Write {
                args,
                result: moved,
                bytes,
                ..
            } => {
                let offset = count(&mut self.written, args[0], bytes.len());
                let reply = Reply::Write { result: *moved };
                (reply, transfer(CallKind::Write, args, offset, bytes.len()))
            }
            CallRecord::Clock { value, .. } => {
                (Reply::Clock { value: *value }, simple_call(CallKind::Clock))
            }
            CallRecord::Other { .. } => (Reply::Other, simple_call(CallKind::Other)),
        };
        let (reply, seen) = answer;
        self.machine.answer(reply);
        seen
    }

    /// Counts a plain step that the machine has made: only the time goes on.
    pub fn advance(&mut self)
        requires later { IsLater self.old.moment.time self.old.moment.left }
        requires time { self.old.moment.time < 2 ^ 41 }
        ensures { self.new ≡ later_by_one self.old }
    {
        self.time += 1;
    }

    /// Makes plain steps in a row, at most so many, before any of which the log has a call, and gives how many were made. It may
    /// make fewer. `follower` is told of each, but for those that it passes by: [`Machine::run_plain`].
    #[inline(always)]
    pub fn run_plain<F: Follower>(&mut self, most: u64, follower: &mut F) -> u64
        requires goes_on { self.old.waits ≡ false }
        requires later { AreLater self.old.moment.time most self.old.moment.left }
        requires time { self.old.moment.time + most ≤ 2 ^ 41 }
        ensures most { result ≤ most }
        ensures made { IsFollowed F.told F.wants self.old.moment.state follower.old result self.new.moment.state follower.new }
        ensures rest { self.new ≡ gone_on self.old result self.new.moment.state }
    {
        let made = self.machine.run_plain(most, follower);
        self.time += made;
        made
    }

    /// Finishes a step that the machine has made, as the log has it.
    pub fn finish(&mut self, stepped: Stepped) -> StepSeen
        requires ready { IsReady self.old stepped }
        requires time { self.old.moment.time < 2 ^ 41 }
        ensures finished { IsFinished self.old.moment stepped result self.new.moment }
        ensures rest { (self.new.log ≡ self.old.log) × (self.new.waits ≡ false) }
        ensures in_range { IsInRange result }
    {
        // The contract of `base` says where the window ends.
        let _base = self.machine.base();
        let number = self.time;
        match stepped {
            Stepped::Plain { instr, place } => {
                self.advance();
                StepSeen {
                    number,
                    instr,
                    place,
                    call: None,
                }
            }
            Stepped::Called(_) => {
                let call = self.answer();
                StepSeen {
                    number,
                    instr: Instr::Ecall,
                    place: 0,
                    call: Some(call),
                }
            }
            Stepped::Trapped { .. } => unreachable!(),
        }
    }
}
