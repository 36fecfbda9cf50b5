//! A log that is checked a stretch at a time.

ghost use Rattle.std.specs.Prelude.{◌≡◌, ◌≤◌, None, false, IfOk, IfErr};
ghost use Rattle.log_model.specs.Logs.{end_at, steps};
ghost use Rattle.no_memory.specs.Faults.{IsCausedBy};
ghost use Rattle.replay_model.specs.Comparison.{divergence};
ghost use Rattle.replay_run.specs.Counters.{CountRecords};
ghost use Rattle.replayer.specs.Checks.{IsMisfit};
ghost use Rattle.replayer.specs.InParts.{IsOpened, IsCheckedTo, IsCheckedToEnd, resumed};
ghost use Rattle.replayer.specs.Watching.{IsBegun};

use crate::check::{check_end, check_to};
use crate::job::CheckFault;
use crate::saved::CursorState;
use crate::watcher::{Position, RunWatcher, Watcher};
use elf_image::Image;
use no_memory::{Fault, NoMemory};
use replay_log::Log;
use replay_model::{Divergence, Misfit};
use replay_run::{Run, time_of_end};
use rv_machine::Machine;
use sha2::{Digest, Sha256};
use std::alloc::Global;
use std::marker::Model;

/// A run that is checked against its log a stretch at a time. Between two stretches its state can be copied, and another check
/// can go on from the copy.
///
/// Contracts see it as where its run stands.
#[derive(Drop)]
pub struct Checker<'a> {
    run: Run<'a>,
}

impl<'a> Model for Checker<'a> {
    ghost use Rattle.std.specs.Prelude.{◌≡◌, false};
    ghost use Rattle.replay_run.specs.Runs.{RunAt};

    ghost Value = { RunAt };

    ghost view = { λ c. c.run };

    ghost invariant = { λ c. c.run.waits ≡ false };
}

impl<'a> Checker<'a> {
    /// The beginning of the run of a program, of which `image` is the image, under a log. `WrongProgram` says that the log is of
    /// another program, and `Window` that a window of its pages can't hold the image.
    pub fn open(
        alloc: Global,
        program: &[u8],
        image: &Image,
        log: &'a Log,
    ) -> Result<Checker<'a>, CheckFault>
        ensures ok { IfOk result (IsOpened program.now image.now log.now) }
        ensures fault { IfErr result (IsCausedBy (IsMisfit program.now image.now log.now)) }
    {
        log.form();
        let kept = log.digest();
        let seen = Sha256::digest(program);
        if kept != seen {
            return Err(Fault::At(Misfit::WrongProgram { kept, seen }));
        }
        match Machine::new(alloc, image, log.pages()) {
            Ok(machine) => Ok(Checker {
                run: Run::start(machine, log),
            }),
            Err(Fault::At(window)) => Err(Fault::At(Misfit::Window(window))),
            Err(Fault::NoMemory(no_memory)) => Err(Fault::NoMemory(no_memory)),
        }
    }

    /// Tells a watcher that the run stands at its beginning.
    pub(crate) fn begin<W: RunWatcher>(&self, watcher: &mut W)
        ensures { IsBegun W.seen self.now watcher.old watcher.new }
    {
        watcher.begin(&Position { run: &self.run });
    }

    /// A check that goes on from a state that a run under this log had. It gives up with NoMemory alone.
    pub fn resume(alloc: Global, log: &'a Log, state: CursorState) -> Result<Checker<'a>, NoMemory>
        requires { CountRecords log.now state.counters }
        ensures { IfOk result (λ checker. checker ≡ resumed log.now state) }
    {
        let CursorState { machine, counters } = state;
        let mut run = Run::resume(Machine::import_state(machine), log, counters);
        run.keep_decoded(alloc)?;
        Ok(Checker { run })
    }

    /// The state, copied, from which [`Checker::resume`] goes on as this check does. It gives up with NoMemory alone.
    pub fn state(&self, alloc: Global) -> Result<CursorState, NoMemory>
        ensures counted { IfOk result (λ saved. CountRecords self.now.log saved.counters) }
        ensures again { IfOk result (λ saved. resumed self.now.log saved ≡ self.now) }
    {
        let counters = self.run.counters();
        let machine = self.run.machine().export_state(alloc)?;
        Ok(CursorState { machine, counters })
    }

    /// The state, from which [`Checker::resume`] goes on as this check does. It takes no memory.
    pub fn into_state(self) -> CursorState
        ensures counted { CountRecords self.entry.log result.counters }
        ensures again { resumed self.entry.log result ≡ self.entry }
    {
        let (machine, counters) = self.run.into_parts();
        CursorState {
            machine: machine.into_state(),
            counters,
        }
    }

    /// Goes on to a time, no earlier than where it stands and at most that of the log's end, and tells the watcher of the steps.
    /// It says where the log differs from the run before.
    pub fn go_to<W: Watcher>(self, until: u64, watcher: &mut W) -> Result<Checker<'a>, Divergence>
        requires later { self.moment.time ≤ until }
        requires within { until ≤ end_at self.log.end }
        ensures { IsCheckedTo W.seen self.entry watcher.old until result watcher.new }
    {
        let mut run = self.run;
        match check_to(&mut run, watcher, until) {
            Ok(()) => Ok(Checker { run }),
            Err(divergence) => Err(divergence),
        }
    }

    /// Goes on to the log's end, and tells the watcher of the steps. It says where the log differs from the run.
    pub fn finish<W: Watcher>(self, watcher: &mut W) -> Result<(), Divergence>
        requires { self.moment.time ≤ end_at self.log.end }
        ensures { IsCheckedToEnd W.seen self.entry watcher.old result watcher.new }
    {
        let mut run = self.run;
        let end = time_of_end(run.log().end());
        match check_to(&mut run, watcher, end) {
            Ok(()) => check_end(&mut run, watcher),
            Err(divergence) => Err(divergence),
        }
    }
}

/// The first difference between a log and a machine's run under it, up to the log's end. The watcher is told of each step
/// before it: where nothing differs, of the whole run.
pub(crate) fn first_divergence<W: RunWatcher>(
    machine: Machine,
    log: &Log,
    watcher: &mut W,
) -> Option<Divergence>
    requires { machine.waits ≡ false }
    ensures first { result ≡ divergence machine.state log.now }
    ensures seen { result ≡ None
        → W.seen watcher.old watcher.new (record { start = machine.state; log = log.now }) (steps log.now) }
{
    let checker = Checker {
        run: Run::start(machine, log),
    };
    checker.begin(watcher);
    match checker.finish(watcher) {
        Ok(()) => None,
        Err(divergence) => Some(divergence),
    }
}
