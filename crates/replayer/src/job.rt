//! A program and a log that fits it.

ghost use Rattle.std.specs.Prelude.{◌≡◌, ◌≤◌, length, IfOk, OnOk, IfErr, Ok, Some, None};
ghost use Rattle.elf_model.specs.Image.{image as image_of_file};
ghost use Rattle.elf_model.specs.Window.{start_of};
ghost use Rattle.log_model.specs.Logs.{steps};
ghost use Rattle.log_model.specs.Moved.{received, received_by};
ghost use Rattle.replay_model.specs.Comparison.{divergence};
ghost use Rattle.replay_model.specs.Summary.{calls, bytes_read, bytes_written};
ghost use Rattle.rv_machine.specs.Hart.{running};
ghost use Rattle.no_memory.specs.Faults.{IsCausedBy};
ghost use Rattle.replayer.specs.Jobs.{IsJob, begun};
ghost use Rattle.replayer.specs.Checks.{IsChecked, IsMisfit};

use crate::checker::{Checker, first_divergence};
use crate::watcher::{Nobody, RunWatcher};
use elf_image::Image;
use log_model::{CallRecord, RunEnd};
use no_memory::{Fault, NoMemory};
use replay_log::Log;
use replay_model::Misfit;
use rv_machine::Machine;
use std::alloc::Global;
use std::marker::Model;

/// Why [`Job::check`] gave no job: the first misfit that holds, or out of memory.
pub type CheckFault = Fault<Misfit>;

/// A program's image with a log that fits the program: the log has the program's digest, a window of the
/// log's pages can hold the image, and the run under the log differs from it nowhere.
#[derive(Drop)]
pub struct Job {
    image: Image,
    log: Log,
}

/// What a log says of its run, in numbers: the steps, the calls before the end, the bytes that they read and
/// wrote, and how the run ended.
#[derive(Clone, Copy, Debug, PartialEq, Eq)]
pub struct ReplaySummary {
    pub steps: u64,
    pub calls: u64,
    pub read: u64,
    pub written: u64,
    pub end: RunEnd,
}

impl Model for Job {
    ghost use Rattle.replayer.specs.Jobs.{Job as JobOf};

    ghost Value = { JobOf };

    ghost use Rattle.elf_model.specs.Window.{start_of};
    ghost use Rattle.replayer.specs.Jobs.{begun, IsKept};

    ghost view = { λ j. record { start = begun (start_of j.image j.log.pages); log = j.log } };

    ghost invariant = { λ j. IsKept j.image j.log };
}

/// The number of steps that a log tells, at most 2^40, before any check of it. The exit call is a step, a trapping
/// instruction isn't.
pub fn steps_of(log: &Log) -> u64
    ensures { result ≡ steps log.now }
{
    log.form();
    match log.end() {
        RunEnd::Exit { at, .. } => at + 1,
        RunEnd::Trap { at, .. } => at,
        RunEnd::Limit { at } => at,
    }
}

/// How many bytes a call received on a channel: 0 where it is no read, or one on another channel.
fn received_on(call: &CallRecord, channel: u32) -> u64
    ensures { result ≡ length (received_by channel call.now) }
{
    match call {
        CallRecord::Read {
            args,
            bytes: received,
            ..
        } => {
            if args[0] == channel {
                received.len() as u64
            } else {
                0
            }
        }
        CallRecord::Write { .. } => 0,
        CallRecord::Clock { .. } => 0,
        CallRecord::Other { .. } => 0,
    }
}

impl Job {
    /// Checks that a log fits a program, of which `image` is the image.
    ///
    /// The digests are compared first: `WrongProgram` says that they differ. `Window` says that a window of
    /// the log's pages can't hold the image. `Diverged` tells the first difference between the log and the
    /// program's run under it. After a fault nothing is kept.
    pub fn check(alloc: Global, program: &[u8], image: Image, log: Log) -> Result<Job, CheckFault>
        requires { image_of_file program.now ≡ Ok image }
        ensures ok { IfOk result (λ job. IsChecked program.now image log job) }
        ensures fault { IfErr result (IsCausedBy (IsMisfit program.now image log)) }
    {
        Job::check_watched(alloc, program, image, log, &mut Nobody)
    }

    /// The same as [`Job::check`], with a watcher that is told of each step of the run as it is checked. Where the log fits, it
    /// has seen all steps of the job; else what it saw is of no use.
    pub fn check_watched<W: RunWatcher>(
        alloc: Global,
        program: &[u8],
        image: Image,
        log: Log,
        watcher: &mut W,
    ) -> Result<Job, CheckFault>
        requires { image_of_file program.now ≡ Ok image }
        ensures ok { IfOk result (λ job. IsChecked program.now image log job) }
        ensures seen { IfOk result (λ job. W.seen watcher.old watcher.new job (steps job.log)) }
        ensures fault { IfErr result (IsCausedBy (IsMisfit program.now image log)) }
    {
        log.form();
        let _size = log.size();
        let checker = Checker::open(alloc, program, &image, &log)?;
        checker.begin(watcher);
        match checker.finish(watcher) {
            Ok(()) => Ok(Job { image, log }),
            Err(divergence) => Err(Fault::At(Misfit::Diverged(divergence))),
        }
    }

    /// The number of steps of the run, at most 2^40. The exit call is a step, a trapping instruction isn't.
    pub fn steps(&self) -> u64
        ensures { result ≡ steps self.now.log }
    {
        steps_of(&self.log)
    }

    /// Replays the run once more, and tells the watcher of each step of it, as [`Job::check_watched`] does. It gives up with
    /// NoMemory alone, where there is none for the window.
    pub fn watch<W: RunWatcher>(&self, alloc: Global, watcher: &mut W) -> Result<(), NoMemory>
        ensures { OnOk result (W.seen watcher.old watcher.new self.now (steps self.now.log)) }
    {
        self.form();
        let machine = self.machine(alloc)?;
        first_divergence(machine, &self.log, watcher);
        Ok(())
    }

    /// The image and the log, of which [`Job::whole`] makes the job again. It takes no memory.
    pub fn apart(self) -> (Image, Log)
        ensures begins { start_of result.0 self.log.pages ≡ Some self.start }
        ensures log { result.1 ≡ self.log }
    {
        (self.image, self.log)
    }

    /// The job of an image and a log where nothing differs: no run is replayed. It takes no memory.
    pub fn whole(image: Image, log: Log) -> Job
        requires begins { start_of image log.pages ≡ Some (begun (start_of image log.pages)) }
        requires agrees { divergence (begun (start_of image log.pages)) log ≡ None }
        ensures { result ≡ record { start = begun (start_of image log.pages); log = log } }
    {
        log.form();
        let _size = log.size();
        Job { image, log }
    }

    /// The log.
    pub fn log(&self) -> &Log
        ensures { result.now ≡ self.now.log }
    {
        &self.log
    }

    /// What the log says of the run, in numbers.
    pub fn summary(&self) -> ReplaySummary
        ensures { result ≡ record {
          steps = steps self.now.log;
          calls = calls self.now.log;
          read = bytes_read self.now.log;
          written = bytes_written self.now.log;
          end = self.now.log.end;
        } }
    {
        let records = self.log.records();
        let mut read = 0;
        let mut written = 0;
        for call in records {
            match call {
                CallRecord::Read { bytes, .. } => read += bytes.len() as u64,
                CallRecord::Write { bytes, .. } => written += bytes.len() as u64,
                CallRecord::Clock { .. } => {}
                CallRecord::Other { .. } => {}
            }
        }
        ReplaySummary {
            steps: self.steps(),
            calls: records.len() as u64,
            read,
            written,
            end: self.log.end(),
        }
    }

    /// How many bytes the run received on a channel, by the reads of its log: 0 where the log has no such input.
    pub fn received(&self, channel: u32) -> u32
        ensures bytes { result ≡ length (received channel self.now.log.records) }
        ensures none { self.now.log.inputs ≤ channel → result ≡ 0 }
    {
        let mut count = 0;
        for call in self.log.records() {
            count += received_on(call, channel);
        }
        count as u32
    }

    /// Does nothing: it says what is true of each job.
    pub fn form(&self)
        ensures { IsJob self.now }
    {
        let _ = &self.log;
    }

    /// A machine in the state that the run begins in.
    pub(crate) fn machine(&self, alloc: Global) -> Result<Machine, NoMemory>
        ensures { IfOk result (λ m. m ≡ running self.now.start) }
    {
        self.log.form();
        match Machine::new(alloc, &self.image, self.log.pages()) {
            Ok(machine) => Ok(machine),
            Err(Fault::At(_)) => unreachable!(),
            Err(Fault::NoMemory(no_memory)) => Err(no_memory),
        }
    }
}
