//! The steps of a job's run, one by one.

ghost use Rattle.std.specs.Prelude.{◌≡◌, ◌+◌, ◌^◌, ◌<◌, ◌≤◌, max, length, IfOk, IfSome, MatchOption};
ghost use Rattle.isa.specs.declared.Instr.{Instr as AnyInstr};
ghost use Rattle.isa.specs.Encodings.{Fits};
ghost use Rattle.isa.specs.Machine.{reg, Fetched, fetch};
ghost use Rattle.replay_model.specs.Run.{start, moment_after};
ghost use Rattle.replayer.specs.Positions.{state_at};
ghost use Rattle.replayer.specs.Nexts.{IsNext, ArePlain, IsPlainUntil};
ghost use Rattle.replayer.specs.Told.{AreTold};

use crate::job::Job;
use flow_model::StepSeen;
use isa::Instr;
use log_model::RunEnd;
use no_memory::NoMemory;
use replay_run::Run;
use rv_machine::{Follower, Stepped};
use std::alloc::Global;
use std::marker::Model;

/// A place in the run of a job: so many of its steps are done.
#[derive(Drop)]
pub struct Cursor<'a> {
    pub(crate) job: &'a Job,
    pub(crate) run: Run<'a>,
}

/// What a cursor gives next.
#[derive(Clone, Copy)]
pub enum Next {
    /// The next step of the run.
    Step(StepSeen),
    /// All steps are done, and the run ended so.
    End(RunEnd),
}

/// A step that is no call: its instruction, and the effective address, 0 where the instruction has none.
#[derive(Clone, Copy)]
pub struct PlainStep {
    pub instr: Instr,
    pub place: u32,
}

impl<'a> Model for Cursor<'a> {
    ghost use Rattle.replayer.specs.Positions.{CursorAt};

    ghost Value = { CursorAt };

    ghost use Rattle.replayer.specs.Cursors.{IsCursor};

    ghost view = { λ c. record { job = c.job.now; time = c.run.moment.time } };

    ghost invariant = { λ c. IsCursor c.job.now c.run };
}

impl<'a> Cursor<'a> {
    /// A cursor at the beginning of the run. It answers out of memory where there is none for the window.
    pub fn start(alloc: Global, job: &'a Job) -> Result<Cursor<'a>, NoMemory>
        ensures { IfOk result (λ c. c ≡ record { job = job.now; time = 0 }) }
    {
        job.form();
        let machine = job.machine(alloc)?;
        Ok(Cursor {
            job,
            run: Run::start(machine, job.log()),
        })
    }

    /// Makes the room in which steps keep what they decoded, unless there is some: a cursor that [`Cursor::from`] makes has
    /// none. It changes nothing but the time that steps take, and gives up with NoMemory alone.
    pub fn keep_decoded(&mut self, alloc: Global) -> Result<(), NoMemory>
        ensures { self.new ≡ self.old }
    {
        self.run.keep_decoded(alloc)
    }

    /// How many steps of the run are done.
    pub fn time(&self) -> u64
        ensures { result ≡ self.now.time }
    {
        self.run.time()
    }

    /// The address of the instruction that the next step does; where all steps are done, the pc in which the run ended.
    pub fn pc(&self) -> u32
        ensures { result ≡ (moment_after self.now.time (start self.now.job.start self.now.job.log)).state.pc }
    {
        self.run.machine().pc()
    }

    /// The value of a register where the run stands; that of x0 is 0.
    pub fn register(&self, number: u8) -> u32
        requires { number < 32 }
        ensures { result ≡ reg (state_at self.now) number }
    {
        self.run.machine().register(number)
    }

    /// The bytes of the machine's window where the run stands, from [`Cursor::base`] on.
    pub fn window(&self) -> &[u8]
        ensures { result.now ≡ (state_at self.now).memory }
    {
        self.run.machine().window()
    }

    /// The lowest address of the window. The window ends at most at 2^32.
    pub fn base(&self) -> u32
        ensures is { result ≡ (state_at self.now).base }
        ensures in_space { (state_at self.now).base + length (state_at self.now).memory ≤ 2 ^ 32 }
    {
        self.run.machine().base()
    }

    /// The instruction at the pc; None where the four bytes there stand for none, or don't all lie in the window.
    pub fn fetched(&self) -> Option<Instr>
        ensures there { MatchOption result
            ((instr : AnyInstr) → fetch (state_at self.now) ≡ Fetched instr → ⊥)
            (λ instr. fetch (state_at self.now) ≡ Fetched instr) }
        ensures fits { IfSome result Fits }
    {
        self.run.machine().fetched()
    }

    /// The first time from the cursor's on at which the run makes no plain step: it makes a call there, or all its steps are
    /// done.
    pub fn plain_until(&self) -> u64
        ensures { IsPlainUntil self.now.job self.now.time result }
    {
        self.run.form();
        self.run.event_time().max(self.run.time())
    }

    /// Makes plain steps of the run in a row, up to a time before which each is one, as [`Cursor::plain_until`] has it, or fewer.
    /// `follower` is told of each, but for those that it passes by; before one that it doesn't want they end. It takes no memory, and the log isn't looked at.
    pub fn run_plain<F: Follower>(&mut self, until: u64, follower: &mut F)
        requires { ArePlain self.old.job self.old.time until }
        ensures job { self.new.job ≡ self.old.job }
        ensures within { self.new.time ≤ max until self.old.time }
        ensures told { AreTold F.told F.wants self.old.job self.old.time follower.old self.new.time follower.new }
    {
        self.run.form();
        let time = self.run.time();
        if time < until {
            self.run.run_plain(until - time, follower);
        }
    }

    /// Makes the next step of the run, or tells its end, again and again. It takes no memory.
    ///
    /// Reads and writes have the channels' offsets: bytes read on a channel, and bytes written on it, are
    /// counted apart, each from 0.
    #[inline(always)]
    pub fn next(&mut self) -> Next
        ensures { IsNext self.old result self.new }
    {
        self.run.form();
        let number = self.run.time();
        if number == self.job.steps() {
            return Next::End(self.job.log().end());
        }
        match self.run.step_inlined() {
            Stepped::Plain { instr, place } => {
                self.run.advance();
                Next::Step(StepSeen {
                    number,
                    instr,
                    place,
                    call: None,
                })
            }
            stepped => Next::Step(self.run.finish(stepped)),
        }
    }
}
