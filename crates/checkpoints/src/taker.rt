//! A watcher that takes checkpoints.

ghost use Rattle.std.specs.Prelude.{◌≡◌, ◌+◌, false, IfOk};
ghost use Rattle.log_model.specs.Logs.{steps};
ghost use Rattle.flow_model.specs.declared.StepSeen.{StepSeen as Step};
ghost use Rattle.epoch_model.specs.Cutting.{IsCutting};
ghost use Rattle.replayer.specs.Watching.{IsToldOf};
ghost use Rattle.checkpoints.specs.Touched.{written};
ghost use Rattle.checkpoints.specs.Points.{beginnings};
ghost use Rattle.checkpoints.specs.Taking.{IsDueTaken, HasTaken, HasSeen};

use crate::checkpoints::Checkpoints;
use crate::taken::Taken;
use crate::touched::{Span, Touched, stored, written};
use epoch_cut::Cuts;
use flow_model::StepSeen;
use no_memory::NoMemory;
use replayer::{
    Follower, Instr, InstructionAddress, Job, Load, PlainStep, Position, RunWatcher, Store, Watcher,
};
use std::alloc::Global;
use std::marker::Model;

/// A watcher that takes a checkpoint at the beginning of each epoch. So the replay that checks a log takes the checkpoints.
#[derive(Drop)]
pub struct CheckpointTaker {
    alloc: Global,
    cuts: Vec<u64>,
    // The time of the next checkpoint, or the run's last time, where there is none.
    next: u64,
    touched: Touched,
    taken: Taken,
    fault: Option<NoMemory>,
}

impl Model for CheckpointTaker {
    ghost use Rattle.std.specs.Option.{is_some};
    ghost use Rattle.checkpoints.specs.Taking.{TakerAt};

    ghost Value = { TakerAt };

    ghost view = { λ w. record { cuts = w.cuts.items; next = w.next; touched = w.touched; taken = w.taken; is_out = is_some w.fault } };
}

impl CheckpointTaker {
    /// A taker of the checkpoints of a run that is cut so. It gives up with NoMemory alone.
    pub fn new(alloc: Global, cuts: &Cuts) -> Result<CheckpointTaker, NoMemory>
        ensures { IfOk result (λ taker. taker.cuts ≡ cuts.now) }
    {
        let count = cuts.count();
        let mut times = Vec::with_capacity(alloc, count as usize)?;
        for number in 0..count {
            times.push(cuts.at(number + 1))?;
        }
        Ok(CheckpointTaker {
            alloc,
            cuts: times,
            next: 0,
            touched: Touched::none(alloc),
            taken: Taken::none(alloc),
            fault: None,
        })
    }

    /// Takes the checkpoint that is due where the run stands. At the run's end there is none.
    fn take_here(&mut self, at: &Position<'_, '_>)
        ensures cuts { self.new.cuts ≡ self.old.cuts }
        ensures out { self.new.is_out ≡ false → self.old.is_out ≡ false }
        ensures taken { IsDueTaken at.now self.old self.new }
    {
        let number = self.taken.count();
        if number >= self.cuts.len() {
            return;
        }
        match self.taken.add(self.alloc, at, &self.touched) {
            Ok(()) => {
                self.touched.clear();
                self.next = self.cuts[number];
            }
            Err(no_memory) => self.fault = Some(no_memory),
        }
    }

    /// Notes the bytes that a step wrote, and takes a checkpoint if one is due where the run stands after it.
    #[inline(always)]
    fn note(&mut self, bytes: Span, after: &Position<'_, '_>)
        ensures { (step : Step) → bytes ≡ written step → IsToldOf HasSeen step after.now self.old self.new }
    {
        self.touched.note(bytes);
        if after.time() == self.next {
            self.take_here(after);
        }
    }

    /// The checkpoints of the job whose run was watched. It gives up with NoMemory alone: where memory ran out meanwhile.
    pub fn finish<'a>(self, job: &'a Job) -> Result<Checkpoints<'a>, NoMemory>
        requires cutting { IsCutting (steps job.now.log) self.cuts }
        requires seen { HasTaken job.now (steps job.now.log) self }
        ensures { IfOk result (λ points. points ≡ record { job = job.now; times = beginnings self.cuts }) }
    {
        job.form();
        match self.fault {
            Some(no_memory) => Err(no_memory),
            None => Ok(Checkpoints::of(job, self.taken)),
        }
    }
}

impl Follower for CheckpointTaker {
    ghost use Rattle.replayer.specs.Watching.{IsToldInRow};
    ghost use Rattle.checkpoints.specs.Taking.{HasSeen, quiet_of};

    ghost told = { IsToldInRow HasSeen quiet_of };

    ghost wants = { λ _ _. Unit {0} };

    #[inline(always)]
    fn wants_step(&self, _at: &InstructionAddress) -> bool {
        true
    }

    #[inline(always)]
    fn passes_by(&self, _registers: u32) -> bool {
        true
    }

    #[inline(always)]
    fn follow(&mut self, _instr: &Instr) {}

    #[inline(always)]
    fn follow_load(&mut self, _load: Load, _place: u32) {}

    #[inline(always)]
    fn follow_store(&mut self, store: Store, place: u32) {
        let size = u32::from(store.size);
        self.touched.note(Span { place, size });
    }
}

impl Watcher for CheckpointTaker {
    ghost use Rattle.checkpoints.specs.Taking.{HasSeen, quiet_of};

    ghost seen = { HasSeen };

    ghost quiet = { quiet_of };

    ghost enough = { λ _ _ _ _ told. told };

    /// The next checkpoint is taken by the step that ends when it is due.
    fn quiet_until(&self) -> u64 {
        self.next.saturating_sub(1)
    }

    #[inline(always)]
    fn plain(&mut self, _time: u64, step: PlainStep, after: &Position<'_, '_>) {
        self.note(stored(step.instr, step.place), after);
    }

    fn step(&mut self, step: &StepSeen, after: &Position<'_, '_>) {
        self.note(written(step), after);
    }
}

impl RunWatcher for CheckpointTaker {
    fn begin(&mut self, at: &Position<'_, '_>) {
        self.next = 0;
        self.taken = Taken::none(self.alloc);
        let (window, rest) = at.parts();
        match Touched::all(self.alloc, rest.base(), window.len()) {
            Ok(touched) => {
                self.touched = touched;
                self.take_here(at);
            }
            Err(no_memory) => self.fault = Some(no_memory),
        }
    }
}
