//! An epoch that is tracked while there is memory.

ghost use Rattle.std.specs.Prelude.{List, IfOk};
ghost use Rattle.flow_model.specs.declared.StepSeen.{StepSeen as AnyStep};
ghost use Rattle.flow_model.specs.Ranges.{IsInRange};
ghost use Rattle.taint_shadow.specs.Steps.{AreStanding};
ghost use Rattle.taint_tracking.specs.Sinks.{AreLabelled};
ghost use Rattle.taint_tracking.specs.Watched.{IsOfSteps, HasBegun, Finds, TracksNext, TracksPlain, has_seen, quiet_of};

use crate::tracking::{Tracked, Tracking};
use no_memory::NoMemory;
use query_lang::Query;
use replayer::{
    Follower, Instr, InstructionAddress, Load, PlainStep, Position, RunWatcher, StepSeen, Store,
    Watcher,
};
use std::alloc::Global;
use std::marker::Model;
use taint_shadow::Labels;

/// Tracks an epoch while its steps are told, such as a whole run that it watches. Once it is out of memory it does nothing more.
/// Contracts see it as the tracking, or as nothing once it is out of memory.
#[derive(Drop)]
pub struct Watching<'q, L: Labels + Drop> {
    tracking: Tracking<'q, L>,
    no_memory: Option<NoMemory>,
}

impl<'q, L: Labels + Drop> Model for Watching<'q, L> {
    ghost use Rattle.std.specs.Prelude.{Option, IfSome};
    ghost use Rattle.taint_tracking.specs.declared.tracking.Tracking.{Tracking};
    ghost use Rattle.taint_tracking.specs.Following.{IsSound};
    ghost use Rattle.taint_tracking.specs.Watched.{unless_faulty};

    ghost Value = { Option (Tracking L) };

    ghost view = { λ w. unless_faulty w.no_memory w.tracking };

    ghost invariant = { λ w. IfSome (unless_faulty w.no_memory w.tracking) (IsSound L.words) };
}

impl<'q, L: Labels + Drop> Watching<'q, L> {
    /// Before the first step of an epoch, which has the number `first`: each location has the label of the start. It gives up with
    /// NoMemory alone.
    pub fn of_epoch(
        alloc: Global,
        labels: L,
        query: &'q Query,
        first: u64,
    ) -> Result<Watching<'q, L>, NoMemory>
        ensures { IfOk result (λ w. (trace : List AnyStep) → IsOfSteps L.words query.now trace first first w) }
    {
        Ok(Watching {
            tracking: Tracking::begin(alloc, labels, query, first)?,
            no_memory: None,
        })
    }

    /// Before the first step of any run. It gives up with NoMemory alone.
    pub fn new(alloc: Global, labels: L, query: &'q Query) -> Result<Watching<'q, L>, NoMemory>
        ensures { IfOk result (HasBegun L.words query.now) }
    {
        Watching::of_epoch(alloc, labels, query, 0)
    }

    /// Goes on by a step.
    #[inline(always)]
    pub fn track(&mut self, step: &StepSeen)
        requires { IsInRange step.now }
        ensures { TracksNext L.words step.now self.old self.new }
    {
        if self.no_memory.is_none() {
            self.no_memory = self.tracking.step(step).err();
        }
    }

    /// What was tracked of the epoch, where it has seen all its steps. It gives up with NoMemory alone: where memory ran out
    /// while it watched.
    pub fn finish(self) -> Result<Tracked<L>, NoMemory>
        ensures standing { IfOk result (λ t. AreStanding L.words t.labels t.places) }
        ensures labelled { IfOk result (λ t. AreLabelled L.words t.labels t.sinks.items) }
        ensures found { IfOk result (Finds L.words self.entry) }
    {
        match self.no_memory {
            Some(no_memory) => Err(no_memory),
            None => Ok(self.tracking.into_parts()),
        }
    }
}

impl<'q, L: Labels + Drop> Follower for Watching<'q, L> {
    ghost told = { TracksPlain L.words };

    ghost wants = { λ _ _. Unit {0} };

    #[inline(always)]
    fn wants_step(&self, _at: &InstructionAddress) -> bool {
        true
    }

    /// It passes by what turns no label. Out of memory it is all the same whether it is told.
    #[inline(always)]
    fn passes_by(&self, registers: u32) -> bool {
        self.tracking.passes_by(registers)
    }

    #[inline(always)]
    fn follow(&mut self, instr: &Instr) {
        if self.no_memory.is_none() {
            self.no_memory = self.tracking.turn(instr).err();
        }
    }

    #[inline(always)]
    fn follow_load(&mut self, load: Load, place: u32) {
        if self.no_memory.is_none() {
            self.no_memory = self.tracking.turn_load(load, place).err();
        }
    }

    #[inline(always)]
    fn follow_store(&mut self, store: Store, place: u32) {
        if self.no_memory.is_none() {
            self.no_memory = self.tracking.turn_store(store, place).err();
        }
    }
}

impl<'q, L: Labels + Drop> Watcher for Watching<'q, L> {
    ghost use Rattle.replayer.specs.Jobs.{trace_of};

    ghost seen = { has_seen L.words };

    ghost quiet = { quiet_of };

    ghost enough = { λ _ _ _ _ told was job until t after small soon before fits made seen.
        ((λ q begun. told.tracks until t soon before fits (trace_of job) made.step q 0 (seen q begun)), told.quiet until small soon) };

    /// The next point is due after the step that begins then.
    #[inline(always)]
    fn quiet_until(&self) -> u64 {
        if self.no_memory.is_some() {
            return u64::MAX;
        }
        self.tracking.due_after()
    }

    #[inline(always)]
    fn plain(&mut self, time: u64, step: PlainStep, _at: &Position<'_, '_>) {
        let PlainStep { instr, place } = step;
        self.track(&StepSeen {
            number: time,
            instr,
            place,
            call: None,
        });
    }

    #[inline(always)]
    fn step(&mut self, step: &StepSeen, _at: &Position<'_, '_>) {
        self.track(step);
    }
}

impl<'q, L: Labels + Drop> RunWatcher for Watching<'q, L> {
    #[inline(always)]
    fn begin(&mut self, _at: &Position<'_, '_>) {}
}
