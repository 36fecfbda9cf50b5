//! A run whose decisions are counted while it is gone through.

ghost use Rattle.std.specs.Prelude.{◌≡◌, IfOk};
ghost use Rattle.log_model.specs.Logs.{steps};
ghost use Rattle.flow_model.specs.Ranges.{IsInRange};
ghost use Rattle.report_model.specs.Query.{Query as QueryOf};
ghost use Rattle.replayer.specs.Jobs.{Job as JobOf};
ghost use Rattle.replayer.specs.Watching.{IsToldOf};
ghost use Rattle.decision_find.specs.Text.{decisions_report};
ghost use Rattle.decision_find.specs.Traps as model;
ghost use Rattle.decision_find.specs.Watched.{HasBegun, IsSeenTo, StandsAt, has_seen};

use crate::tracking::DecisionTracking;
use crate::writing::text;
use flow_model::StepSeen;
use log_model::RunEnd;
use no_memory::NoMemory;
use query_lang::Query;
use replayer::{
    Follower, Instr, InstructionAddress, Load, PlainStep, Position, RunWatcher, Store, Watcher,
};
use std::alloc::Global;
use std::marker::Model;

/// Watches a run from its first step on, and counts its decisions. Once it is out of memory it does nothing more.
#[derive(Drop)]
pub(crate) struct DecisionWatching<'q> {
    /// What is tracked, or that memory ran out.
    tracking: Result<DecisionTracking<'q>, NoMemory>,
    /// Where the run stands.
    pc: u32,
    /// When the run traps, if it does.
    trap_at: Option<u64>,
}

impl<'q> Model for DecisionWatching<'q> {
    ghost use Rattle.std.specs.Coded.{codes};
    ghost use Rattle.decision_find.specs.contracts.groups.Groups as groups;
    ghost use Rattle.decision_find.specs.Watched.{WatchingAt};

    ghost Value = { WatchingAt };

    ghost coded = { Prim.hlevel (codes, groups.the_row.coded) };

    ghost view = { λ w. record { tracking = w.tracking; pc = w.pc; trap_at = w.trap_at } };

    ghost use Rattle.std.specs.Prelude.{IfOk};
    ghost use Rattle.decision_find.specs.Following.{IsSound};

    ghost invariant = { λ w. IfOk w.tracking IsSound };
}

/// The time at which a run traps that ends so.
fn trap_time(end: RunEnd) -> Option<u64>
    ensures { result ≡ model.trap_time end }
{
    match end {
        RunEnd::Exit { .. } => None,
        RunEnd::Trap { at, .. } => Some(at),
        RunEnd::Limit { .. } => None,
    }
}

/// Whether a run traps at a time.
#[inline(always)]
fn traps_at(trap_at: Option<u64>, time: u64) -> bool
    ensures { result ≡ model.traps_at trap_at time }
{
    match trap_at {
        None => false,
        Some(at) => time == at,
    }
}

impl<'q> DecisionWatching<'q> {
    /// Before the first step of any run that ends so.
    pub(crate) fn new(alloc: Global, query: &'q Query, end: RunEnd) -> DecisionWatching<'q>
        ensures { HasBegun query.now end result }
    {
        DecisionWatching {
            tracking: DecisionTracking::begin(alloc, query),
            pc: 0,
            trap_at: trap_time(end),
        }
    }

    /// Takes where the run stands, all steps before which are followed. If it traps there, it looks at what traps.
    #[inline(always)]
    fn stand(&mut self, at: &Position<'_, '_>)
        ensures { StandsAt at.now self.old self.new }
    {
        self.pc = at.pc();
        if !traps_at(self.trap_at, at.time()) {
            return;
        }
        let Ok(tracking) = &mut self.tracking else {
            return;
        };
        if let Err(no_memory) = tracking.look_at_trap(at) {
            self.tracking = Err(no_memory);
        }
    }

    /// Follows a step, after which the run stands here.
    #[inline(always)]
    fn follow(&mut self, step: &StepSeen, after: &Position<'_, '_>)
        requires { IsInRange step.now }
        ensures { IsToldOf has_seen step.now after.now self.old self.new }
    {
        let Ok(tracking) = &mut self.tracking else {
            return;
        };
        match tracking.step(self.pc, step) {
            Ok(()) => self.stand(after),
            Err(no_memory) => self.tracking = Err(no_memory),
        }
    }

    /// The text of the decisions of the run, all steps of which were seen. It gives up with NoMemory alone: where memory
    /// runs out, or ran out while it watched.
    pub(crate) fn text(&self, alloc: Global) -> Result<Vec<u8>, NoMemory>
        ensures { IfOk result (λ text. (q : QueryOf) (job : JobOf) → IsSeenTo q job (steps job.log) self.now
            → text.items ≡ decisions_report job.start job.log q) }
    {
        match &self.tracking {
            Ok(tracking) => text(alloc, tracking),
            Err(no_memory) => Err(*no_memory),
        }
    }
}

impl<'q> Follower for DecisionWatching<'q> {
    ghost use Rattle.replayer.specs.Watching.{IsToldInRow, never_quiet};
    ghost use Rattle.decision_find.specs.Watched.{has_seen};

    ghost told = { IsToldInRow has_seen never_quiet };

    ghost wants = { λ _ _. Unit {0} };

    fn wants_step(&self, _at: &InstructionAddress) -> bool {
        true
    }

    fn passes_by(&self, _registers: u32) -> bool {
        false
    }

    /// It is told of no step in a row, since each decision counts where the run stands.
    fn follow(&mut self, _instr: &Instr) {}

    fn follow_load(&mut self, _load: Load, _place: u32) {}

    fn follow_store(&mut self, _store: Store, _place: u32) {}
}

impl<'q> Watcher for DecisionWatching<'q> {
    ghost use Rattle.replayer.specs.Watching.{never_quiet};
    ghost use Rattle.decision_find.specs.Watched.{has_seen};

    ghost seen = { has_seen };

    ghost quiet = { never_quiet };

    ghost enough = { λ _ _ _ _ told. told };

    fn quiet_until(&self) -> u64 {
        0
    }

    #[inline(always)]
    fn plain(&mut self, time: u64, step: PlainStep, after: &Position<'_, '_>) {
        let PlainStep { instr, place } = step;
        let step = StepSeen {
            number: time,
            instr,
            place,
            call: None,
        };
        self.follow(&step, after);
    }

    fn step(&mut self, step: &StepSeen, after: &Position<'_, '_>) {
        self.follow(step, after);
    }
}

impl<'q> RunWatcher for DecisionWatching<'q> {
    fn begin(&mut self, at: &Position<'_, '_>) {
        self.stand(at);
    }
}
