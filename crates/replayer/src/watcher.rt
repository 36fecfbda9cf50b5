//! Who watches a run while its log is checked.

ghost use Rattle.std.specs.Prelude.{◌≡◌, ℕ};
ghost use Rattle.isa.specs.Encodings.{Fits};
ghost use Rattle.flow_model.specs.Ranges.{IsInRange};
ghost use Rattle.replayer.specs.Jobs.{Job};
ghost use Rattle.replayer.specs.Nexts.{seen_at};
ghost use Rattle.replayer.specs.Watching.{IsBegun, IsToldOf, IsEnough};

use crate::cursor::PlainStep;
use flow_model::StepSeen;
use isa::Instr;
use replay_run::Run;
use rv_machine::{Follower, InstructionAddress, Load, Store};
use std::marker::Model;

/// Where a run stands, lent to a watcher.
#[derive(Drop)]
pub struct Position<'r, 'a> {
    pub(crate) run: &'r Run<'a>,
}

impl<'r, 'a> Model for Position<'r, 'a> {
    ghost use Rattle.replay_run.specs.Runs.{RunAt};

    ghost Value = { RunAt };

    ghost view = { λ s. s.run.now };

    ghost use Rattle.std.specs.Prelude.{◌≡◌, false};

    ghost invariant = { λ s. s.run.now.waits ≡ false };
}

/// Is told of each step of a run, one after another, as it is found to be what the log has. A watcher that is out of memory
/// keeps that to itself, and goes on doing nothing: what it has seen counts only where the whole log fits.
///
/// Of plain steps in a row it may be told as a [`Follower`], up to its quiet time.
pub trait Watcher: Follower {
    /// Holds of the watcher as it was, and as it is after it was told of so many of the first steps of a job's run.
    ghost seen: { Self → Self → Job → ℕ → Type 0 };

    /// The time up to which it is enough that it is told of plain steps as a follower: of each that ends at or before it.
    ghost quiet: { Self → ℕ };

    /// Its quiet time; 0 where each step is to be told by [`Watcher::plain`].
    fn quiet_until(&self) -> u64
        ensures { result ≡ quiet self.now };

    /// After so many steps the run made this one, which is no call, and stands here now.
    fn plain(&mut self, time: u64, step: PlainStep, after: &Position<'_, '_>)
        requires { Fits step.instr }
        ensures { IsToldOf seen (seen_at time step) after.now self.old self.new };

    /// The run made this step, and stands here now. It is a call, but for few steps.
    fn step(&mut self, step: &StepSeen, after: &Position<'_, '_>)
        requires { IsInRange step.now }
        ensures { IsToldOf seen step.now after.now self.old self.new };

    /// Being told as a follower of a plain step that ends at or before the quiet time is as good as [`Watcher::plain`].
    ghost enough: { IsEnough Self.told seen quiet };
}

/// A watcher of whole runs, which may be told that one begins.
pub trait RunWatcher: Watcher {
    /// The run stands at its beginning.
    fn begin(&mut self, at: &Position<'_, '_>)
        ensures { IsBegun Self.seen at.now self.old self.new };
}

/// A watcher that does nothing.
#[derive(Drop)]
pub struct Nobody;

impl Follower for Nobody {
    ghost told = { λ _ _ _ _. Unit {0} };

    ghost wants = { λ _ _. Unit {0} };

    #[inline(always)]
    fn wants_step(&self, _at: &InstructionAddress) -> bool {
        true
    }

    #[inline(always)]
    fn passes_by(&self, _registers: u32) -> bool {
        true
    }

    #[inline(always)]
    fn follow(&mut self, _instr: &Instr) {}

    #[inline(always)]
    fn follow_load(&mut self, _load: Load, _place: u32) {}

    #[inline(always)]
    fn follow_store(&mut self, _store: Store, _place: u32) {}
}

impl Watcher for Nobody {
    ghost use Rattle.std.specs.Prelude.{◌-◌, ◌^◌};
    ghost use Rattle.std.proofs.Common.{rules};

    ghost seen = { λ _ _ _ _. Unit {0} };

    ghost quiet = { λ _. 2 ^ 64 - 1 };

    ghost enough = { Prim.search rules };

    #[inline(always)]
    fn quiet_until(&self) -> u64 {
        u64::MAX
    }

    #[inline(always)]
    fn plain(&mut self, _time: u64, _step: PlainStep, _after: &Position<'_, '_>) {}

    #[inline(always)]
    fn step(&mut self, _step: &StepSeen, _after: &Position<'_, '_>) {}
}

impl RunWatcher for Nobody {
    #[inline(always)]
    fn begin(&mut self, _at: &Position<'_, '_>) {}
}
