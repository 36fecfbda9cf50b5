//! The path of a pair, found while its run is gone through.

ghost use Rattle.std.specs.Prelude.{◌≡◌, IfOk};
ghost use Rattle.flow_model.specs.declared.Rule.{Rule as RuleOfFlow};
ghost use Rattle.flow_model.specs.Ranges.{IsInRange};
ghost use Rattle.log_model.specs.Logs.{steps};
ghost use Rattle.replayer.specs.Jobs.{trace_of};
ghost use Rattle.path_find.specs.declared.Pair.{Pair as PairOf};
ghost use Rattle.path_find.specs.Trails.{IsTrail};
ghost use Rattle.path_find.specs.Sinks.{IsLocated, HasLocation};
ghost use Rattle.path_find.specs.Watched.{IsSound, HasBegun, IsSeenTo, IsFound, SeesStep, FollowsStep};
ghost use Rattle.path_find.specs.Watched.{standing_before, standing_of, standing_or, has_seen};

use crate::Pair;
use crate::finding::{SinkPath, path_here};
use crate::sinks::{sink_at_end, sink_in};
use crate::trail::Trail;
use flow_model::{Rule, SinkPoint, StepSeen};
use no_memory::NoMemory;
use replayer::{
    Follower, Instr, InstructionAddress, Job, Load, PlainStep, Position, RunWatcher, Store, Watcher,
};
use std::alloc::Global;
use std::marker::Model;

/// What is known of a path on the way to its sink.
#[derive(Drop)]
pub(crate) enum Standing {
    /// The trail of the source byte: the sink isn't met yet.
    Before(Trail),
    /// The sink is met: the path there, if there is one.
    Met(Option<SinkPath>),
    /// Memory ran out.
    Out(NoMemory),
}

/// Watches a run from its first step on for the path of a pair. Once the sink is met, or memory has run out, it does nothing more.
#[derive(Drop)]
pub(crate) struct PathWatching {
    alloc: Global,
    pair: Pair,
    standing: Standing,
}

impl Model for PathWatching {
    ghost use Rattle.std.specs.Coded.{codes};
    ghost use Rattle.path_find.specs.contracts.trail.Trail as trail;
    ghost use Rattle.path_find.specs.Watched.{WatchingAt};

    ghost Value = { WatchingAt };

    ghost coded = { Prim.hlevel (codes, trail.the_row.coded) };

    ghost view = { λ w. record { pair = w.pair; standing = w.standing } };

    ghost use Rattle.path_find.specs.Sinks.{IsLocated};
    ghost use Rattle.path_find.specs.Watched.{IsSound};

    ghost invariant = { λ w. IsLocated w.pair × IsSound w.standing };
}

/// What is known before the first step, with this trail.
fn before(trail: Result<Trail, NoMemory>) -> Standing
    ensures { result ≡ standing_before trail }
{
    match trail {
        Ok(trail) => Standing::Before(trail),
        Err(no_memory) => Standing::Out(no_memory),
    }
}

/// What is known where the sink is met, and the path there was looked for.
fn met(found: Result<Option<SinkPath>, NoMemory>) -> Standing
    ensures { result ≡ standing_of found }
{
    match found {
        Ok(found) => Standing::Met(found),
        Err(no_memory) => Standing::Out(no_memory),
    }
}

/// Takes what is known from now on in place of what was known.
fn replace(standing: &mut Standing, next: Standing)
    ensures { standing.new ≡ next }
{
    *standing = next;
}

/// Goes on by a step with a trail, before a sink is met. It gives what is known from then on, where the sink is met by the step, or
/// memory runs out.
#[inline(always)]
fn after_step(
    alloc: Global,
    trail: &mut Trail,
    sink: SinkPoint,
    step: &StepSeen,
) -> Option<Standing>
    requires in_range { IsInRange step.now }
    requires trail { IsTrail trail.old }
    requires located { HasLocation sink }
    ensures sound { IsSound (standing_or trail.new result) }
    ensures known { SeesStep step.now sink trail.old (standing_or trail.new result) }
{
    if let Some(loc) = sink_in(step, sink) {
        return Some(met(path_here(alloc, trail, sink, step.number, loc)));
    }
    match trail.follow(step) {
        Ok(()) => None,
        Err(no_memory) => Some(Standing::Out(no_memory)),
    }
}

impl PathWatching {
    /// Before the first step of any run.
    pub(crate) fn new(alloc: Global, rule: Rule, pair: Pair) -> PathWatching
        requires { IsLocated pair }
        ensures { HasBegun rule pair result }
    {
        let standing = before(Trail::new(alloc, rule, pair.source));
        PathWatching {
            alloc,
            pair,
            standing,
        }
    }

    /// Goes on by a step.
    #[inline(always)]
    fn follow(&mut self, step: &StepSeen)
        requires { IsInRange step.now }
        ensures { FollowsStep step.now self.old self.new }
    {
        let Standing::Before(trail) = &mut self.standing else {
            return;
        };
        match after_step(self.alloc, trail, self.pair.sink, step) {
            None => {}
            Some(next) => replace(&mut self.standing, next),
        }
    }

    /// The path in the run of a job, all steps of which were told; None where there is none. It gives up with NoMemory alone:
    /// where memory runs out, or ran out while it watched.
    pub(crate) fn finish(self, job: &Job) -> Result<Option<SinkPath>, NoMemory>
        ensures { IfOk result (λ found. (rule : RuleOfFlow) (pair : PairOf)
            → IsSeenTo rule pair (trace_of job.now) (steps job.now.log) self → IsFound rule pair job.now found) }
    {
        let PathWatching {
            alloc,
            pair,
            standing,
        } = self;
        match standing {
            Standing::Before(trail) => {
                let end = job.steps();
                match sink_at_end(pair.sink, end) {
                    None => Ok(None),
                    Some(loc) => path_here(alloc, &trail, pair.sink, end, loc),
                }
            }
            Standing::Met(found) => Ok(found),
            Standing::Out(no_memory) => Err(no_memory),
        }
    }
}

impl Follower for PathWatching {
    ghost use Rattle.replayer.specs.Watching.{IsToldInRow, never_quiet};
    ghost use Rattle.path_find.specs.Watched.{has_seen};

    ghost told = { IsToldInRow has_seen never_quiet };

    ghost wants = { λ _ _. Unit {0} };

    fn wants_step(&self, _at: &InstructionAddress) -> bool {
        true
    }

    fn passes_by(&self, _registers: u32) -> bool {
        false
    }

    /// It is told of no step in a row, since a trail has the number of each step.
    fn follow(&mut self, _instr: &Instr) {}

    fn follow_load(&mut self, _load: Load, _place: u32) {}

    fn follow_store(&mut self, _store: Store, _place: u32) {}
}

impl Watcher for PathWatching {
    ghost use Rattle.replayer.specs.Watching.{never_quiet};
    ghost use Rattle.path_find.specs.Watched.{has_seen};

    ghost seen = { has_seen };

    ghost quiet = { never_quiet };

    ghost enough = { λ _ _ _ _ told. told };

    fn quiet_until(&self) -> u64 {
        0
    }

    #[inline(always)]
    fn plain(&mut self, time: u64, step: PlainStep, _after: &Position<'_, '_>) {
        let PlainStep { instr, place } = step;
        let step = StepSeen {
            number: time,
            instr,
            place,
            call: None,
        };
        self.follow(&step);
    }

    fn step(&mut self, step: &StepSeen, _after: &Position<'_, '_>) {
        self.follow(step);
    }
}

impl RunWatcher for PathWatching {
    fn begin(&mut self, _at: &Position<'_, '_>) {}
}
