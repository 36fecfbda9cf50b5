//! The path of a pair, found in a pass over the run.

ghost use Rattle.std.specs.Prelude.{◌≡◌, List, IfOk, IfSome};
ghost use Rattle.flow_model.specs.declared.Rule.{Rule as RuleOfFlow};
ghost use Rattle.flow_model.specs.declared.SourceByte.{SourceByte as Source};
ghost use Rattle.flow_model.specs.declared.StepSeen.{StepSeen as Step};
ghost use Rattle.flow_model.specs.Ranges.{IsLocation};
ghost use Rattle.path_find.specs.Paths.{path};
ghost use Rattle.path_find.specs.FirstPair.{ended_in};
ghost use Rattle.path_find.specs.Trails.{IsTrail, IsAfter};
ghost use Rattle.path_find.specs.Sinks.{IsLocated, shown_path};
ghost use Rattle.path_find.specs.Watched.{IsFound};

use crate::trail::Trail;
use crate::watching::PathWatching;
use crate::{Arrival, Pair};
use flow_model::{Loc, Rule, SinkPoint};
use no_memory::NoMemory;
use replayer::Job;
use std::alloc::Global;

/// A path, the latest arrival first, and the sink that it ends in: the number of steps done before it, and its location.
#[derive(Drop)]
pub struct SinkPath {
    pub name: SinkPoint,
    pub time: u64,
    pub loc: Loc,
    pub arrivals: Vec<Arrival>,
}

/// The path of the trail's source byte to a location, which a sink has at this time.
pub(crate) fn path_here(
    alloc: Global,
    trail: &Trail,
    name: SinkPoint,
    time: u64,
    loc: Loc,
) -> Result<Option<SinkPath>, NoMemory>
    requires location { IsLocation loc }
    requires trail { IsTrail trail.now }
    ensures path { IfOk result (λ f.
        (rule : RuleOfFlow) (s : Source) (trace : List Step) → IsAfter rule s trace time trail.now
        → shown_path f ≡ ended_in (record { name = name; time = time; loc = loc }) (path rule s trace time loc)) }
    ensures time { IfOk result (λ f. IfSome f (λ x. x.time ≡ time)) }
{
    let Some(arrivals) = trail.path(alloc, loc)? else {
        return Ok(None);
    };
    Ok(Some(SinkPath {
        name,
        time,
        loc,
        arrivals,
    }))
}

/// The path of a pair's source byte to its sink in the run of a job, by a rule, found while the run is gone through once more. None
/// means that the run has no such sink, or that the source byte isn't among its origins.
pub fn find_path(
    alloc: Global,
    job: &Job,
    rule: Rule,
    pair: Pair,
) -> Result<Option<SinkPath>, NoMemory>
    requires located { IsLocated pair }
    ensures { IfOk result (IsFound rule pair job.now) }
{
    let mut watching = PathWatching::new(alloc, rule, pair);
    job.watch(alloc, &mut watching)?;
    watching.finish(job)
}
