//! Runs of source bytes as ranges, and as a set.

ghost use Rattle.std.specs.Prelude.{◌≡◌, ◌++◌, [], IfOk, MatchOption, OnOk};
ghost use Rattle.lists.specs.Sets.{Ascends};
ghost use Rattle.flow_model.specs.Orders.{source_cmp};
ghost use Rattle.source_runs.specs.Runs.{all_bytes, bytes_of as bytes_of_run};
ghost use Rattle.source_ranges.specs.Kept.{IsRange};
ghost use Rattle.source_ranges.specs.Ranges.{bytes_of};

use crate::SourceRange;
use crate::joined::JoinedRanges;
use crate::set::SourceSet;
use no_memory::NoMemory;
use source_runs::SourceRun;
use std::alloc::Global;

impl SourceSet {
    /// The set of the bytes of a run. It takes no memory.
    pub fn of_run(alloc: Global, run: SourceRun) -> SourceSet
        ensures { result ≡ bytes_of_run run }
    {
        match range_of(run) {
            Some(range) => SourceSet::of_range(range),
            None => SourceSet::new(alloc),
        }
    }

    /// The set of the bytes of runs, which ascend by channel and then offset. It takes the room of its ranges, and none
    /// where there is one run at most. It fails only where there is no memory.
    pub fn of_runs(alloc: Global, runs: &[SourceRun]) -> Result<SourceSet, NoMemory>
        requires { Ascends source_cmp (all_bytes runs.now) }
        ensures { IfOk result (λ set. set ≡ all_bytes runs.now) }
    {
        if let [run] = runs {
            return Ok(SourceSet::of_run(alloc, *run));
        }
        let joined = joined(alloc, runs)?;
        Ok(joined.into_set())
    }
}

/// The ranges of runs, each as long as can be.
fn joined(alloc: Global, runs: &[SourceRun]) -> Result<JoinedRanges, NoMemory>
    ensures { IfOk result (λ joined. joined ≡ all_bytes runs.now) }
{
    let mut joined = JoinedRanges::new(alloc);
    for run in runs {
        push_run(&mut joined, *run)?;
    }
    Ok(joined)
}

/// Adds the bytes of a run to ranges.
fn push_run(joined: &mut JoinedRanges, run: SourceRun) -> Result<(), NoMemory>
    ensures { OnOk result (joined.new ≡ joined.old ++ bytes_of_run run) }
{
    match range_of(run) {
        Some(range) => joined.push(range),
        None => Ok(()),
    }
}

/// The range of a run's bytes; none where it has no byte.
fn range_of(run: SourceRun) -> Option<SourceRange>
    ensures { MatchOption result (bytes_of_run run ≡ []) (λ range.
        IsRange range × (bytes_of range ≡ bytes_of_run run)) }
{
    if run.last < run.first {
        return None;
    }
    Some(SourceRange {
        channel: run.channel,
        from: u64::from(run.first),
        past: u64::from(run.last) + 1,
    })
}
