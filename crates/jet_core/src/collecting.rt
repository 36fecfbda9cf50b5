//! What cores that are done come to.

ghost use Rattle.std.specs.Prelude.{◌≡◌, IfOk, drop, map};
ghost use Rattle.epoch_engine.specs.Collecting.{IsCollectedOf};
ghost use Rattle.epoch_node.specs.Cores.{core_of};
ghost use Rattle.jet_core.specs.Lines.{Plan, IsLineOf, AreDone};

use crate::line::Line;
use epoch_engine::Collected;
use no_memory::NoMemory;
use sink_collect::SinkSets;
use std::alloc::Global;

/// The items without the first.
fn without_first<T: Drop>(mut items: Vec<T>) -> Vec<T>
    ensures { result.items ≡ drop 1 items.items }
{
    if !items.is_empty() {
        items.remove(0);
    }
    items
}

/// The rows of a run, and what its cores asked, of a line whose cores are done. It gives up with NoMemory alone, also where
/// a core is broken.
pub(crate) fn collect<'a, G>(alloc: Global, line: Line<'a, G>) -> Result<Collected, NoMemory>
    requires done { AreDone (map core_of line.cores.items) }
    requires line { (plan : Plan) × IsLineOf plan (map core_of line.cores.items) line.joints.items }
    ensures { (plan : Plan) → IsLineOf plan (map core_of line.entry.cores.items) line.entry.joints.items
        → IfOk result (IsCollectedOf plan.run.query plan.run.job plan.run.cuts) }
{
    let mut sets = SinkSets::from_vec(Vec::new(alloc));
    let mut asked = Vec::new(alloc);
    let mut events = 0u64;
    for core in line.cores {
        let (own, requests, moved) = core.into_result()?;
        let own = match own {
            Ok(own) => own,
            Err(broken) => return Err(NoMemory::from(broken)),
        };
        sets.append(own)?;
        asked.push(requests)?;
        events = events.saturating_add(moved);
    }
    // The first core asks nothing.
    let crossed = without_first(asked);
    Ok(Collected {
        sets,
        crossed,
        events,
    })
}
