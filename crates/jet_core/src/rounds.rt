//! A run's cores, turned one after another until all are done.

ghost use Rattle.std.specs.Prelude.{◌<◌, IfOk, map};
ghost use Rattle.epoch_engine.specs.Collecting.{AreAtBeginnings, IsCollectedOf};
ghost use Rattle.epoch_node.specs.Cores.{core_of};
ghost use Rattle.jet_core.specs.Lines.{Plan, IsLineOf, IsLaidOut, AreDone};
ghost use Rattle.jet_core.specs.Streams.{AreParts};
ghost use Rattle.jet_core.specs.Left.{work_left};

use crate::collecting::collect;
use crate::line::{Line, lay_out};
use crate::turning::turn_at;
use checkpoints::Checkpoints;
use epoch_cut::Cuts;
use epoch_engine::Collected;
use epoch_link::Capacity;
use no_memory::NoMemory;
use outer_io::Gate;
use query_lang::Query;
use std::alloc::Global;

/// A round: each core has an event, from the first to the last. In the first one each begins; after that, while not all are
/// done, less work is left after it. It gives up with NoMemory alone.
fn round<'a, G: Gate>(alloc: Global, line: Line<'a, G>) -> Result<Line<'a, G>, NoMemory>
    requires { (plan : Plan) × IsLineOf plan (map core_of line.cores.items) line.joints.items }
    ensures line { IfOk result (λ new.
        (plan : Plan) → IsLineOf plan (map core_of line.entry.cores.items) line.entry.joints.items
        → IsLineOf plan (map core_of new.cores.items) new.joints.items) }
    ensures begun { IfOk result (λ new.
        (plan : Plan) → IsLaidOut plan (map core_of line.entry.cores.items) line.entry.joints.items
        → AreParts (map core_of new.cores.items) new.joints.items) }
    ensures parts { IfOk result (λ new.
        (plan : Plan) → IsLineOf plan (map core_of line.entry.cores.items) line.entry.joints.items
        → AreParts (map core_of line.entry.cores.items) line.entry.joints.items
        → AreParts (map core_of new.cores.items) new.joints.items) }
    ensures less { IfOk result (λ new.
        (plan : Plan) → IsLineOf plan (map core_of line.entry.cores.items) line.entry.joints.items
        → AreParts (map core_of line.entry.cores.items) line.entry.joints.items
        → ¬ AreDone (map core_of line.entry.cores.items)
        → work_left (map core_of new.cores.items) new.joints.items
        < work_left (map core_of line.entry.cores.items) line.entry.joints.items) }
{
    let Line { cores, mut joints } = line;
    let mut turned = Vec::with_capacity(alloc, cores.len())?;
    for mut core in cores {
        turn_at(&mut core, &mut joints, turned.len());
        turned.push(core)?;
    }
    Ok(Line {
        cores: turned,
        joints,
    })
}

/// The rows of a run that is cut, what crosses its inner cuts, and how many events moved: by a core for each epoch, which
/// have their events in turn, from the first to the last, again and again, on this thread alone. Each link holds at most
/// `capacity` messages. Each core enters the gate as it begins. It gives up with NoMemory alone.
pub fn round_robin<G: Gate>(
    alloc: Global,
    gate: &G,
    checkpoints: &Checkpoints<'_>,
    query: &Query,
    cuts: Cuts,
    capacity: Capacity,
) -> Result<Collected, NoMemory>
    requires { AreAtBeginnings cuts checkpoints.now }
    ensures { IfOk result (IsCollectedOf query.now checkpoints.now.job cuts) }
{
    let new = lay_out(alloc, checkpoints, query, gate, cuts, capacity)?;
    let mut line = round(alloc, new)?;
    while !line.is_done() {
        line = round(alloc, line)?;
    }
    collect(alloc, line)
}
