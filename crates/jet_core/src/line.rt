//! The cores of a run, and the links between them.

ghost use Rattle.std.specs.Prelude.{◌≡◌, IfOk, map, true, false};
ghost use Rattle.epoch_engine.specs.Collecting.{AreAtBeginnings};
ghost use Rattle.epoch_node.specs.Cores.{core_of};
ghost use Rattle.jet_core.specs.Lines.{IsLaidOut, AreDone};

use crate::joints::Joint;
use checkpoints::Checkpoints;
use epoch_cut::Cuts;
use epoch_link::Capacity;
use epoch_node::{Core, Phase};
use no_memory::NoMemory;
use query_lang::Query;
use std::alloc::Global;

/// The cores of a run in order, and the links before the first, between neighbours, and after the last.
#[derive(Drop)]
pub struct Line<'a, G> {
    pub cores: Vec<Core<'a, G>>,
    pub joints: Vec<Joint>,
}

/// A core for each epoch of a run that is cut, and new links between neighbours, each of which holds at most `capacity`
/// messages. It gives up with NoMemory alone.
pub(crate) fn lay_out<'a, G>(
    alloc: Global,
    checkpoints: &'a Checkpoints<'a>,
    query: &'a Query,
    gate: &'a G,
    cuts: Cuts,
    capacity: Capacity,
) -> Result<Line<'a, G>, NoMemory>
    requires { AreAtBeginnings cuts checkpoints.now }
    ensures { IfOk result (λ line.
        IsLaidOut
        (record { run = record { job = checkpoints.now.job; query = query.now; cuts = cuts }; capacity = capacity })
        (map core_of line.cores.items) line.joints.items) }
{
    // The contract of this says that the points are at locations.
    let _points = query.points();
    // And that of this, that a link holds something.
    let _items = capacity.get();
    let mut tickets = cuts.tickets(alloc)?;
    let Some(last) = tickets.pop() else {
        unreachable!()
    };
    let mut cores = Vec::new(alloc);
    let mut joints = Vec::new(alloc);
    joints.push(Joint::none())?;
    for ticket in tickets {
        let first = cores.is_empty();
        cores.push(Core::new(alloc, ticket, checkpoints, query, gate, first, false)?)?;
        joints.push(Joint::new(alloc, capacity)?)?;
    }
    let first = cores.is_empty();
    cores.push(Core::new(alloc, last, checkpoints, query, gate, first, true)?)?;
    joints.push(Joint::none())?;
    Ok(Line { cores, joints })
}

impl<'a, G> Line<'a, G> {
    /// Whether all cores are done.
    pub(crate) fn is_done(&self) -> bool
        ensures yes { result ≡ true → AreDone (map core_of self.now.cores.items) }
        ensures no { result ≡ false → ¬ AreDone (map core_of self.now.cores.items) }
    {
        for core in &self.cores {
            if core.phase() != Phase::Done {
                return false;
            }
        }
        true
    }
}
