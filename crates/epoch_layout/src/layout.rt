//! New nodes, joined by new links.

ghost use Rattle.std.specs.Prelude.{◌≡◌, IfOk, IfSome, is_none};
ghost use Rattle.epoch_engine.specs.Collecting.{AreAtBeginnings};
ghost use Rattle.epoch_node.specs.Cores.{CanStart};
ghost use Rattle.epoch_node.specs.Nodes.{new_node};
ghost use Rattle.epoch_layout.specs.Layouts.{ends_of, IsNewBefore, IsNewAfter, IsLayout};

use crate::ends::{After, Before, gather_ends, join_two};
use checkpoints::Checkpoints;
use epoch_cut::{Cuts, EpochTicket};
use epoch_link::Capacity;
use epoch_node::{Core, Node};
use no_memory::NoMemory;
use query_lang::Query;
use std::alloc::Global;

/// The new node of a ticket's epoch, with new ends of links. Where there are none, it has no neighbour. It gives up with
/// NoMemory alone.
fn make_node<'a, G>(
    alloc: Global,
    ticket: EpochTicket,
    checkpoints: &'a Checkpoints<'a>,
    query: &'a Query,
    gate: &'a G,
    before: Option<Before>,
    after: Option<After>,
) -> Result<Node<'a, G>, NoMemory>
    requires starts { CanStart checkpoints.now ticket }
    requires before { IfSome before IsNewBefore }
    requires after { IfSome after IsNewAfter }
    ensures { IfOk result (λ node.
        node ≡ new_node
        (record {
          points = checkpoints.now;
          query = query.now;
          epoch = ticket;
          first = is_none before;
          last = is_none after;
        }) (ends_of before after)) }
{
    let first = before.is_none();
    let last = after.is_none();
    let core = Core::new(alloc, ticket, checkpoints, query, gate, first, last)?;
    Ok(Node::new(core, gather_ends(before, after)))
}

/// A fresh node for each epoch of a run that is cut, in order, and two new links between neighbours, each of which holds at
/// most `capacity` messages. It gives up with NoMemory alone.
pub fn lay_out<'a, G>(
    alloc: Global,
    checkpoints: &'a Checkpoints<'a>,
    query: &'a Query,
    gate: &'a G,
    cuts: Cuts,
    capacity: Capacity,
) -> Result<Vec<Node<'a, G>>, NoMemory>
    requires { AreAtBeginnings cuts checkpoints.now }
    ensures { IfOk result (λ nodes.
        IsLayout capacity (record { job = checkpoints.now.job; query = query.now; cuts = cuts }) nodes.items) }
{
    // The contract of this says that the points are at locations.
    let _points = query.points();
    let mut tickets = cuts.tickets(alloc)?;
    let mut nodes = Vec::with_capacity(alloc, tickets.len())?;
    let Some(last) = tickets.pop() else {
        unreachable!()
    };
    let mut before = None;
    for ticket in tickets {
        let (after, next) = join_two(alloc, capacity)?;
        nodes.push(make_node(alloc, ticket, checkpoints, query, gate, before, Some(after))?)?;
        before = Some(next);
    }
    nodes.push(make_node(alloc, last, checkpoints, query, gate, before, None)?)?;
    Ok(nodes)
}
