//! The ends of links, by neighbour.

ghost use Rattle.std.specs.Prelude.{◌≡◌, IfOk};
ghost use Rattle.epoch_layout.specs.Layouts.{Links, before_end, after_end, ends_of};

use epoch_link::{Capacity, Consumer, Producer, ring};
use epoch_node::Ends;
use flow_model::Message;
use no_memory::NoMemory;
use std::alloc::Global;

/// A node's ends of the two links to the previous node.
#[derive(Drop)]
pub struct Before {
    pub ask_out: Producer<Message>,
    pub answer_in: Consumer<Message>,
}

/// A node's ends of the two links to the next node.
#[derive(Drop)]
pub struct After {
    pub ask_in: Consumer<Message>,
    pub answer_out: Producer<Message>,
}

/// The ends of two new links between neighbours: those of the previous node, and of the next one. It gives up with
/// NoMemory alone.
pub(crate) fn join_two(alloc: Global, capacity: Capacity) -> Result<(After, Before), NoMemory>
    ensures { IfOk result (λ ends.
        (links : Links) × (ends.0 ≡ after_end capacity links) × (ends.1 ≡ before_end capacity links)) }
{
    let (ask_out, ask_in) = ring(alloc, capacity)?;
    let (answer_out, answer_in) = ring(alloc, capacity)?;
    Ok((After { ask_in, answer_out }, Before { ask_out, answer_in }))
}

/// The four ends of a node.
pub(crate) fn gather_ends(before: Option<Before>, after: Option<After>) -> Ends
    ensures { result ≡ ends_of before after }
{
    let (ask_out, answer_in) = match before {
        Some(Before { ask_out, answer_in }) => (Some(ask_out), Some(answer_in)),
        None => (None, None),
    };
    let (ask_in, answer_out) = match after {
        Some(After { ask_in, answer_out }) => (Some(ask_in), Some(answer_out)),
        None => (None, None),
    };
    Ends {
        ask_in,
        ask_out,
        answer_in,
        answer_out,
    }
}
