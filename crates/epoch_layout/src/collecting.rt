//! What nodes that are done come to.

ghost use Rattle.std.specs.Prelude.{◌≡◌, All, IfOk, OnOk, drop, reverse};
ghost use Rattle.std.specs.List.{flat_map};
ghost use Rattle.epoch_engine.specs.Collecting.{IsCollectedOf};
ghost use Rattle.epoch_node.specs.Nodes.{IsDone};
ghost use Rattle.epoch_layout.specs.Layouts.{CutRun, IsRunOf};
ghost use Rattle.epoch_layout.specs.Lines.{IsOneLink, HasDelivered};
ghost use Rattle.epoch_layout.specs.Gathering.{HasNothing, HasTaken};

use epoch_engine::Collected;
use epoch_link::{Consumer, Producer, close};
use epoch_node::{Ends, Finished, Node};
use epoch_summary::Asked;
use flow_model::Message;
use no_memory::NoMemory;
use sink_collect::SinkSets;
use std::alloc::Global;
use std::mem;

/// Closes a link, if there is one.
fn close_link(producer: Option<Producer<Message>>, consumer: Option<Consumer<Message>>)
    requires { IsOneLink producer consumer }
    ensures { HasDelivered producer consumer }
{
    match (producer, consumer) {
        (Some(producer), Some(consumer)) => {
            let _left = close(producer, consumer);
        }
        _ => {}
    }
}

/// All sets, where those of the last node come first. It gives up with NoMemory alone.
fn in_order(alloc: Global, mut sets: Vec<SinkSets>) -> Result<SinkSets, NoMemory>
    ensures { IfOk result (λ all. all ≡ flat_map (λ rows. rows) (reverse sets.items)) }
{
    let mut all = SinkSets::from_vec(Vec::new(alloc));
    while let Some(next) = sets.pop() {
        all.append(next)?;
    }
    Ok(all)
}

/// The items from the last to the first, without the last.
fn back_to_front<T: Drop>(mut items: Vec<T>) -> Vec<T>
    ensures { result.items ≡ drop 1 (reverse items.items) }
{
    items.pop();
    items.reverse();
    items
}

/// What is gathered of nodes that are done, from the last to the first.
#[derive(Drop)]
pub struct Gathering {
    /// The rows of each node.
    pub sets: Vec<SinkSets>,
    /// What each asked.
    pub asked: Vec<Asked>,
    /// How many events of them moved, or 2^64 - 1 where they are more.
    pub events: u64,
    /// The end of the link through which the last of them asks the previous node.
    pub ask_out: Option<Producer<Message>>,
    /// The end of the link through which it gets the answers.
    pub answer_in: Option<Consumer<Message>>,
}

impl Gathering {
    /// Nothing, with room for so many nodes. It gives up with NoMemory alone.
    fn new(alloc: Global, count: usize) -> Result<Gathering, NoMemory>
        ensures { IfOk result HasNothing }
    {
        let sets = Vec::with_capacity(alloc, count)?;
        let asked = Vec::with_capacity(alloc, count)?;
        Ok(Gathering {
            sets,
            asked,
            events: 0,
            ask_out: None,
            answer_in: None,
        })
    }

    /// Takes in the node before those that were taken in, and closes the two links between them. It gives up with NoMemory
    /// alone, also where the node is broken.
    fn take<'a, G>(&mut self, node: Node<'a, G>) -> Result<(), NoMemory>
        requires done { IsDone node }
        requires ask { IsOneLink self.old.ask_out node.ends.ask_in }
        requires answer { IsOneLink node.ends.answer_out self.old.answer_in }
        ensures { OnOk result (HasTaken node.entry self.old self.new) }
    {
        let finished = node.finish()?;
        let Finished {
            number: _,
            sets: own,
            asked: requests,
            events: moved,
            ends,
        } = finished;
        self.close_links(ends);
        self.events = self.events.saturating_add(moved);
        let own = match own {
            Ok(own) => own,
            Err(broken) => return Err(NoMemory::from(broken)),
        };
        self.sets.push(own)?;
        self.asked.push(requests)?;
        Ok(())
    }

    /// Closes the two links between the nodes that were taken in and the node with these ends, and keeps its ends of the
    /// links to the previous node.
    fn close_links(&mut self, ends: Ends)
        requires ask { IsOneLink self.old.ask_out ends.ask_in }
        requires answer { IsOneLink ends.answer_out self.old.answer_in }
        ensures after { self.new ≡ record self.old { ask_out = ends.ask_out; answer_in = ends.answer_in } }
        ensures asks { HasDelivered self.old.ask_out ends.ask_in }
        ensures answers { HasDelivered ends.answer_out self.old.answer_in }
    {
        close_link(mem::replace(&mut self.ask_out, ends.ask_out), ends.ask_in);
        close_link(
            ends.answer_out,
            mem::replace(&mut self.answer_in, ends.answer_in),
        );
    }
}

/// The rows of a run, what its nodes asked, and how many of their events moved, of nodes that are done, and led one by one
/// from those of one layout. It closes their links. It gives up with NoMemory alone, also where a node is broken.
pub fn collect<'a, G>(alloc: Global, mut nodes: Vec<Node<'a, G>>) -> Result<Collected, NoMemory>
    requires done { All IsDone nodes.items }
    requires led { (run : CutRun) × IsRunOf run nodes.items }
    ensures { (run : CutRun) → IsRunOf run nodes.entry.items
        → IfOk result (IsCollectedOf run.query run.job run.cuts) }
{
    let mut gathering = Gathering::new(alloc, nodes.len())?;
    while let Some(node) = nodes.pop() {
        gathering.take(node)?;
    }
    let Gathering {
        sets,
        asked,
        events,
        ..
    } = gathering;
    let sets = in_order(alloc, sets)?;
    // The first node asks nothing.
    let crossed = back_to_front(asked);
    Ok(Collected {
        sets,
        crossed,
        events,
    })
}
