//! What a node does by itself, as a task of the board.

ghost use Rattle.std.specs.Prelude.{◌≡◌};

use epoch_node::{Node, Phase};
use outer_io::Gate;
use run_board::{Numbered, Task, Turn};
use std::marker::Model;

/// A node by itself, which takes one turn: its epoch is analysed, unless it has begun, or its rows are made, once it is
/// done. Contracts see the node.
#[derive(Drop)]
pub struct OwnWork<'a, G> {
    node: Node<'a, G>,
}

impl<'a, G> Model for OwnWork<'a, G> {
    ghost use Rattle.epoch_node.specs.Nodes.{NodeView};

    ghost Value = { NodeView };

    ghost view = { λ w. w.node };
}

impl<'a, G> OwnWork<'a, G> {
    /// This node's own work.
    pub(crate) fn new(node: Node<'a, G>) -> OwnWork<'a, G>
        ensures { result ≡ node.entry }
    {
        OwnWork { node }
    }

    /// The node.
    pub(crate) fn into_node(self) -> Node<'a, G>
        ensures { result ≡ self.entry }
    {
        let OwnWork { node } = self;
        node
    }
}

impl<'a, G: Gate> Numbered for OwnWork<'a, G> {
    ghost use Rattle.epoch_node.specs.Nodes.{IsLedFrom, HasBegun};
    ghost use Rattle.epoch_turns.specs.Groups.{number_of};

    ghost words = { record {
      number = number_of;
      led_from = IsLedFrom;
      ended = HasBegun;
    } };

    fn number(&self) -> u32 {
        self.node.number()
    }
}

impl<'a, G: Gate> Task for OwnWork<'a, G> {
    ghost use Rattle.std.specs.Prelude.{◌≡◌};
    ghost use Rattle.run_board.specs.Turns.{AnswersEnded};
    ghost use Rattle.epoch_node.specs.Nodes.{IsLedFrom, HasBegun, led_refl, led_trans};
    ghost use Rattle.epoch_turns.specs.Groups.{number_of};

    /// The node begins: it enters the gate, and its epoch is analysed. One that has begun does not; if it is done, its rows
    /// are made.
    fn turn(&mut self) -> Turn
        ensures led { IsLedFrom self.new self.old }
        ensures number { number_of self.new ≡ number_of self.old }
        ensures done { AnswersEnded result (HasBegun self.new) }
    {
        if self.node.phase() == Phase::Fresh {
            self.node.gate().enter(self.node.number());
        }
        self.node.begin();
        self.node.make_rows();
        Turn::Done
    }

    ghost reflexive = { led_refl };

    ghost transitive = { led_trans };
}
