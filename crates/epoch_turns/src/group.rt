//! A group of nodes.

ghost use Rattle.std.specs.Prelude.{◌≡◌, ◌≤◌, [], reverse, vec_len, vec_capacity};
ghost use Rattle.epoch_turns.specs.Groups.{AreOfOneJob};

use crate::answers::{after_both, together};
use epoch_node::Node;
use outer_io::Gate;
use run_board::{Numbered, Task, Turn};
use std::marker::Model;

/// Neighbouring nodes of one job, which get their turns from one worker, one after another. Contracts see its number,
/// and its nodes from the first to the last.
#[derive(Drop)]
pub struct Group<'a, G> {
    number: u32,
    // The nodes from the last to the first, so that the first is taken next.
    left: Vec<Node<'a, G>>,
    // Room for as many: empty between two turns.
    turned: Vec<Node<'a, G>>,
}

impl<'a, G> Model for Group<'a, G> {
    ghost use Rattle.std.specs.Prelude.{◌≡◌, ◌≤◌, [], reverse, vec_len, vec_capacity};
    ghost use Rattle.epoch_turns.specs.Groups.{GroupView, AreOfOneJob};

    ghost Value = { GroupView };

    ghost view = { λ g. record { number = g.number; nodes = reverse g.left.items } };

    ghost invariant = { λ g. (g.turned.items ≡ []) × (vec_len g.left ≤ vec_capacity g.turned)
        × AreOfOneJob g.left.items };
}

impl<'a, G> Group<'a, G> {
    /// A group of these nodes, of which the first is on top, with as much room in `turned`.
    pub(crate) fn new(
        number: u32,
        stack: Vec<Node<'a, G>>,
        turned: Vec<Node<'a, G>>,
    ) -> Group<'a, G>
        requires empty { turned.items ≡ [] }
        requires room { vec_len stack ≤ vec_capacity turned }
        requires one_job { AreOfOneJob stack.items }
        ensures { result ≡ record { number = number; nodes = reverse stack.entry.items } }
    {
        Group {
            number,
            left: stack,
            turned,
        }
    }

    /// Its nodes, of which the first is on top.
    pub(crate) fn into_stack(self) -> Vec<Node<'a, G>>
        ensures { reverse result.items ≡ self.entry.nodes }
    {
        let Group { left, .. } = self;
        left
    }
}

impl<'a, G: Gate> Numbered for Group<'a, G> {
    ghost use Rattle.epoch_turns.specs.Groups.{IsGroupLedFrom, IsGroupEnded};

    ghost words = { record {
      number = λ g. g.number;
      led_from = IsGroupLedFrom;
      ended = IsGroupEnded;
    } };

    fn number(&self) -> u32 {
        self.number
    }
}

impl<'a, G: Gate> Task for Group<'a, G> {
    ghost use Rattle.std.specs.Prelude.{◌≡◌};
    ghost use Rattle.run_board.specs.Turns.{AnswersEnded};
    ghost use Rattle.std.specs.List.{AllZip};
    ghost use Rattle.epoch_node.specs.Events.{WhenMoved, WhenNotYet};
    ghost use Rattle.epoch_turns.specs.Groups.{IsGroupLedFrom, IsGroupEnded, SomeMoved, HasRested};
    ghost use Rattle.epoch_turns.specs.Groups.{group_led_refl, group_led_trans};

    /// Each of its nodes has a turn, from the first to the last, and then one more, from the last to the first. On the
    /// way up a node hands its cursor on to the next, whose epoch begins where the cursor stands after an analysis. It
    /// is Moved only where some node moved, and NotYet only where nothing happened to any node that isn't done. The
    /// group itself takes no memory.
    fn turn(&mut self) -> Turn
        ensures led { IsGroupLedFrom self.new self.old }
        ensures number { self.new.number ≡ self.old.number }
        ensures done { AnswersEnded result (IsGroupEnded self.new) }
        ensures moved { WhenMoved result (SomeMoved self.new.nodes self.old.nodes) }
        ensures not_yet { WhenNotYet result (AllZip HasRested self.new.nodes self.old.nodes) }
    {
        let Group {
            number: _,
            left,
            turned,
        } = self;
        let mut up = Turn::Done;
        let mut cursor = None;
        while let Some(mut node) = left.pop() {
            node.hand_cursor(cursor);
            up = together(up, node.turn());
            cursor = node.take_cursor();
            turned.push_reserved(node);
        }
        let mut down = Turn::Done;
        while let Some(mut node) = turned.pop() {
            down = together(down, node.turn());
            left.push_reserved(node);
        }
        after_both(up, down)
    }

    ghost reflexive = { group_led_refl };

    ghost transitive = { group_led_trans };
}
