//! The end of a ring that pops.
ghost use Rattle.std.specs.Prelude.{◌≡◌, ◌≢◌, ◌+◌, [], ◌∷◌, length, true};
ghost use Rattle.epoch_link.specs.Link.{IsSameEnd, HasPassed, HasRefused, OnItem, IfItem, OnEmpty};
ghost use Rattle.epoch_link.specs.Words.{word_of};
ghost use Rattle.epoch_link.specs.Ends.{AtPop, consumer_end};

use crate::link::{Inlet, Popped};
use crate::ring_link::end::End;
use std::marker::Model;

/// The end of a ring that pops. It may move to another thread, and there is no other one.
#[derive(Drop)]
pub struct Consumer<T: Drop> {
    pub(crate) end: End<T>,
}

impl<T: Drop> Model for Consumer<T> {
    ghost use Rattle.std.specs.Prelude.{None};
    ghost use Rattle.epoch_link.specs.Ends.{Consuming, AtPop};

    ghost Value = { Consuming T };

    ghost view = { λ c. record {
      link = c.end.seat.table_id;
      capacity = c.end.capacity;
      got = c.end.seat.me.0.got;
      refusals = c.end.refusals;
      tail = c.end.seat.me.0.tail;
      looks = c.end.seat.me.0.pop_looks;
    } };

    ghost invariant = { λ c. AtPop c.end.seat.me c.end.capacity c.end.count c.end.slot None };
}

impl<T: Drop> Consumer<T> {
    /// Takes the next item, or answers Empty where the ring held none at this call's one look at the word tail.
    ///
    /// It waits for nothing, and takes no memory.
    pub fn pop(&mut self) -> Popped<T>
        ensures one_look { self.new.looks ≡ self.old.looks + 1 }
        ensures same { IsSameEnd (consumer_end self.old) (consumer_end self.new) }
        ensures item { IfItem result (λ x. HasPassed x (consumer_end self.old) (consumer_end self.new)) }
        ensures found { OnItem result (self.new.tail ≢ word_of (length self.old.got)) }
        ensures empty { OnEmpty result (self.new.tail ≡ word_of (length self.old.got)) }
        ensures refused { OnEmpty result (HasRefused (consumer_end self.old) (consumer_end self.new)) }
    {
        let tail = self.end.load_tail();
        if tail == self.end.count {
            self.end.refusals = self.end.refusals.saturating_add(1);
            return Popped::Empty;
        }
        Popped::Item(self.end.receive())
    }
}

impl<T: Drop> Inlet<T> for Consumer<T> {
    ghost use Rattle.epoch_link.specs.Ends.{consumer_end};

    ghost end = { consumer_end };

    fn pop(&mut self) -> Popped<T> {
        Consumer::pop(self)
    }
}
