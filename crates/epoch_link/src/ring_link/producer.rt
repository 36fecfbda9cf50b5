//! The end of a ring that pushes.
ghost use Rattle.std.specs.Prelude.{◌≡◌, ◌≢◌, ◌+◌, [], ◌∷◌, length, true, false};
ghost use Rattle.epoch_link.specs.Link.{IsSameEnd, HasPassed, HasRefused, OnDone, OnFull, IfFull};
ghost use Rattle.epoch_link.specs.Words.{word_of, distance};
ghost use Rattle.epoch_link.specs.Ends.{AtPush, producer_end};

use crate::link::{Outlet, Pushed};
use crate::ring_link::end::End;
use std::marker::Model;

/// The end of a ring that pushes. It may move to another thread, and there is no other one.
#[derive(Drop)]
pub struct Producer<T: Drop> {
    pub(crate) end: End<T>,
}

impl<T: Drop> Model for Producer<T> {
    ghost use Rattle.std.specs.Prelude.{false};
    ghost use Rattle.epoch_link.specs.Ends.{Producing, AtPush};

    ghost Value = { Producing T };

    ghost view = { λ p. record {
      link = p.end.seat.table_id;
      capacity = p.end.capacity;
      sent = p.end.seat.me.0.sent;
      refusals = p.end.refusals;
      head = p.end.seat.me.0.head;
      looks = p.end.seat.me.0.push_looks;
    } };

    ghost invariant = { λ p. AtPush p.end.seat.me p.end.capacity p.end.count p.end.slot false };
}

impl<T: Drop> Producer<T> {
    /// Sends the item, or hands it back where the ring was full at this call's one look at the word head.
    ///
    /// It waits for nothing, and takes no memory.
    pub fn push(&mut self, item: T) -> Pushed<T>
        ensures one_look { self.new.looks ≡ self.old.looks + 1 }
        ensures same { IsSameEnd (producer_end self.old) (producer_end self.new) }
        ensures done { OnDone result (HasPassed item (producer_end self.old) (producer_end self.new)) }
        ensures room { OnDone result (distance (word_of (length self.old.sent)) self.new.head ≢ self.old.capacity) }
        ensures full { OnFull result (distance (word_of (length self.old.sent)) self.new.head ≡ self.old.capacity) }
        ensures refused { OnFull result (HasRefused (producer_end self.old) (producer_end self.new)) }
        ensures back { IfFull result (λ back. back ≡ item) }
    {
        let head = self.end.load_head();
        if self.end.count.wrapping_sub(head) == self.end.capacity.get() as u64 {
            self.end.refusals = self.end.refusals.saturating_add(1);
            return Pushed::Full(item);
        }
        self.end.send(item);
        Pushed::Done
    }
}

impl<T: Drop> Outlet<T> for Producer<T> {
    ghost use Rattle.epoch_link.specs.Ends.{producer_end};

    ghost end = { producer_end };

    fn push(&mut self, item: T) -> Pushed<T> {
        Producer::push(self, item)
    }
}
