//! The steps of the two ends on their table.
ghost use Rattle.std.specs.Prelude.{◌≡◌, ◌≢◌, ◌+◌, ◌%◌, [], ◌∷◌, ◌++◌, Some, None, true, false};
ghost use Rattle.epoch_link.specs.Words.{word_of, distance};
ghost use Rattle.epoch_link.specs.Ring.{seen_head, seen_tail, Remains, joined};
ghost use Rattle.epoch_link.specs.Ends.{AtPush, AtPop};
ghost use Rattle.epoch_link.specs.Kept.{IsSameEnd, IsSamePlace};

use crate::ring_link::end::End;
use crate::ring_link::plays::{LoadHead, LoadTail, Parts, StoreHead, StoreTail};
use crate::ring_link::view::{HEAD, TAIL};

impl<T: Drop> End<T> {
    // The producer's look at the head. It takes the next slot, unless the ring is full.
    pub fn load_head(&mut self) -> u64
        requires { AtPush self.old.seat.me self.old.capacity self.old.count self.old.slot false }
        ensures full { distance self.old.count result ≡ self.old.capacity
            → self.new.seat.me ≡ (seen_head self.old.seat.me.0 result false, []) }
        ensures room { distance self.old.count result ≢ self.old.capacity
            → self.new.seat.me ≡ (seen_head self.old.seat.me.0 result true, (self.old.slot, None) ∷ []) }
        ensures same { IsSameEnd self.old self.new }
        ensures place { IsSamePlace self.old self.new }
    {
        self.table.shared.load::<LoadHead>(&mut self.seat, HEAD)
    }

    // The consumer's look at the tail. It takes the next slot, unless the ring is empty.
    pub fn load_tail(&mut self) -> u64
        requires { AtPop self.old.seat.me self.old.capacity self.old.count self.old.slot None }
        ensures empty { result ≡ self.old.count → self.new.seat.me ≡ (seen_tail self.old.seat.me.0 result None, []) }
        ensures found { result ≢ self.old.count
            → (x : T) ×
            (self.new.seat.me ≡ (seen_tail self.old.seat.me.0 result (Some x), (self.old.slot, Some x) ∷ [])) }
        ensures remains { self.old.seat.me.0.produces ≡ true
            → Remains self.old.capacity self.old.seat.me.0 self.new.seat.me.0.next }
        ensures same { IsSameEnd self.old self.new }
        ensures place { IsSamePlace self.old self.new }
    {
        self.table.shared.load::<LoadTail>(&mut self.seat, TAIL)
    }

    // Moves on to the next item.
    fn advance(&mut self)
        ensures count { self.new.count ≡ word_of (self.old.count + 1) }
        ensures slot { self.new.slot ≡ (self.old.slot + 1) % self.old.capacity }
        ensures same { (self.new.seat ≡ self.old.seat) × (self.new.table ≡ self.old.table)
            × (self.new.capacity ≡ self.old.capacity) × (self.new.refusals ≡ self.old.refusals) }
    {
        self.count = self.count.wrapping_add(1);
        self.slot = if self.slot + 1 == self.capacity.get() as usize {
            0
        } else {
            self.slot + 1
        };
    }

    // The producer puts the item into the slot that it has out, and stores the tail.
    pub fn send(&mut self, item: T)
        requires { AtPush self.old.seat.me self.old.capacity self.old.count self.old.slot true }
        ensures sent { self.new.seat.me
            ≡ (record self.old.seat.me.0 { sent = self.old.seat.me.0.sent ++ item ∷ []; lends = false }, []) }
        ensures ready { AtPush self.new.seat.me self.new.capacity self.new.count self.new.slot false }
        ensures same { IsSameEnd self.old self.new }
    {
        let shared = &self.table.shared;
        shared.exchange(&mut self.seat, self.slot, Some(item));
        self.advance();
        let shared = &self.table.shared;
        shared.store::<StoreTail>(&mut self.seat, TAIL, self.count);
    }

    // The consumer takes the item out of the slot that it has out, and stores the head.
    pub fn receive(&mut self) -> T
        requires { (x : T) × AtPop self.old.seat.me self.old.capacity self.old.count self.old.slot (Some x) }
        ensures item { self.old.seat.me.0.next ≡ Some result }
        ensures got { self.new.seat.me
            ≡ (record self.old.seat.me.0 { got = self.old.seat.me.0.got ++ result ∷ []; next = None }, []) }
        ensures ready { AtPop self.new.seat.me self.new.capacity self.new.count self.new.slot None }
        ensures same { IsSameEnd self.old self.new }
    {
        let shared = &self.table.shared;
        let Some(item) = shared.exchange(&mut self.seat, self.slot, None) else {
            unreachable!();
        };
        self.advance();
        let shared = &self.table.shared;
        shared.store::<StoreHead>(&mut self.seat, HEAD, self.count);
        item
    }

    // The consumer's end, which takes in the producer's part.
    pub fn join(self, sending: End<T>) -> End<T>
        requires link { sending.seat.table_id ≡ self.seat.table_id }
        requires sending { AtPush sending.seat.me sending.capacity sending.count sending.slot false }
        requires receiving { AtPop self.seat.me self.capacity self.count self.slot None }
        ensures view { result.seat.me.0 ≡ joined sending.seat.me.0 self.seat.me.0 }
        ensures ready { AtPop result.seat.me result.capacity result.count result.slot None }
        ensures same { (result.seat.table_id ≡ self.seat.table_id) × (result.capacity ≡ self.capacity) }
    {
        let End {
            table,
            seat: receiving,
            capacity,
            count,
            slot,
            refusals,
        } = self;
        let mut seat = sending.seat;
        table.shared.join_seat::<Parts>(&mut seat, receiving);
        End {
            table,
            seat,
            capacity,
            count,
            slot,
            refusals,
        }
    }
}
