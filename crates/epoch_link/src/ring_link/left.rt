//! What is left in a ring when both its ends are closed.
ghost use Rattle.std.specs.Prelude.{◌≡◌, ◌≤◌, [], ◌∷◌, ◌++◌, length, IfNone, IfSome};
ghost use Rattle.epoch_link.specs.Ends.{AtRest};

use crate::ring_link::consumer::Consumer;
use crate::ring_link::end::End;
use crate::ring_link::producer::Producer;
use std::marker::Model;

/// The items that were sent and not got, in order.
#[derive(Drop)]
pub struct Left<T: Drop> {
    end: End<T>,
    has_next: bool,
}

impl<T: Drop> Model for Left<T> {
    ghost use Rattle.std.specs.Prelude.{List};
    ghost use Rattle.epoch_link.specs.Ends.{AtRest, left_of};

    ghost Value = { List T };

    ghost view = { λ l. left_of l.end.seat.me.0 };

    ghost invariant = { λ l. AtRest l.end.seat.me l.end.capacity l.end.count l.end.slot l.has_next };
}

/// Closes a link: what was sent is what was got, and then what is left. It takes no memory.
pub fn close<T: Drop>(producer: Producer<T>, consumer: Consumer<T>) -> Left<T>
    requires { producer.link ≡ consumer.link }
    ensures rest { producer.sent ≡ consumer.got ++ result }
    ensures fits { length result ≤ producer.capacity }
{
    let mut end = consumer.end.join(producer.end);
    let has_next = end.load_tail() != end.count;
    Left { end, has_next }
}

impl<T: Drop> Left<T> {
    /// Takes the first item of what is left, out of the table that the ends shared.
    pub fn next(&mut self) -> Option<T>
        ensures none { IfNone result ((self.old ≡ []) × (self.new ≡ [])) }
        ensures first { IfSome result (λ x. self.old ≡ x ∷ self.new) }
    {
        if !self.has_next {
            return None;
        }
        let item = self.end.receive();
        self.has_next = self.end.load_tail() != self.end.count;
        Some(item)
    }
}
