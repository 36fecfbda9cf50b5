//! What the two ends of a ring share, and what each knows.
use atomic_table::{Seat, Table, TableRule};
use std::alloc::Global;
use std::collections::LinkedList;

// The words of the table: how many items were sent, and how many were got, modulo 2 ^ 64.
pub const TAIL: usize = 0;

pub const HEAD: usize = 1;

// What a seat knows. The producer's part is `sent`, `head`, `push_looks` and `lends`, the consumer's is
// `got`, `tail`, `pop_looks` and `next`. No value of it is made.
pub struct View<T> {
    pub produces: bool,
    pub consumes: bool,
    pub sent: LinkedList<T>,
    pub got: LinkedList<T>,
    // The last head seen, and the number of looks at it.
    pub head: u64,
    pub push_looks: u64,
    // The last tail seen, and the number of looks at it.
    pub tail: u64,
    pub pop_looks: u64,
    // Whether the producer has a slot out.
    pub lends: bool,
    // The item in the slot that the consumer has out.
    pub next: Option<T>,
}

pub struct InOrder;

// The key is the number of slots.
impl<T> TableRule<Option<T>, View<T>, u64> for InOrder {
    ghost use Rattle.epoch_link.specs.Ring.{Ring, opening_view};

    ghost holds = { Ring };

    ghost first = { λ _. opening_view };
}

pub type RingTable<T> = Table<Option<T>, View<T>, u64, InOrder, Global>;

pub type RingSeat<T> = Seat<Option<T>, View<T>>;
