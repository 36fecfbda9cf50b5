//! What both ends of a ring are made of.
ghost use Rattle.std.specs.Prelude.{◌≡◌, ◌<◌};
ghost use Rattle.std.specs.Arc.{arc_value};

use crate::capacity::Capacity;
use crate::ring_link::view::{RingSeat, RingTable};
use std::alloc::Global;
use std::sync::Arc;

// A seat at the table, and what its end keeps for itself.
#[derive(Drop)]
pub struct End<T: Drop> {
    pub table: Arc<RingTable<T>, Global>,
    pub seat: RingSeat<T>,
    pub capacity: Capacity,
    // How many items went through this end, modulo 2 ^ 64.
    pub count: u64,
    // The slot of the next item.
    pub slot: usize,
    pub refusals: u64,
    ghost seated: { seat.table_id ≡ (arc_value table).shared.table_id },
    ghost sized: { (seat.table_id.words ≡ 2) × (seat.table_id.slots ≡ capacity) × ((arc_value table).shared.key ≡ capacity) },
    ghost inside: { slot < capacity },
}

impl<T: Drop> End<T> {
    // An end through which nothing went.
    pub fn new(table: Arc<RingTable<T>, Global>, seat: RingSeat<T>, capacity: Capacity) -> End<T>
        requires seated { seat.table_id ≡ (arc_value table).shared.table_id }
        requires sized { (seat.table_id.words ≡ 2) × (seat.table_id.slots ≡ capacity)
            × ((arc_value table).shared.key ≡ capacity) }
        ensures { (result.seat ≡ seat) × (result.capacity ≡ capacity) × (result.count ≡ 0) × (result.slot ≡ 0)
            × (result.refusals ≡ 0) }
    {
        // The contract of this says that there is a slot.
        let _slots = capacity.get();
        End {
            table,
            seat,
            capacity,
            count: 0,
            slot: 0,
            refusals: 0,
        }
    }
}
