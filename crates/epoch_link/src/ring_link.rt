//! A ring between two threads: one pushes and the other pops, and neither waits.
ghost use Rattle.std.specs.Prelude.{◌≡◌, IfOk};
ghost use Rattle.epoch_link.specs.Ends.{new_producer, new_consumer};

mod consumer;
mod end;
mod left;
mod plays;
mod producer;
mod steps;
mod view;

use crate::capacity::Capacity;
use crate::ring_link::end::End;
use crate::ring_link::plays::Parts;
use crate::ring_link::view::RingTable;
pub use consumer::Consumer;
pub use left::{Left, close};
use no_memory::NoMemory;
pub use producer::Producer;
use std::alloc::Global;
use std::sync::Arc;

/// The two ends of a new ring that holds at most `capacity` items.
///
/// All its room is taken when it is made, so the ends' calls take no memory.
pub fn ring<T: Drop>(
    alloc: Global,
    capacity: Capacity,
) -> Result<(Producer<T>, Consumer<T>), NoMemory>
    ensures producer { IfOk result (λ ends. ends.0 ≡ new_producer ends.0.link capacity) }
    ensures consumer { IfOk result (λ ends. ends.1 ≡ new_consumer ends.0.link capacity) }
{
    let slots = capacity.get();
    let (table, mut seat) = RingTable::vacant(alloc, &[0, 0], slots as usize, &(slots as u64))?;
    let other = table.shared.split_seat::<Parts>(&mut seat);
    let table = Arc::new(alloc, table)?;
    let shared = Arc::try_clone(&table)?;
    let producer = Producer {
        end: End::new(table, seat, capacity),
    };
    let consumer = Consumer {
        end: End::new(shared, other, capacity),
    };
    Ok((producer, consumer))
}
