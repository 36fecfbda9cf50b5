//! Both ends of a link on one thread.
ghost use Rattle.std.specs.Prelude.{◌≡◌, ◌<◌, ◌≤◌, [], ◌∷◌, ◌++◌, length, false, true, IfOk};
ghost use Rattle.std.specs.VecDeque.{deque_capacity};
ghost use Rattle.epoch_link.specs.Capacity.{IsCapacity};
ghost use Rattle.epoch_link.specs.Link.{OnDone, OnFull, IfFull, OnItem, IfItem, OnEmpty, Rose, Delivered};
ghost use Rattle.epoch_link.specs.ListLink.{history, new_link, held_count};

use crate::capacity::Capacity;
use crate::link::{Inlet, Outlet, Popped, Pushed};
use atomic_table::{Play, Seat, Table, TableRule};
use no_memory::NoMemory;
use std::alloc::Global;
use std::collections::{LinkedList, VecDeque};
use std::marker::{Brand, Model, PhantomData};
use std::slice;

// All that was sent and got, which the one seat knows. No value of it is made.
pub struct History<T> {
    pub sent: LinkedList<T>,
    pub got: LinkedList<T>,
}

// The rule of the table, which allows every view.
pub struct AnyView;

impl<T> TableRule<(), History<T>, ()> for AnyView {
    ghost use Rattle.std.specs.Prelude.{[]};

    ghost holds = { λ _ _. Unit {0} };

    ghost first = { λ _. record { sent = []; got = [] } };
}

// Names the items that go through at one call.
pub trait Moves<T> {
    ghost use Rattle.std.specs.Prelude.{List};

    ghost sent: { List T };

    ghost got: { List T };
}

impl<T> Moves<T> for Brand {
    ghost use Rattle.std.specs.Prelude.{[]};

    ghost sent = { [] };

    ghost got = { [] };
}

// A load at which the view gains these items.
pub struct Note<B> {
    marker: PhantomData<B>,
}

impl<T, B: Moves<T>> Play<(), History<T>> for Note<B> {
    ghost use Rattle.epoch_link.specs.ListLink.{Gains};

    ghost then = { Gains B.sent B.got };
}

type ListTable<T> = Table<(), History<T>, (), AnyView, Global>;

type ListSeat<T> = Seat<(), History<T>>;

// The one load of a call, at which the view gains these items. The proof alone reads the slices.
fn look<T, B: Moves<T>>(table: &ListTable<T>, seat: &mut ListSeat<T>, sent: &[T], got: &[T])
    requires seat { (seat.old.table_id ≡ table.now.shared.table_id) × (table.now.shared.table_id.words ≡ 1) }
    requires items { (B.sent ≡ sent.now) × (B.got ≡ got.now) }
    ensures same { seat.new.table_id ≡ seat.old.table_id }
    ensures view { seat.new.me.0 ≡ history (seat.old.me.0.sent ++ sent.now) (seat.old.me.0.got ++ got.now) }
{
    let _ = sent;
    let _ = got;
    table.shared.load::<Note<B>>(seat, 0);
}

/// A link within one thread: an outlet and an inlet in one value.
///
/// All its room is reserved when it is made, so its calls take no memory.
#[derive(Drop)]
pub struct ListLink<T> {
    table: ListTable<T>,
    seat: ListSeat<T>,
    items: VecDeque<T>,
    capacity: Capacity,
    push_refusals: u64,
    pop_refusals: u64,
}

impl<T> Model for ListLink<T> {
    ghost use Rattle.std.specs.VecDeque.{deque_capacity};
    ghost use Rattle.epoch_link.specs.ListLink.{BothEnds, Keeps};

    ghost Value = { BothEnds T };

    ghost view = { λ l. record {
      link = l.seat.table_id;
      capacity = l.capacity;
      sent = l.seat.me.0.sent;
      got = l.seat.me.0.got;
      push_refusals = l.push_refusals;
      pop_refusals = l.pop_refusals;
    } };

    ghost invariant = { λ l. Keeps l.table.shared.table_id l.seat.table_id l.seat.me.0 l.items.items l.capacity (deque_capacity l.items) };
}

impl<T: Drop> ListLink<T> {
    /// A new link that holds at most `capacity` items.
    pub fn new(alloc: Global, capacity: Capacity) -> Result<ListLink<T>, NoMemory>
        ensures { IfOk result (λ l. l ≡ new_link l.link capacity) }
    {
        let items = VecDeque::with_capacity(alloc, capacity.get() as usize)?;
        let (table, seat) = Table::of_words(alloc, &[0], &())?;
        Ok(ListLink {
            table,
            seat,
            items,
            capacity,
            push_refusals: 0,
            pop_refusals: 0,
        })
    }
}

impl<T> ListLink<T> {
    /// What is true of each link, which code over the traits may need: it does nothing.
    ///
    /// What was got is a prefix of what was sent, and the link holds the rest, which is at most its capacity.
    pub fn form(&self)
        ensures delivered { Delivered self.now.sent self.now.got self.now.capacity }
        ensures capacity { IsCapacity self.now.capacity }
    {
        let _ = self.capacity.get();
    }

    /// Sends the item, or hands it back exactly where the link holds as many items as its capacity.
    pub fn push(&mut self, item: T) -> Pushed<T>
        ensures done { OnDone result
            ((held_count self.old < self.old.capacity)
            × (self.new ≡ record self.old { sent = self.old.sent ++ item ∷ [] })) }
        ensures full { OnFull result
            ((held_count self.old ≡ self.old.capacity)
            × (self.new ≡ record self.old { push_refusals = self.new.push_refusals })) }
        ensures back { IfFull result (λ back. back ≡ item) }
        ensures later { self.old.push_refusals ≤ self.new.push_refusals }
        ensures counted { OnFull result (Rose self.old.push_refusals self.new.push_refusals) }
        ensures delivered { Delivered self.new.sent self.new.got self.new.capacity }
    {
        if self.items.len() == self.capacity.get() as usize {
            look::<T, Brand>(&self.table, &mut self.seat, &[], &[]);
            self.push_refusals = self.push_refusals.saturating_add(1);
            return Pushed::Full(item);
        }
        look::<T, Brand>(&self.table, &mut self.seat, slice::from_ref(&item), &[]);
        self.items.push_back_reserved(item);
        Pushed::Done
    }

    /// Takes the item that was sent first, or answers Empty exactly where the link holds none.
    pub fn pop(&mut self) -> Popped<T>
        ensures item { IfItem result (λ x.
            (0 < held_count self.old) × (self.new ≡ record self.old { got = self.old.got ++ x ∷ [] })) }
        ensures empty { OnEmpty result
            ((held_count self.old ≡ 0) × (self.new ≡ record self.old { pop_refusals = self.new.pop_refusals })) }
        ensures later { self.old.pop_refusals ≤ self.new.pop_refusals }
        ensures counted { OnEmpty result (Rose self.old.pop_refusals self.new.pop_refusals) }
        ensures delivered { Delivered self.new.sent self.new.got self.new.capacity }
    {
        match self.items.pop_front() {
            Some(item) => {
                look::<T, Brand>(&self.table, &mut self.seat, &[], slice::from_ref(&item));
                Popped::Item(item)
            }
            None => {
                look::<T, Brand>(&self.table, &mut self.seat, &[], &[]);
                self.pop_refusals = self.pop_refusals.saturating_add(1);
                Popped::Empty
            }
        }
    }
}

impl<T> Outlet<T> for ListLink<T> {
    ghost use Rattle.epoch_link.specs.ListLink.{outlet_end};

    ghost end = { outlet_end };

    fn push(&mut self, item: T) -> Pushed<T> {
        ListLink::push(self, item)
    }
}

impl<T> Inlet<T> for ListLink<T> {
    ghost use Rattle.epoch_link.specs.ListLink.{inlet_end};

    ghost end = { inlet_end };

    fn pop(&mut self) -> Popped<T> {
        ListLink::pop(self)
    }
}
