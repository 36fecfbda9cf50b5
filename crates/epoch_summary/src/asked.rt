//! What one epoch asks of the one before it.

ghost use Rattle.std.specs.Prelude.{◌≡◌, ◌<◌, [], length, slice_get, Some, is_some, IfOk, IfSome, OnOk, OnErr};
ghost use Rattle.std.specs.List.{IsDistinct};
ghost use Rattle.std.specs.Ordering.{eq_by_cmp};
ghost use Rattle.flow_model.specs.Orders.{loc_cmp};
ghost use Rattle.lists.specs.Sets.{has};
ghost use Rattle.epoch_model.specs.Crossing.{added};

use crate::place_table::{PlaceTable, number_of};
use flow_model::Loc;
use no_memory::NoMemory;
use std::alloc::Global;
use std::marker::Model;

/// Locations that an epoch asks the one before it for, each once, in the order of asking.
///
/// Contracts see it as the list of them.
#[derive(Drop)]
pub struct Asked {
    locations: Vec<Loc>,
    table: PlaceTable,
}

impl Model for Asked {
    ghost use Rattle.std.specs.Prelude.{List};
    ghost use Rattle.std.specs.List.{IsDistinct};
    ghost use Rattle.std.specs.Ordering.{eq_by_cmp};
    ghost use Rattle.flow_model.specs.declared.Loc.{Loc};
    ghost use Rattle.flow_model.specs.Orders.{loc_cmp};
    ghost use Rattle.epoch_summary.specs.Placed.{ArePlaced};

    ghost Value = { List Loc };

    ghost view = { λ asked. asked.locations.items };

    ghost invariant = { λ asked. IsDistinct (eq_by_cmp loc_cmp) asked.locations.items
        × ArePlaced asked.locations.items asked.table };
}

impl Asked {
    /// Nothing is asked. It takes no memory.
    pub fn new(alloc: Global) -> Self
        ensures { result ≡ [] }
    {
        Asked {
            locations: Vec::new(alloc),
            table: PlaceTable::new(alloc),
        }
    }

    /// Nothing is asked, and there is room for so many locations. It gives up with NoMemory alone.
    pub fn with_room(alloc: Global, count: usize) -> Result<Asked, NoMemory>
        ensures { IfOk result (λ asked. asked ≡ []) }
    {
        let locations = Vec::with_capacity(alloc, count)?;
        let table = PlaceTable::with_room(alloc, count)?;
        Ok(Asked { locations, table })
    }

    /// What is true of all that is asked: each location is asked once.
    pub fn form(&self)
        ensures { IsDistinct (eq_by_cmp loc_cmp) self.now }
    {
        // what is known of the field is known from its first use on
        let _locations = self.locations.len();
    }

    /// How many locations are asked.
    pub fn count(&self) -> usize
        ensures { result ≡ length self.now }
    {
        self.locations.len()
    }

    /// The location at a place, counted from 0.
    pub fn get(&self, place: usize) -> Loc
        requires { place < length self.now }
        ensures { slice_get self.now place ≡ Some result }
    {
        self.locations[place]
    }

    /// All locations that are asked, in the order of asking.
    pub fn locations(&self) -> &[Loc]
        ensures { result.now ≡ self.now }
    {
        self.locations.as_slice()
    }

    /// The place of a location, if it is asked.
    pub fn place_of(&self, loc: Loc) -> Option<usize>
        ensures asked { is_some result ≡ has loc_cmp loc self.now }
        ensures place { IfSome result (λ place. slice_get self.now place ≡ Some loc) }
    {
        match self.table.value(number_of(loc)) {
            0 => None,
            past => Some(past - 1),
        }
    }

    /// The same as [`Asked::place_of`], for a location that most likely stands at this place: it is looked at first. Any
    /// number may be given.
    #[inline(always)]
    pub fn place_near(&self, loc: Loc, place: usize) -> Option<usize>
        ensures asked { is_some result ≡ has loc_cmp loc self.now }
        ensures place { IfSome result (λ place. slice_get self.now place ≡ Some loc) }
    {
        match loc {
            Loc::Mem { place: byte } => self.find_near(Loc::Mem { place: byte }, place),
            Loc::Reg { .. } => self.find_lane_near(loc, place),
        }
    }

    /// The same for a lane of a register, of which there are few.
    #[inline(never)]
    fn find_lane_near(&self, loc: Loc, place: usize) -> Option<usize>
        ensures asked { is_some result ≡ has loc_cmp loc self.now }
        ensures place { IfSome result (λ place. slice_get self.now place ≡ Some loc) }
    {
        self.find_near(loc, place)
    }

    /// The same for any location.
    #[inline(always)]
    fn find_near(&self, loc: Loc, place: usize) -> Option<usize>
        ensures asked { is_some result ≡ has loc_cmp loc self.now }
        ensures place { IfSome result (λ place. slice_get self.now place ≡ Some loc) }
    {
        if place < self.locations.len() && self.locations[place] == loc {
            return Some(place);
        }
        self.place_of(loc)
    }

    /// Asks for a location too, unless it is asked already. It gives the location's place, counted from 0. When out of
    /// memory nothing changes.
    #[inline(always)]
    pub fn add(&mut self, loc: Loc) -> Result<usize, NoMemory>
        ensures added { OnOk result (self.new ≡ added self.old loc) }
        ensures place { IfOk result (λ place. slice_get self.new place ≡ Some loc) }
        ensures err { OnErr result (self.new ≡ self.old) }
    {
        match loc {
            Loc::Mem { place } => self.put(Loc::Mem { place }),
            Loc::Reg { .. } => self.put_lane(loc),
        }
    }

    /// The same for a lane of a register, of which there are few.
    #[inline(never)]
    fn put_lane(&mut self, loc: Loc) -> Result<usize, NoMemory>
        ensures added { OnOk result (self.new ≡ added self.old loc) }
        ensures place { IfOk result (λ place. slice_get self.new place ≡ Some loc) }
        ensures err { OnErr result (self.new ≡ self.old) }
    {
        self.put(loc)
    }

    /// The same for any location.
    #[inline(always)]
    fn put(&mut self, loc: Loc) -> Result<usize, NoMemory>
        ensures added { OnOk result (self.new ≡ added self.old loc) }
        ensures place { IfOk result (λ place. slice_get self.new place ≡ Some loc) }
        ensures err { OnErr result (self.new ≡ self.old) }
    {
        let slot = self.table.find(number_of(loc))?;
        let past = self.table.get(slot);
        if past > 0 {
            return Ok(past - 1);
        }
        let place = self.locations.len();
        self.locations.push(loc)?;
        let count = self.locations.len();
        self.table.set(slot, count);
        Ok(place)
    }
}
