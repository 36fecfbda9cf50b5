//! Where the source byte is.

ghost use Rattle.std.specs.Prelude.{◌≡◌, ◌<◌, ◌≤◌, ◌+◌, ℕ, length, IfOk, OnOk, IsTrue};
ghost use Rattle.isa.specs.Machine.{wrap};
ghost use Rattle.flow_model.specs.declared.Loc.{Loc as Location};
ghost use Rattle.flow_model.specs.declared.Loc.TheVariants.{Reg, Mem};
ghost use Rattle.flow_model.specs.Ranges.{IsLocation, AreLocations};
ghost use Rattle.path_find.specs.declared.nodes.Label.TheVariants.{Nothing};

use crate::nodes::Label;
use flow_model::Loc;
use no_memory::NoMemory;
use std::alloc::Global;
use std::collections::HashMap;

/// The lanes of a register.
const LANES: usize = 4;

/// The lanes of the 32 registers.
const ALL_LANES: usize = 128;

/// A label for each lane of the 32 registers, and for those bytes of memory that have the source byte.
#[derive(Drop)]
pub(crate) struct Carriers {
    registers: Vec<Label>,
    memory: HashMap<u32, Label>,
    ghost lanes: { length registers.items ≡ 128 },
}

impl Carriers {
    ghost use Rattle.path_find.specs.Carriers.{kept, first_label, IsSet, HasNothing};

    /// Nothing is anywhere.
    pub(crate) fn new(alloc: Global) -> Result<Self, NoMemory>
        ensures { IfOk result (λ c. (l : Location) → IsLocation l → kept c l ≡ Nothing) }
    {
        let mut registers = Vec::with_capacity(alloc, ALL_LANES)?;
        for _ in 0..ALL_LANES {
            registers.push(Label::Nothing)?;
        }
        Ok(Carriers {
            registers,
            memory: HashMap::new(alloc),
        })
    }

    /// The label of a location.
    #[inline(always)]
    pub(crate) fn get(&self, loc: Loc) -> Label
        requires { IsLocation loc }
        ensures { result ≡ kept self.now loc }
    {
        match loc {
            Loc::Reg { number, lane } => self.registers[LANES * number as usize + lane as usize],
            Loc::Mem { place } => match self.memory.get(&place) {
                None => Label::Nothing,
                Some(label) => *label,
            },
        }
    }

    /// The first label of these locations that isn't nothing.
    pub(crate) fn first(&self, locs: &[Loc]) -> Label
        requires { AreLocations locs.now }
        ensures { result ≡ first_label (kept self.now) locs.now }
    {
        for loc in locs {
            let label = self.get(*loc);
            if !label.is_nothing() {
                return label;
            }
        }
        Label::Nothing
    }

    /// Labels a location anew.
    pub(crate) fn set(&mut self, loc: Loc, label: Label) -> Result<(), NoMemory>
        requires { IsLocation loc }
        ensures { OnOk result (IsSet self.old loc label self.new) }
    {
        match loc {
            Loc::Reg { number, lane } => {
                self.registers[LANES * number as usize + lane as usize] = label;
            }
            Loc::Mem { place } => {
                if label.is_nothing() {
                    self.memory.remove(&place);
                } else {
                    self.memory.insert(place, label)?;
                }
            }
        }
        Ok(())
    }

    /// Whether nothing is in any lane of a register.
    #[inline(always)]
    pub(crate) fn has_no_lane(&self, number: u8) -> bool
        requires { number < 32 }
        ensures { IsTrue result → (i : ℕ) → HasNothing self.now (Reg number i) }
    {
        let lanes = LANES * number as usize;
        self.registers[lanes].is_nothing()
            && self.registers[lanes + 1].is_nothing()
            && self.registers[lanes + 2].is_nothing()
            && self.registers[lanes + 3].is_nothing()
    }

    /// Whether nothing is in the bytes from a place on, which wraps.
    #[inline(always)]
    pub(crate) fn has_no_byte(&self, place: u32, size: u8) -> bool
        requires { size ≤ 4 }
        ensures { IsTrue result → (i : ℕ) → i < size → HasNothing self.now (Mem (wrap (place + i))) }
    {
        for i in 0..size {
            if !self
                .get(Loc::Mem {
                    place: place.wrapping_add(i as u32),
                })
                .is_nothing()
            {
                return false;
            }
        }
        true
    }
}
