//! What locations are labelled with.

ghost use Rattle.std.specs.Prelude.{◌≡◌, ◌<◌, ◌≤◌, ◌+◌, ℕ, length, IfOk, IfSome, OnOk, IsTrue};
ghost use Rattle.flow_model.specs.declared.Loc.TheVariants.{Reg, Mem};
ghost use Rattle.flow_model.specs.Ranges.{IsLocation};
ghost use Rattle.isa.specs.Machine.{wrap};
ghost use Rattle.taint_shadow.specs.Labels.{start_label, nothing_label};
ghost use Rattle.flow_rule.specs.Shuffles.{AreLanes};
ghost use Rattle.taint_shadow.specs.Lanes.{lane_at, alike, clean, shuffled};
ghost use Rattle.taint_shadow.specs.Notes.{AreNoted, AreAlike};

use crate::labels::Label;
use crate::lanes::Lanes;
use crate::marks::Marks;
use crate::memory::{self, Regions};
use flow_model::Loc;
use flow_rule::Shuffle;
use no_memory::NoMemory;
use std::alloc::Global;

/// How many registers there are.
const REGISTERS: usize = 32;

/// A label for each lane of the 32 registers and for each byte of memory.
#[derive(Drop)]
pub struct Places {
    registers: Vec<Lanes>,
    // Whether a register, as an origin, may have a label.
    labelled: Marks,
    // Whether all lanes of a register have one label.
    uniform: Marks,
    alloc: Global,
    memory: Regions,
    ghost lanes: { length registers.items ≡ 32 },
    ghost noted: { AreNoted labelled.bits registers.items },
    ghost same: { AreAlike uniform.bits registers.items },
}

impl Places {
    ghost use Rattle.taint_shadow.specs.Clean.{AreClean};
    ghost use Rattle.taint_shadow.specs.Places.{kept, AreKept, origin_lane, origin_lanes, with_lanes, with_word};

    /// Each location has the label of what it had at the start.
    pub fn new(alloc: Global) -> Result<Self, NoMemory>
        ensures { IfOk result (λ p. AreKept p start_label) }
    {
        let mut registers = Vec::with_capacity(alloc, REGISTERS)?;
        for number in 0..REGISTERS {
            registers.push(start_lanes(number as u8))?;
        }
        Ok(Places {
            registers,
            labelled: Marks::all_but_first(),
            uniform: Marks::none(),
            alloc,
            memory: Vec::new(alloc),
        })
    }

    /// The label of a location.
    #[inline(always)]
    pub fn get(&self, loc: Loc) -> Label
        requires { IsLocation loc }
        ensures { result ≡ kept self.now loc }
    {
        match loc {
            Loc::Reg { number, lane } => self.registers[number as usize].at(lane),
            Loc::Mem { place } => memory::label_at(self.memory.as_slice(), place),
        }
    }

    /// The labels of the lanes of a register, as origins: those of x0 came from nowhere.
    #[inline(always)]
    pub(crate) fn lanes(&self, number: u8) -> Lanes
        requires { number < 32 }
        ensures { (i : ℕ) → i < 4 → lane_at result i ≡ origin_lane self.now number i }
    {
        if self.labelled.has(number) {
            self.registers[number as usize]
        } else {
            Lanes::clean()
        }
    }

    /// Whether no lane of a register, as an origin, has a label. It is told without a look at the lanes.
    #[inline(always)]
    pub(crate) fn is_clean(&self, number: u8) -> bool
        requires { number < 32 }
        ensures { IsTrue result → (i : ℕ) → i < 4 → origin_lane self.now number i ≡ nothing_label }
    {
        !self.labelled.has(number)
    }

    /// The label that all lanes of a register have, as origins, where it is noted that they have one: that of nothing where they
    /// are clean.
    #[inline(always)]
    pub(crate) fn one_label(&self, number: u8) -> Option<Label>
        requires { number < 32 }
        ensures { IfSome result (λ l. (i : ℕ) → i < 4 → origin_lane self.now number i ≡ l) }
    {
        if !self.labelled.has(number) {
            return Some(Label::nothing());
        }
        if self.uniform.has(number) {
            return Some(self.registers[number as usize].first);
        }
        None
    }

    /// Whether a step of an instruction with these registers, as `rv_decode::registers_of` has them, that is neither a load nor a
    /// store is known to leave the label of each location as it is: none of them has a label.
    #[inline(always)]
    pub fn is_clean_of(&self, registers: u32) -> bool
        ensures { IsTrue result → AreClean self.now registers }
    {
        self.labelled.has_none_of(registers)
    }

    /// Empties the lanes of a register; those of x0 stay as they are.
    #[inline(always)]
    pub(crate) fn clear(&mut self, number: u8)
        requires { number < 32 }
        ensures { AreKept self.new (with_lanes number clean (kept self.old)) }
    {
        if self.labelled.has(number) {
            self.registers[number as usize] = Lanes::clean();
            self.labelled = self.labelled.without(number);
        }
    }

    /// Labels the lanes of a register anew; those of x0 stay as they are.
    #[inline(always)]
    pub(crate) fn set_lanes(&mut self, number: u8, lanes: Lanes)
        requires { number < 32 }
        ensures { AreKept self.new (with_lanes number lanes (kept self.old)) }
    {
        if number > 0 {
            self.registers[number as usize] = lanes;
            self.labelled = self.labelled.with(number);
            self.uniform = self.uniform.without(number);
        }
    }

    /// Labels all lanes of a register with one label, of which it is noted that they have it; those of x0 stay as they are.
    #[inline(always)]
    pub(crate) fn set_alike(&mut self, number: u8, label: Label)
        requires { number < 32 }
        ensures { AreKept self.new (with_lanes number (alike label) (kept self.old)) }
    {
        if label.is_nothing() {
            self.clear(number);
        } else if number > 0 {
            self.registers[number as usize] = Lanes::alike(label);
            self.labelled = self.labelled.with(number);
            self.uniform = self.uniform.with(number);
        }
    }

    /// Labels the lanes of a register anew, and notes what there is to note of them; those of x0 stay as they are.
    #[inline(always)]
    pub(crate) fn put_lanes(&mut self, number: u8, lanes: Lanes)
        requires { number < 32 }
        ensures { AreKept self.new (with_lanes number lanes (kept self.old)) }
    {
        if lanes.are_alike() {
            self.set_alike(number, lanes.first);
        } else {
            self.set_lanes(number, lanes);
        }
    }

    /// Labels the lanes of a register as those of another; those of x0 stay as they are.
    #[inline(always)]
    pub(crate) fn copy_lanes(&mut self, number: u8, from: u8)
        requires { (number < 32) × (from < 32) }
        ensures { AreKept self.new (with_lanes number (origin_lanes self.old from) (kept self.old)) }
    {
        match self.one_label(from) {
            Some(label) => self.set_alike(number, label),
            None => {
                let lanes = self.lanes(from);
                self.set_lanes(number, lanes);
            }
        }
    }

    /// Labels each lane of a register as the one of another that is chosen for it; those of x0 stay as they are.
    pub(crate) fn shuffle_lanes(&mut self, number: u8, from: u8, shuffle: Shuffle)
        requires registers { (number < 32) × (from < 32) }
        requires lanes { AreLanes shuffle }
        ensures { AreKept self.new (with_lanes number (shuffled (origin_lanes self.old from) shuffle) (kept self.old)) }
    {
        let lanes = self.lanes(from).shuffled(shuffle);
        self.put_lanes(number, lanes);
    }

    /// The labels of the four bytes from a place on, round the end of memory.
    #[inline(always)]
    pub(crate) fn word(&self, place: u32) -> Lanes
        ensures { (i : ℕ) → i < 4 → lane_at result i ≡ kept self.now (Mem (wrap (place + i))) }
    {
        memory::word_at(self.memory.as_slice(), place)
    }

    /// The labels of the four bytes from a place on, where they lie in one line that was made.
    #[inline(always)]
    pub(crate) fn made_word(&self, place: u32) -> Option<Lanes>
        ensures { IfSome result (λ x. (i : ℕ) → i < 4 → lane_at x i ≡ kept self.now (Mem (wrap (place + i)))) }
    {
        memory::made_word(self.memory.as_slice(), place)
    }

    /// Whether the four bytes from a place on, round the end of memory, are known to have no label. It is told at one look.
    #[inline(always)]
    pub(crate) fn is_clean_word(&self, place: u32) -> bool
        ensures { IsTrue result → (i : ℕ) → i < 4 → kept self.now (Mem (wrap (place + i))) ≡ nothing_label }
    {
        memory::is_clean_word(self.memory.as_slice(), place)
    }

    /// Labels the lowest `size` of the four bytes from a place on anew, round the end of memory.
    #[inline(always)]
    pub(crate) fn set_word(&mut self, place: u32, size: u8, lanes: Lanes) -> Result<(), NoMemory>
        requires { (1 ≤ size) × (size ≤ 4) }
        ensures { OnOk result (AreKept self.new (with_word place size lanes (kept self.old))) }
    {
        memory::put(self.alloc, &mut self.memory, place, size, lanes)
    }
}

/// The labels of what the lanes of a register had at the start.
fn start_lanes(number: u8) -> Lanes
    ensures { (i : ℕ) → i < 4 → lane_at result i ≡ start_label (Reg number i) }
{
    Lanes {
        first: Label::start(Loc::Reg { number, lane: 0 }),
        second: Label::start(Loc::Reg { number, lane: 1 }),
        third: Label::start(Loc::Reg { number, lane: 2 }),
        fourth: Label::start(Loc::Reg { number, lane: 3 }),
    }
}
