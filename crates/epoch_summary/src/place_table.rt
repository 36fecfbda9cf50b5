//! A value for each location, which is found in the location's slot.

ghost use Rattle.std.specs.Prelude.{◌≡◌, ◌<◌, ◌*◌, ◌^◌, ℕ, false, length, get_or, nat_eq, slice_set, IfOk};
ghost use Rattle.std.specs.List.{list_any};
ghost use Rattle.std.specs.Option.{ForSome};
ghost use Rattle.epoch_summary.specs.Slots.{AreFilled, IsBlock, FitsLoc, number_of as number_by, slot_of};

use flow_model::Loc;
use indexmap::IndexSet;
use no_memory::NoMemory;
use std::alloc::Global;

/// How many slots a block has.
const SLOTS: usize = 64;

/// The number of lane 0 of register 0; those of bytes of memory lie below it.
const FIRST_LANE: u64 = 0x1_0000_0000;

/// A block of slots: its key, and the first of its slots.
#[derive(Clone, Copy)]
struct Block {
    key: u32,
    first: usize,
}

/// A value for each location, by its number: 0 until it is set. Bytes side by side in memory have slots side by side, in
/// blocks of 64. A block is made as the first of its slots is looked for. The one that was found last is found again
/// without a search.
#[derive(Drop)]
pub(crate) struct PlaceTable {
    // The keys of the blocks that were made: their numbers without the last 6 bits.
    pub(crate) blocks: IndexSet<u32>,
    // The slots of these blocks, in the same order.
    pub(crate) slots: Vec<usize>,
    // The block that was found last.
    last: Option<Block>,
    ghost filled: { AreFilled blocks.keys slots.items },
    ghost last_found: { ForSome last (λ b. IsBlock blocks.keys b.key b.first) },
}

/// The number of a location: no two have one.
#[inline(always)]
pub(crate) fn number_of(loc: Loc) -> u64
    ensures number { result ≡ number_by loc }
    ensures fits { FitsLoc loc }
    ensures bound { result < 2 ^ 33 }
{
    match loc {
        Loc::Mem { place } => place as u64,
        Loc::Reg { number, lane } => FIRST_LANE + 256 * lane as u64 + number as u64,
    }
}

impl PlaceTable {
    ghost use Rattle.epoch_summary.specs.Placed.{held_at};

    /// Each value is 0. It takes no memory.
    pub(crate) fn new(alloc: Global) -> PlaceTable
        ensures { (n : ℕ) → held_at result n ≡ 0 }
    {
        PlaceTable {
            blocks: IndexSet::new(alloc),
            slots: Vec::new(alloc),
            last: None,
        }
    }

    /// Each value is 0. There is room for the blocks of so many numbers side by side.
    pub(crate) fn with_room(alloc: Global, count: usize) -> Result<PlaceTable, NoMemory>
        ensures { IfOk result (λ table. (n : ℕ) → held_at table n ≡ 0) }
    {
        let count = count / SLOTS + 2;
        let blocks = IndexSet::with_capacity(alloc, count)?;
        let slots = Vec::with_capacity(alloc, SLOTS.saturating_mul(count))?;
        Ok(PlaceTable {
            blocks,
            slots,
            last: None,
        })
    }

    /// The value of a number.
    pub(crate) fn value(&self, number: u64) -> usize
        requires { number < 2 ^ 33 }
        ensures { result ≡ held_at self.now number }
    {
        match self.blocks.get_index_of(&((number / SLOTS as u64) as u32)) {
            Some(block) => self.slots[SLOTS * block + (number % SLOTS as u64) as usize],
            None => 0,
        }
    }

    /// The slot of a number, which is made unless it is there. No value changes, also when out of memory.
    #[inline(always)]
    pub(crate) fn find(&mut self, number: u64) -> Result<usize, NoMemory>
        requires { number < 2 ^ 33 }
        ensures same { (n : ℕ) → held_at self.new n ≡ held_at self.old n }
        ensures slot { IfOk result (λ i. i ≡ slot_of self.new.blocks.keys number) }
        ensures inside { IfOk result (λ i. i < 64 * length self.new.blocks.keys) }
    {
        let first = self.find_block((number / SLOTS as u64) as u32)?;
        Ok(first + (number % SLOTS as u64) as usize)
    }

    /// The first slot of a block, which is made unless it is there. No value changes, also when out of memory.
    #[inline(always)]
    fn find_block(&mut self, key: u32) -> Result<usize, NoMemory>
        ensures same { (n : ℕ) → held_at self.new n ≡ held_at self.old n }
        ensures block { IfOk result (λ first. IsBlock self.new.blocks.keys key first) }
    {
        match self.last {
            Some(block) if block.key == key => Ok(block.first),
            _ => self.look_up_block(key),
        }
    }

    /// The same, where it may not be the block that was found last.
    #[inline(never)]
    fn look_up_block(&mut self, key: u32) -> Result<usize, NoMemory>
        ensures same { (n : ℕ) → held_at self.new n ≡ held_at self.old n }
        ensures block { IfOk result (λ first. IsBlock self.new.blocks.keys key first) }
    {
        let block = match self.blocks.get_index_of(&key) {
            Some(block) => block,
            None => self.make_block(key)?,
        };
        let first = SLOTS * block;
        self.last = Some(Block { key, first });
        Ok(first)
    }

    /// Makes a block that isn't there, and gives its index. When out of memory no value changes.
    fn make_block(&mut self, key: u32) -> Result<usize, NoMemory>
        requires { list_any (nat_eq key) self.old.blocks.keys ≡ false }
        ensures same { (n : ℕ) → held_at self.new n ≡ held_at self.old n }
        ensures block { IfOk result (λ block. IsBlock self.new.blocks.keys key (64 * block)) }
    {
        let block = self.blocks.len();
        self.slots.resize(SLOTS * (block + 1), 0)?;
        let (block, _) = self.blocks.insert_full(key)?;
        Ok(block)
    }

    /// The value in a slot.
    #[inline(always)]
    pub(crate) fn get(&self, slot: usize) -> usize
        requires { slot < 64 * length self.now.blocks.keys }
        ensures { result ≡ get_or self.now.slots.items slot 0 }
    {
        self.slots[slot]
    }

    /// Sets the value in a slot.
    #[inline(always)]
    pub(crate) fn set(&mut self, slot: usize, value: usize)
        requires { slot < 64 * length self.old.blocks.keys }
        ensures slots { self.new.slots.items ≡ slice_set self.old.slots.items slot value }
        ensures blocks { self.new.blocks.keys ≡ self.old.blocks.keys }
    {
        self.slots[slot] = value;
    }
}
