//! The start locations that are noted as under nodes, so that a union of both makes no node.

ghost use Rattle.std.specs.Prelude.{◌≡◌, ℕ, ◌-◌, ◌<◌, List, Some, [], length, slice_index, IsTrue};
ghost use Rattle.std.specs.Int.{bit_at};
ghost use Rattle.merge_log.specs.Log.{AreOrdered, Covers, HasOperandsBefore, entry_at};
ghost use Rattle.merge_log.specs.Under.{AreUnder, IsUnder, HasLeafBit};
ghost use Rattle.merge_log.specs.declared.nodes.Entry.{Entry as AnyEntry};

use crate::nodes::Entry;
use std::alloc::Global;

/// So many start locations of a log are noted.
const MOST_LEAVES: usize = 64;

/// Which of the first start locations of a log are under its nodes. It knows no more than there was memory for.
#[derive(Drop)]
pub struct StartsUnder {
    // The nodes of the first start locations.
    pub(crate) leaves: Vec<u32>,
    // For the node of each entry a mask: bit k stands for start location k.
    pub(crate) masks: Vec<u64>,
}

impl StartsUnder {
    /// No node. It takes no memory.
    pub fn new(alloc: Global) -> StartsUnder
        ensures leaves { result.leaves.items ≡ [] }
        ensures masks { result.masks.items ≡ [] }
    {
        StartsUnder {
            leaves: Vec::new(alloc),
            masks: Vec::new(alloc),
        }
    }

    /// Whether a node is that of a start location which is noted as under another node.
    pub fn has(&self, node: u32, leaf: u32) -> bool
        requires node { 0 < node }
        requires leaf { 0 < leaf }
        ensures { IsTrue result → (log : List AnyEntry) → AreUnder log self.now.leaves.items self.now.masks.items
            → Covers log node leaf }
    {
        if self.leaves.is_empty() {
            return false;
        }
        let bit = self.mask(leaf).trailing_zeros() as usize;
        if bit >= MOST_LEAVES || bit >= self.leaves.len() {
            return false;
        }
        if self.leaves[bit] != leaf {
            return false;
        }
        (self.mask(node) >> bit) & 1 == 1
    }

    /// Notes those under a new node of this entry. Where there is no memory for it, none is noted. A log that has no start location
    /// takes none.
    pub fn note(&mut self, node: u32, entry: Entry)
        requires node { 0 < node }
        requires operands { HasOperandsBefore node entry }
        ensures { (log : List AnyEntry) → AreOrdered 1 log → entry_at log node ≡ Some entry
            → AreUnder log self.old.leaves.items self.old.masks.items
            → AreUnder log self.new.leaves.items self.new.masks.items }
    {
        if self.leaves.is_empty() {
            if !is_start(entry) {
                return;
            }
            pad(&mut self.masks, node as usize - 1);
        }
        self.note_next(node, entry);
    }

    /// The same, where each node before has a mask.
    fn note_next(&mut self, node: u32, entry: Entry)
        requires node { 0 < node }
        requires operands { HasOperandsBefore node entry }
        ensures { (log : List AnyEntry) → AreOrdered 1 log → entry_at log node ≡ Some entry
            → AreUnder log self.old.leaves.items self.old.masks.items
            → AreUnder log self.new.leaves.items self.new.masks.items }
    {
        if self.masks.len() + 1 != node as usize {
            return;
        }
        let mask = match entry {
            Entry::Source(_) => 0,
            Entry::Run { .. } => 0,
            Entry::Start(_) => self.add_leaf(node),
            Entry::Union { left, right } => self.mask(left) | self.mask(right),
        };
        let Ok(()) = self.masks.push(mask) else {
            return;
        };
    }

    /// The mask of the node of a start location, which is added unless there are as many as bits.
    fn add_leaf(&mut self, node: u32) -> u64
        ensures bit { HasLeafBit self.old.leaves.items node self.new.leaves.items result }
        ensures masks { self.new.masks ≡ self.old.masks }
    {
        let bit = self.leaves.len();
        if bit >= MOST_LEAVES {
            return 0;
        }
        let Ok(()) = self.leaves.push(node) else {
            return 0;
        };
        1 << bit
    }

    /// The mask of a node.
    fn mask(&self, node: u32) -> u64
        requires { 0 < node }
        ensures { result ≡ slice_index self.now.masks.items (node - 1) }
    {
        match self.masks.get(node as usize - 1) {
            Some(mask) => *mask,
            None => 0,
        }
    }
}

/// Whether an entry is that of a start location.
fn is_start(entry: Entry) -> bool {
    match entry {
        Entry::Start(_) => true,
        Entry::Source(_) | Entry::Run { .. } | Entry::Union { .. } => false,
    }
}

/// Makes so many masks at least: those that are new have no bit. Where there is no memory for them, none is made.
fn pad(masks: &mut Vec<u64>, size: usize)
    ensures { (i : ℕ) → slice_index masks.new.items i ≡ slice_index masks.old.items i }
{
    if masks.len() < size {
        let _padded = masks.resize(size, 0).is_ok();
    }
}
