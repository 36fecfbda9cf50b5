//! The nodes of unions and runs that were asked for lately, so that most of them need no search of the log.

use std::alloc::Global;

/// For each slot the node that was noted there last, or 0. A pair of operands has one slot, which it shares with other
/// pairs and with runs, so whoever is given a node here has to see in the log what it is made of.
#[derive(Drop)]
pub struct RecentUnions {
    slots: Vec<u32>,
}

/// The fewest slots of a log that has unions: a power of two, as is any number of slots.
const FEWEST_SLOTS: usize = 64;

/// The most slots.
const MOST_SLOTS: usize = 65_536;

impl RecentUnions {
    /// No node. It takes no memory.
    pub fn new(alloc: Global) -> Self {
        RecentUnions {
            slots: Vec::new(alloc),
        }
    }

    /// The slot of two operands, or of the first and the last offset of a run.
    #[inline(always)]
    pub fn slot_of(&self, left: u32, right: u32) -> usize {
        let pair = (left as u64) << 32 | right as u64;
        let mixed = pair.wrapping_mul(0x9e37_79b9_7f4a_7c15) >> 32;
        mixed as usize & self.slots.len().wrapping_sub(1)
    }

    /// The node that was noted last at a slot, or 0.
    #[inline(always)]
    pub fn node(&self, slot: usize) -> u32 {
        match self.slots.get(slot) {
            Some(node) => *node,
            None => 0,
        }
    }

    /// Notes a node at a slot. Where there is no such slot, nothing is noted.
    pub fn note(&mut self, slot: usize, node: u32) {
        if slot < self.slots.len() {
            self.slots[slot] = node;
        }
    }

    /// Makes room for as many nodes as a log has, so that a small log takes little memory. It stays as it is where
    /// there is no memory for more.
    pub fn fit(&mut self, nodes: usize) {
        let count = self.slots.len();
        if nodes <= count || count >= MOST_SLOTS {
            return;
        }
        let more = (count * 4).max(FEWEST_SLOTS);
        let _grown = self.slots.resize(more, 0).is_ok();
    }
}
