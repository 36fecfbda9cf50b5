//! Under which roots of a walk the nodes lie that it still has to visit.

ghost use Rattle.std.specs.Prelude.{◌≡◌, ◌+◌, ◌^◌, ◌<◌, ◌≤◌, [], None, length, IfSome, OnOk, slice_index, slice_set};
ghost use Rattle.std.specs.Int.RustNames.{bit_or};
ghost use Rattle.merge_log.specs.Masks.{AreMarked, IsClearBelow, IsClearFrom};

use no_memory::NoMemory;
use std::alloc::Global;
use std::mem;

/// How many nodes a block has. Blocks in which no node is left are passed at once.
const BLOCK: usize = 64;

/// A mask for each node: bit r stands for root r of a walk.
#[derive(Drop)]
pub struct Masks {
    masks: Vec<u64>,
    blocks: Vec<bool>,
    // No node below it has a mask.
    first: usize,
    ghost marked: { AreMarked masks.items blocks.items },
    ghost below: { IsClearBelow masks.items first },
}

impl Masks {
    /// No mask. It takes no memory.
    pub fn new(alloc: Global) -> Self
        ensures { result.masks.items ≡ [] }
    {
        Masks {
            masks: Vec::new(alloc),
            blocks: Vec::new(alloc),
            first: 0,
        }
    }

    /// Makes room for the masks of the nodes below `size`.
    pub fn fit(&mut self, size: usize) -> Result<(), NoMemory>
        requires { IsClearFrom self.old.masks.items 0 }
        ensures room { OnOk result (size ≤ length self.new.masks.items) }
        ensures clear { IsClearFrom self.new.masks.items 0 }
    {
        if self.masks.len() < size {
            self.blocks.resize(size / BLOCK + 1, false)?;
            self.masks.resize(size, 0)?;
        }
        self.first = size;
        Ok(())
    }

    /// Adds the roots of a mask to that of a node.
    #[inline(always)]
    pub fn add(&mut self, node: u32, mask: u64)
        requires { node < length self.old.masks.items }
        ensures { self.new.masks.items
            ≡ slice_set self.old.masks.items node (bit_or (slice_index self.old.masks.items node) mask) }
    {
        self.masks[node as usize] |= mask;
        self.blocks[node as usize / BLOCK] = true;
        self.first = self.first.min(node as usize);
    }

    /// Takes the mask of a node, which then has none.
    #[inline(always)]
    pub fn take(&mut self, node: u32) -> u64
        requires { node < length self.old.masks.items }
        ensures mask { result ≡ slice_index self.old.masks.items node }
        ensures taken { self.new.masks.items ≡ slice_set self.old.masks.items node 0 }
    {
        mem::replace(&mut self.masks[node as usize], 0)
    }

    /// The last node below `limit` that has a mask, where none from there on has one.
    pub fn last_below(&mut self, limit: usize) -> Option<u32>
        requires few { limit ≤ 2 ^ 32 }
        requires room { limit ≤ length self.old.masks.items }
        requires clear { IsClearFrom self.old.masks.items limit }
        ensures kept { self.new.masks.items ≡ self.old.masks.items }
        ensures below { IfSome result (λ n. n < limit) }
        ensures last { IfSome result (λ n. IsClearFrom self.new.masks.items (n + 1)) }
        ensures none { result ≡ None → IsClearFrom self.new.masks.items 0 }
    {
        let mut past = limit;
        while past > self.first {
            if past % BLOCK == 0 && !self.blocks[past / BLOCK - 1] {
                past -= BLOCK;
            } else if self.masks[past - 1] == 0 {
                past -= 1;
                self.leave(past);
            } else {
                return Some((past - 1) as u32);
            }
        }
        None
    }

    /// Where `past` is a block's first node, the block has no node left.
    #[inline(always)]
    fn leave(&mut self, past: usize)
        requires room { past < length self.old.masks.items }
        requires clear { IsClearFrom self.old.masks.items past }
        ensures { self.new.masks.items ≡ self.old.masks.items }
    {
        if past % BLOCK == 0 {
            self.blocks[past / BLOCK] = false;
        }
    }
}
