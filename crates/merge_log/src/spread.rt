//! The walk from many roots at once.

ghost use Rattle.std.specs.Prelude.{◌≡◌, ℕ, ◌+◌, ◌<◌, ◌≤◌, All, length, slice_index, OnOk};
ghost use Rattle.std.specs.Int.{bit_at};
ghost use Rattle.merge_log.specs.Log.{AreSets, IsNode, no_terms};
ghost use Rattle.merge_log.specs.Masks.{HasBit, IsClearFrom, AreFound, GivesLeaves, HaveLeavesOf, KeepCovers, found_at};

use crate::finding::{FoundLeaves, Leaves};
use crate::masks::Masks;
use crate::nodes::{Entry, MergeLog, Node};
use no_memory::NoMemory;
use source_runs::SourceRun;
use std::alloc::Global;

/// Finds the leaves under each root, by one visit to each node under any of them: from the last node down, so that a
/// node's mask is whole when it is visited.
pub fn walk_many(
    log: &MergeLog,
    roots: &[Node],
    masks: &mut Masks,
    found: &mut Vec<FoundLeaves>,
) -> Result<(), NoMemory>
    requires few { length roots.now ≤ 64 }
    requires stand { All (IsNode log.now) roots.now }
    requires room { length log.now < length masks.old.masks.items }
    requires clear { IsClearFrom masks.old.masks.items 0 }
    requires sets { length found.old.items ≡ length roots.now }
    requires empty { (r : ℕ) → found_at found.old.items r ≡ no_terms }
    ensures clear { OnOk result (IsClearFrom masks.new.masks.items 0) }
    ensures sets { length found.new.items ≡ length roots.now }
    ensures found { OnOk result (AreFound log.now roots.now found.new.items) }
{
    log.form();
    let mut past = add_roots(log, roots, masks);
    while let Some(node) = masks.last_below(past) {
        past = node as usize;
        let mask = masks.take(node);
        if node > 0 {
            spread(log, node, mask, masks, found)?;
        }
    }
    Ok(())
}

/// Gives each root its bit in the mask of its node. No node from the answer on has a mask.
fn add_roots(log: &MergeLog, roots: &[Node], masks: &mut Masks) -> usize
    requires few { length roots.now ≤ 64 }
    requires stand { All (IsNode log.now) roots.now }
    requires room { length log.now < length masks.old.masks.items }
    requires clear { IsClearFrom masks.old.masks.items 0 }
    ensures room { length masks.new.masks.items ≡ length masks.old.masks.items }
    ensures past { result ≤ length log.now + 1 }
    ensures above { IsClearFrom masks.new.masks.items result }
    ensures only { (r m : ℕ) → HasBit masks.new.masks.items r m → m ≡ slice_index roots.now r }
    ensures all { (r : ℕ) → r < length roots.now → HasBit masks.new.masks.items r (slice_index roots.now r) }
{
    log.form(); // so that nodes fit into 32 bits
    let mut past = 0;
    for root in 0..roots.len() {
        masks.add(roots[root] as u32, 1 << root);
        past = (roots[root] as usize + 1).max(past);
    }
    past
}

/// Visits a node whose mask was taken: its leaf is found for the roots of the mask, or its operands are left for them.
fn spread(
    log: &MergeLog,
    node: u32,
    mask: u64,
    masks: &mut Masks,
    found: &mut Vec<FoundLeaves>,
) -> Result<(), NoMemory>
    requires above_0 { 0 < node }
    requires stands { IsNode log.now node }
    requires room { length log.now < length masks.old.masks.items }
    requires clear { IsClearFrom masks.old.masks.items node }
    requires few { length found.old.items ≤ 64 }
    ensures room { length masks.new.masks.items ≡ length masks.old.masks.items }
    ensures clear { IsClearFrom masks.new.masks.items node }
    ensures sets { length found.new.items ≡ length found.old.items }
    ensures covers { OnOk result
        (KeepCovers log.now node mask masks.old.masks.items found.old.items masks.new.masks.items found.new.items) }
{
    match log.entry(node) {
        Entry::Source(byte) => give(found, mask, Leaves::Run(SourceRun::of_byte(byte))),
        Entry::Run {
            channel,
            first,
            last,
        } => give(
            found,
            mask,
            Leaves::Run(SourceRun {
                channel,
                first,
                last,
            }),
        ),
        Entry::Start(loc) => give(found, mask, Leaves::Start(loc)),
        Entry::Union { left, right } => {
            masks.add(left, mask);
            masks.add(right, mask);
            Ok(())
        }
    }
}

/// Where the roots of a mask begin, and where they end.
#[inline(always)]
#[tactic(auto, using(crate::proofs::Bounds::bits_from, crate::proofs::Bounds::bits_below))]
fn bounds(mask: u64) -> (usize, usize)
    ensures below { (r : ℕ) → r < result.0 → bit_at mask r ≡ 0 }
    ensures above { (r : ℕ) → result.1 ≤ r → bit_at mask r ≡ 0 }
{
    (
        mask.trailing_zeros() as usize,
        64 - mask.leading_zeros() as usize,
    )
}

/// Adds leaves to what was found of the roots of a mask.
fn give(found: &mut Vec<FoundLeaves>, mask: u64, leaves: Leaves) -> Result<(), NoMemory>
    requires { length found.old.items ≤ 64 }
    ensures sets { length found.new.items ≡ length found.old.items }
    ensures given { OnOk result (GivesLeaves mask leaves found.old.items found.new.items) }
{
    let (first, past) = bounds(mask);
    for root in first..past.min(found.len()) {
        if (mask >> root) & 1 == 1 {
            found[root].add(leaves)?;
        }
    }
    Ok(())
}

/// Makes so many empty sets. Those that are there are emptied, so that their memory is used again.
pub fn empty_sets(alloc: Global, found: &mut Vec<FoundLeaves>, count: usize) -> Result<(), NoMemory>
    ensures sets { OnOk result (length found.new.items ≡ count) }
    ensures empty { OnOk result ((r : ℕ) → found_at found.new.items r ≡ no_terms) }
{
    found.truncate(count);
    empty_all(found);
    for _ in found.len()..count {
        found.push(FoundLeaves::new(alloc))?;
    }
    Ok(())
}

fn empty_all(found: &mut Vec<FoundLeaves>)
    ensures sets { length found.new.items ≡ length found.old.items }
    ensures empty { (r : ℕ) → found_at found.new.items r ≡ no_terms }
{
    for root in 0..found.len() {
        found[root].clear();
    }
}

/// Makes a set of what was found of each root.
pub fn normalise_all(
    found: &mut Vec<FoundLeaves>,
    spare: &mut Vec<SourceRun>,
) -> Result<(), NoMemory>
    ensures sets { OnOk result (length found.new.items ≡ length found.old.items) }
    ensures members { OnOk result (HaveLeavesOf found.old.items found.new.items) }
    ensures ascending { OnOk result ((r : ℕ) → AreSets (found_at found.new.items r)) }
{
    for root in 0..found.len() {
        found[root].normalise(spare)?;
    }
    Ok(())
}
