//! Readers of the terms of many nodes at once.

ghost use Rattle.std.specs.Prelude.{◌≡◌, ◌<◌, ◌≤◌, ℕ, [], All, Some, length, map, slice_get, OnOk};
ghost use Rattle.merge_log.specs.Log.{IsNode, no_terms, terms};
ghost use Rattle.merge_log.specs.Masks.{IsClearFrom, found_at};
ghost use Rattle.merge_log.specs.Walk.{terms_of};

use crate::finding::FoundLeaves;
use crate::masks::Masks;
use crate::nodes::{MergeLog, Node};
use crate::reader::TermsReader;
use crate::spread::{empty_sets, normalise_all, walk_many};
use no_memory::NoMemory;
use source_runs::SourceRun;
use std::alloc::Global;
use std::marker::Model;
use std::mem;

/// The most nodes that are read at once.
pub const MOST_ROOTS: usize = 64;

/// The terms of up to 64 nodes of a log, in order. They are read by one walk, which visits each node under any of them
/// once: nodes that were made near one another have most of what is under them in common.
#[derive(Drop)]
pub struct ManyTerms {
    alloc: Global,
    masks: Masks,
    found: Vec<FoundLeaves>,
    spare: Vec<SourceRun>,
}

impl Model for ManyTerms {
    ghost use Rattle.std.specs.Prelude.{List, map};
    ghost use Rattle.merge_log.specs.Log.{Terms};
    ghost use Rattle.merge_log.specs.Masks.{IsClearFrom};
    ghost use Rattle.merge_log.specs.Walk.{terms_of};

    ghost Value = { List Terms };

    ghost view = { λ m. map terms_of m.found.items };

    ghost invariant = { λ m. IsClearFrom m.masks.masks.items 0 };
}

impl ManyTerms {
    /// The terms of no node. It takes no memory.
    pub fn new(alloc: Global) -> Self
        ensures { result ≡ [] }
    {
        ManyTerms {
            alloc,
            masks: Masks::new(alloc),
            found: Vec::new(alloc),
            spare: Vec::new(alloc),
        }
    }

    /// Reads the terms of nodes of a log. When out of memory it may have read part of them, and can go on with any nodes
    /// of any log.
    pub fn read(&mut self, log: &MergeLog, roots: &[Node]) -> Result<(), NoMemory>
        requires few { length roots.now ≤ 64 }
        requires stand { All (IsNode log.now) roots.now }
        ensures { OnOk result (self.new ≡ map (terms log.now) roots.now) }
    {
        empty_sets(self.alloc, &mut self.found, roots.len())?;
        let mut masks = mem::replace(&mut self.masks, Masks::new(self.alloc));
        find_all(log, roots, &mut masks, &mut self.found, &mut self.spare)?;
        drop(mem::replace(&mut self.masks, masks));
        Ok(())
    }

    /// Copies the terms of the node of this number to a reader. When out of memory it may have copied part of them.
    pub fn copy(&self, number: usize, reader: &mut TermsReader) -> Result<(), NoMemory>
        requires { number < length self.now }
        ensures { OnOk result (slice_get self.now number ≡ Some reader.new) }
    {
        reader.copy_found(&self.found[number])
    }
}

/// Finds the leaves of nodes of a log, of each as sets. Nothing was found before, and only the room of `spare` is used.
fn find_all(
    log: &MergeLog,
    roots: &[Node],
    masks: &mut Masks,
    found: &mut Vec<FoundLeaves>,
    spare: &mut Vec<SourceRun>,
) -> Result<(), NoMemory>
    requires few { length roots.now ≤ 64 }
    requires stand { All (IsNode log.now) roots.now }
    requires clear { IsClearFrom masks.old.masks.items 0 }
    requires sets { length found.old.items ≡ length roots.now }
    requires empty { (r : ℕ) → found_at found.old.items r ≡ no_terms }
    ensures clear { OnOk result (IsClearFrom masks.new.masks.items 0) }
    ensures found { OnOk result (map terms_of found.new.items ≡ map (terms log.now) roots.now) }
{
    masks.fit(log.size() as usize)?;
    walk_many(log, roots, masks, found)?;
    normalise_all(found, spare)?;
    Ok(())
}
