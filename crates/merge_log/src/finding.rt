//! What a walk finds: runs of source bytes, and start locations.

ghost use Rattle.std.specs.Prelude.{◌≡◌, [], OnOk};
ghost use Rattle.lists.specs.Sets.{Ascends, has};
ghost use Rattle.merge_log.specs.Log.{AreSets};
ghost use Rattle.merge_log.specs.Masks.{and_leaves};
ghost use Rattle.merge_log.specs.Walk.{has_leaf, terms_of};
ghost use Rattle.merge_log.specs.declared.reader.Leaf.{Leaf as AnyLeaf};

use flow_model::Loc;
use no_memory::NoMemory;
use source_runs::{SourceRun, normalise};
use std::alloc::Global;

/// The leaves of an entry that is no union.
#[derive(Clone, Copy)]
pub enum Leaves {
    Run(SourceRun),
    Start(Loc),
}

/// The leaves that a walk found: runs of source bytes, and start locations.
#[derive(Drop)]
pub struct FoundLeaves {
    pub runs: Vec<SourceRun>,
    pub starts: Vec<Loc>,
}

impl FoundLeaves {
    /// No leaf. It takes no memory.
    pub fn new(alloc: Global) -> FoundLeaves
        ensures runs { result.runs.items ≡ [] }
        ensures starts { result.starts.items ≡ [] }
    {
        FoundLeaves {
            runs: Vec::new(alloc),
            starts: Vec::new(alloc),
        }
    }

    /// Lets go of all leaves, and keeps the room for them.
    pub fn clear(&mut self)
        ensures runs { self.new.runs.items ≡ [] }
        ensures starts { self.new.starts.items ≡ [] }
    {
        self.runs.clear();
        self.starts.clear();
    }

    /// Adds leaves.
    pub fn add(&mut self, leaves: Leaves) -> Result<(), NoMemory>
        ensures { OnOk result (terms_of self.new ≡ and_leaves leaves (terms_of self.old)) }
    {
        match leaves {
            Leaves::Run(run) => self.runs.push(run)?,
            Leaves::Start(loc) => self.starts.push(loc)?,
        }
        Ok(())
    }

    /// Makes sets of the leaves: each once, ascending. Only the room of `spare` is used. When out of memory there may be others.
    pub fn normalise(&mut self, spare: &mut Vec<SourceRun>) -> Result<(), NoMemory>
        ensures members { OnOk result
            ((q : AnyLeaf) → has_leaf q (terms_of self.new) ≡ has_leaf q (terms_of self.old)) }
        ensures ascending { OnOk result (AreSets (terms_of self.new)) }
    {
        normalise(&mut self.runs, spare)?;
        ascend(&mut self.starts);
        Ok(())
    }
}

/// Makes a set of a list: its members ascending, each once.
pub fn ascend<T: Ord + Copy>(items: &mut Vec<T>)
    ensures members { (x : T) → has T.cmp x items.new.items ≡ has T.cmp x items.old.items }
    ensures ascending { Ascends T.cmp items.new.items }
{
    items.sort_unstable();
    items.dedup();
}
