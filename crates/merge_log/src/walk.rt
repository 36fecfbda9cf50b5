//! The walk over the nodes under a node, and the marks of those that it reached.

ghost use Rattle.std.specs.Prelude.{◌≡◌, ◌==◌, ◌<◌, ◌≤◌, ◌≢◌, ℕ, [], length, not, OnOk, slice_index, slice_set};
ghost use Rattle.merge_log.specs.Log.{IsNode, terms};
ghost use Rattle.merge_log.specs.Walk.{AreAtMost, has_leaf, terms_of, visited};
ghost use Rattle.merge_log.specs.declared.reader.Leaf.{Leaf as AnyLeaf};

use crate::finding::{FoundLeaves, Leaves};
use crate::nodes::{Entry, MergeLog};
use no_memory::NoMemory;
use source_runs::SourceRun;
use std::alloc::Global;

/// For each node the number of the round that reached it last, or 0.
#[derive(Drop)]
pub struct Marks {
    round: u32,
    last: Vec<u32>,
    ghost bounded: { AreAtMost round last.items },
}

impl Marks {
    /// No node was reached.
    pub fn new(alloc: Global) -> Self {
        Marks {
            round: 0,
            last: Vec::new(alloc),
        }
    }

    /// Begins a round, in which none of the nodes below `size` was reached.
    pub fn begin(&mut self, size: usize) -> Result<(), NoMemory>
        ensures room { OnOk result (size ≤ length self.new.last.items) }
        ensures unmarked { OnOk result ((m : ℕ) → slice_index self.new.last.items m ≢ self.new.round) }
    {
        if self.last.len() < size {
            self.last.resize(size, 0)?;
        }
        if self.round < u32::MAX {
            self.round += 1;
            return Ok(());
        }
        self.last.fill(0);
        self.round = 1;
        Ok(())
    }

    /// Marks a node. It answers whether this round reaches it for the first time.
    pub fn mark(&mut self, node: u32) -> bool
        requires { node < length self.old.last.items }
        ensures first { result ≡ not (slice_index self.old.last.items node == self.old.round) }
        ensures marked { self.new.last.items ≡ slice_set self.old.last.items node self.old.round }
        ensures round { self.new.round ≡ self.old.round }
    {
        if self.last[node as usize] == self.round {
            return false;
        }
        self.last[node as usize] = self.round;
        true
    }
}

/// Finds the leaves under a node, each node of which is visited once. The marks are those of a round that
/// has begun for the whole log. Only the room of `stack` is used.
pub fn walk(
    log: &MergeLog,
    root: u32,
    marks: &mut Marks,
    stack: &mut Vec<u32>,
    found: &mut FoundLeaves,
) -> Result<(), NoMemory>
    requires above_0 { 0 < root }
    requires stands { IsNode log.now root }
    requires room { length log.now < length marks.old.last.items }
    requires unmarked { (m : ℕ) → slice_index marks.old.last.items m ≢ marks.old.round }
    requires runs { found.old.runs.items ≡ [] }
    requires starts { found.old.starts.items ≡ [] }
    ensures found { OnOk result ((q : AnyLeaf) → has_leaf q (terms_of found.new) ≡ has_leaf q (terms log.now root)) }
{
    log.form();
    stack.clear();
    visit(root, marks, stack)?;
    while let Some(next) = stack.pop() {
        match log.entry(next) {
            Entry::Source(byte) => found.add(Leaves::Run(SourceRun::of_byte(byte)))?,
            Entry::Run {
                channel,
                first,
                last,
            } => found.add(Leaves::Run(SourceRun {
                channel,
                first,
                last,
            }))?,
            Entry::Start(loc) => found.add(Leaves::Start(loc))?,
            Entry::Union { left, right } => {
                visit(left, marks, stack)?;
                visit(right, marks, stack)?;
            }
        }
    }
    Ok(())
}

/// Marks a node, and puts it onto the stack if the round reaches it for the first time.
fn visit(node: u32, marks: &mut Marks, stack: &mut Vec<u32>) -> Result<(), NoMemory>
    requires { node < length marks.old.last.items }
    ensures marked { marks.new.last.items ≡ slice_set marks.old.last.items node marks.old.round }
    ensures round { marks.new.round ≡ marks.old.round }
    ensures stack { OnOk result (stack.new.items ≡ visited marks.old.last.items marks.old.round node stack.old.items) }
{
    if marks.mark(node) {
        stack.push(node)?;
    }
    Ok(())
}
