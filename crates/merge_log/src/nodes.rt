//! The log, and what its nodes are.

ghost use Rattle.std.specs.Prelude.{◌≡◌, ℕ, ◌+◌, ◌<◌, [], length, Some, None, ◌≤◌, ◌⊎◌, ◌↔◌, Contains, IsTrue, IfSome, IsOk, IfOk, OnErr};
ghost use Rattle.merge_log.specs.Log.{IsLog, AreSets, IsNode, HasOperandsBefore, IsNoted, KeepsNodes, IsUnited, HasUnion, IsAbsorbed, HasAbsorbingUnion, AreApart, AreTwo, Covers, HasOperand, terms, no_terms, source_term, run_term, run_entry, start_term, entry_at, entry_terms, joined};
ghost use Rattle.merge_log.specs.Walk.{leaves_of};
ghost use Rattle.merge_log.specs.declared.nodes.Entry.TheVariants as entry;

use crate::reader::{Leaf, TermsReader};
use crate::recent::RecentUnions;
use crate::under::StartsUnder;
use flow_model::{Loc, SourceByte};
use indexmap::IndexSet;
use no_memory::{Limit, NoMemory};
use source_runs::SourceRun;
use std::alloc::Global;
use std::marker::Model;

/// A node of a log: 0 is the empty one, and the others count up in the order of making.
pub type Node = u64;

/// What a node is made of. A run is of source bytes, with its fields as they are in [`SourceRun`]. The operands of a union
/// are nodes above 0 and below the union, the smaller one first.
#[derive(Clone, Copy, PartialEq, Eq, Hash)]
pub enum Entry {
    Source(SourceByte),
    Run { channel: u8, first: u32, last: u32 },
    Start(Loc),
    Union { left: u32, right: u32 },
}

/// The nodes of a log, each once. Node 0 has no entry, and node `n + 1` is the entry of index `n`.
///
/// A call that makes a node fails where there is no memory for it, or where 2^32 - 1 nodes were made. It then
/// changes nothing. It never fails where its node is there already.
#[derive(Drop)]
pub struct MergeLog {
    entries: IndexSet<Entry>,
    recent: RecentUnions,
    under: StartsUnder,
}

/// The most entries of a log: its nodes fit into 32 bits.
const MOST_ENTRIES: usize = u32::MAX as usize;

impl Model for MergeLog {
    ghost use Rattle.std.specs.Prelude.{List};
    ghost use Rattle.merge_log.specs.declared.nodes.Entry.{Entry};
    ghost use Rattle.merge_log.specs.Log.{IsLog};
    ghost use Rattle.merge_log.specs.Under.{AreUnder};

    ghost Value = { List Entry };

    ghost view = { λ log. log.entries.keys };

    ghost invariant = { λ log. IsLog log.entries.keys × AreUnder log.entries.keys log.under.leaves.items log.under.masks.items };
}

impl MergeLog {
    /// A log with the empty node alone. It takes no memory.
    pub fn new(alloc: Global) -> Self
        ensures { result ≡ [] }
    {
        MergeLog {
            entries: IndexSet::new(alloc),
            recent: RecentUnions::new(alloc),
            under: StartsUnder::new(alloc),
        }
    }

    /// Makes room for so many nodes more, where there is memory for them.
    pub fn reserve(&mut self, more: usize)
        ensures { self.new ≡ self.old }
    {
        let _reserved = self.entries.reserve(more).is_ok();
    }

    /// The number of nodes, node 0 included.
    pub fn size(&self) -> u64
        ensures { result ≡ length self.now + 1 }
    {
        self.entries.len() as u64 + 1
    }

    /// What is true of every log: no two nodes are alike, the operands of a union stand before it, and the leaves under a
    /// node are sets.
    pub fn form(&self)
        ensures log { IsLog self.now }
        ensures sets { (n : ℕ) → AreSets (terms self.now n) }
    {
        // what is known of the field is known from its first use on
        let _entries = self.entries.len();
    }

    /// The empty node.
    #[inline(always)]
    #[tactic(auto, using(crate::proofs::Terms::nothing_under_0))]
    pub fn nothing(&self) -> Node
        ensures number { result ≡ 0 }
        ensures terms { terms self.now result ≡ no_terms }
    {
        0
    }

    /// The node of one source byte.
    pub fn leaf_source(&mut self, byte: SourceByte) -> Result<Node, NoMemory>
        ensures terms { IfOk result (λ n. terms self.new n ≡ source_term byte) }
        ensures noted { IfOk result (λ n. IsNoted self.old (entry.Source byte) self.new n) }
        ensures kept { KeepsNodes self.old self.new }
        ensures there { Contains self.old (entry.Source byte) → IsOk result }
        ensures err { OnErr result (self.new ≡ self.old) }
    {
        self.insert(Entry::Source(byte))
    }

    /// The node of the source bytes of a run.
    pub fn leaf_run(&mut self, run: SourceRun) -> Result<Node, NoMemory>
        ensures terms { IfOk result (λ n. terms self.new n ≡ run_term run) }
        ensures noted { IfOk result (λ n. IsNoted self.old (run_entry run) self.new n) }
        ensures kept { KeepsNodes self.old self.new }
        ensures there { Contains self.old (run_entry run) → IsOk result }
        ensures err { OnErr result (self.new ≡ self.old) }
    {
        self.form(); // so that nodes fit into 32 bits
        let slot = self.recent.slot_of(run.first, run.last);
        let node = self.recent.node(slot);
        if self.is_leaf_of(node, run) {
            return Ok(node as u64);
        }
        let node = self.insert(Entry::Run {
            channel: run.channel,
            first: run.first,
            last: run.last,
        })?;
        self.recent.note(slot, node as u32);
        Ok(node)
    }

    /// The node of what a location has at the start.
    pub fn leaf_symbol(&mut self, loc: Loc) -> Result<Node, NoMemory>
        ensures terms { IfOk result (λ n. terms self.new n ≡ start_term loc) }
        ensures noted { IfOk result (λ n. IsNoted self.old (entry.Start loc) self.new n) }
        ensures kept { KeepsNodes self.old self.new }
        ensures there { Contains self.old (entry.Start loc) → IsOk result }
        ensures err { OnErr result (self.new ≡ self.old) }
    {
        self.insert(Entry::Start(loc))
    }

    /// The node of the leaves of two nodes. Where they are the same, and where one is empty, it is one of them, and else a
    /// union of its own, which is made unless it is there.
    #[inline(always)]
    pub fn union(&mut self, a: Node, b: Node) -> Result<Node, NoMemory>
        requires left { IsNode self.old a }
        requires right { IsNode self.old b }
        ensures terms { IfOk result (λ n. terms self.new n ≡ joined (terms self.old a) (terms self.old b)) }
        ensures united { IfOk result (λ n. IsUnited self.old a b self.new n) }
        ensures kept { KeepsNodes self.old self.new }
        ensures there { HasUnion self.old a b → IsOk result }
        ensures err { OnErr result (self.new ≡ self.old) }
    {
        match self.recent_union(a, b) {
            Some(node) => Ok(node),
            None => self.make_union(a, b),
        }
    }

    /// The node of the leaves of two nodes, with fewer nodes: where one is a union that has the other as an operand, it is that
    /// union, and so it is where one is a start location that is noted as under the other. Else it is [`MergeLog::union`].
    #[inline(always)]
    pub fn absorbing_union(&mut self, a: Node, b: Node) -> Result<Node, NoMemory>
        requires left { IsNode self.old a }
        requires right { IsNode self.old b }
        ensures terms { IfOk result (λ n. terms self.new n ≡ joined (terms self.old a) (terms self.old b)) }
        ensures absorbed { IfOk result (λ n. IsAbsorbed self.old a b self.new n) }
        ensures kept { KeepsNodes self.old self.new }
        ensures there { HasAbsorbingUnion self.old a b → IsOk result }
        ensures err { OnErr result (self.new ≡ self.old) }
    {
        if let Some(node) = self.absorber(a, b) {
            return Ok(node);
        }
        match self.recent_union(a, b) {
            Some(node) => Ok(node),
            None => self.absorb_or_make(a, b),
        }
    }

    /// The leaves under a node, each once: source bytes ascending, and then start locations ascending. It
    /// fails where there is no memory for them, or for a mark for each node. For many nodes take a reader.
    pub fn terms(&self, alloc: Global, node: Node) -> Result<Vec<Leaf>, NoMemory>
        requires { IsNode self.now node }
        ensures { IfOk result (λ leaves. leaves.items ≡ leaves_of (terms self.now node)) }
    {
        let mut reader = TermsReader::new(alloc);
        reader.read(self, node)?;
        reader.leaves(alloc)
    }

    /// What a node is made of.
    pub fn entry(&self, node: u32) -> Entry
        requires above_0 { 0 < node }
        requires stands { IsNode self.now node }
        ensures at { entry_at self.now node ≡ Some result }
        ensures before { HasOperandsBefore node result }
    {
        self.entries.as_slice()[node as usize - 1]
    }

    /// The union of two nodes, where it is one of them, or stands in the log and was asked for lately.
    #[inline(always)]
    fn recent_union(&self, a: Node, b: Node) -> Option<Node>
        requires left { IsNode self.now a }
        requires right { IsNode self.now b }
        ensures terms { IfSome result (λ n. terms self.now n ≡ joined (terms self.now a) (terms self.now b)) }
        ensures united { IfSome result (λ n. IsUnited self.now a b self.now n) }
        ensures none { result ≡ None → AreTwo a b }
    {
        self.form(); // so that nodes fit into 32 bits
        if a == b || b == 0 {
            return Some(a);
        }
        if a == 0 {
            return Some(b);
        }
        let (left, right) = in_order(a as u32, b as u32);
        let node = self.recent.node(self.recent.slot_of(left, right));
        if self.is_union_of(node, left, right) {
            return Some(node as u64);
        }
        None
    }

    /// The union of two nodes that differ, neither of them empty.
    fn make_union(&mut self, a: Node, b: Node) -> Result<Node, NoMemory>
        requires left { IsNode self.old a }
        requires right { IsNode self.old b }
        requires two { AreTwo a b }
        ensures terms { IfOk result (λ n. terms self.new n ≡ joined (terms self.old a) (terms self.old b)) }
        ensures united { IfOk result (λ n. IsUnited self.old a b self.new n) }
        ensures kept { KeepsNodes self.old self.new }
        ensures there { HasUnion self.old a b → IsOk result }
        ensures err { OnErr result (self.new ≡ self.old) }
    {
        self.form(); // so that nodes fit into 32 bits
        let (left, right) = in_order(a as u32, b as u32);
        self.insert_union(left, right)
    }

    /// The same, unless the smaller one is a start location that is noted as under the other: then it is the other one.
    #[inline(never)]
    fn absorb_or_make(&mut self, a: Node, b: Node) -> Result<Node, NoMemory>
        requires left { IsNode self.old a }
        requires right { IsNode self.old b }
        requires two { AreTwo a b }
        requires apart { AreApart self.old a b }
        ensures terms { IfOk result (λ n. terms self.new n ≡ joined (terms self.old a) (terms self.old b)) }
        ensures absorbed { IfOk result (λ n. IsAbsorbed self.old a b self.new n) }
        ensures kept { KeepsNodes self.old self.new }
        ensures there { HasUnion self.old a b → IsOk result }
        ensures err { OnErr result (self.new ≡ self.old) }
    {
        self.form(); // so that nodes fit into 32 bits
        let (left, right) = in_order(a as u32, b as u32);
        if self.under.has(right, left) {
            return Ok(right as u64);
        }
        self.make_union(a, b)
    }

    /// Which of two nodes is a union that has the other as an operand.
    #[inline(always)]
    fn absorber(&self, a: Node, b: Node) -> Option<Node>
        requires left { IsNode self.now a }
        requires right { IsNode self.now b }
        ensures terms { IfSome result (λ n. terms self.now n ≡ joined (terms self.now a) (terms self.now b)) }
        ensures absorbed { IfSome result (λ n. IsAbsorbed self.now a b self.now n) }
        ensures apart { result ≡ None → AreApart self.now a b }
    {
        self.form(); // so that nodes fit into 32 bits
        let (left, right) = in_order(a as u32, b as u32);
        if 0 < left && left < right && self.has_operand(right, left) {
            return Some(right as u64);
        }
        None
    }

    /// Whether a node is a union that has another node as an operand.
    #[inline(always)]
    fn has_operand(&self, node: u32, operand: u32) -> bool
        requires above_0 { 0 < node }
        requires stands { IsNode self.now node }
        ensures { IsTrue result ↔ HasOperand self.now node operand }
    {
        match self.entry(node) {
            Entry::Source(_) => false,
            Entry::Run { .. } => false,
            Entry::Start(_) => false,
            Entry::Union { left, right } => left == operand || right == operand,
        }
    }

    /// Whether a number is the node of the union of two others.
    #[inline(always)]
    fn is_union_of(&self, node: u32, left: u32, right: u32) -> bool
        ensures { IsTrue result → entry_at self.now node ≡ Some (entry.Union left right) }
    {
        if node == 0 || node as u64 >= self.size() {
            return false;
        }
        match self.entry(node) {
            Entry::Source(_) => false,
            Entry::Run { .. } => false,
            Entry::Start(_) => false,
            Entry::Union {
                left: one,
                right: other,
            } => one == left && other == right,
        }
    }

    /// Whether a number is the node of a run.
    #[inline(always)]
    fn is_leaf_of(&self, node: u32, run: SourceRun) -> bool
        ensures { IsTrue result → entry_at self.now node ≡ Some (run_entry run) }
    {
        if node == 0 || node as u64 >= self.size() {
            return false;
        }
        match self.entry(node) {
            Entry::Run {
                channel,
                first,
                last,
            } => channel == run.channel && first == run.first && last == run.last,
            Entry::Source(_) | Entry::Start(_) | Entry::Union { .. } => false,
        }
    }

    /// The node of a union, which is made unless it is there, and is noted at the slot of its operands.
    #[inline(never)]
    fn insert_union(&mut self, left: u32, right: u32) -> Result<Node, NoMemory>
        requires { HasOperandsBefore (length self.old + 1) (entry.Union left right) }
        ensures terms { IfOk result (λ n. terms self.new n ≡ joined (terms self.new left) (terms self.new right)) }
        ensures noted { IfOk result (λ n. IsNoted self.old (entry.Union left right) self.new n) }
        ensures kept { KeepsNodes self.old self.new }
        ensures there { Contains self.old (entry.Union left right) → IsOk result }
        ensures err { OnErr result (self.new ≡ self.old) }
    {
        let before = self.entries.len();
        let node = self.insert(Entry::Union { left, right })?;
        let slot = self.recent.slot_of(left, right);
        self.recent.note(slot, node as u32);
        if before < self.entries.len() {
            self.recent.fit(self.entries.len()); // where the node was there no memory is taken
        }
        Ok(node)
    }

    /// The node of an entry, which is made unless it is there.
    fn insert(&mut self, entry: Entry) -> Result<Node, NoMemory>
        requires { HasOperandsBefore (length self.old + 1) entry }
        ensures terms { IfOk result (λ n. terms self.new n ≡ entry_terms (terms self.new) entry) }
        ensures noted { IfOk result (λ n. IsNoted self.old entry self.new n) }
        ensures kept { KeepsNodes self.old self.new }
        ensures there { Contains self.old entry → IsOk result }
        ensures err { OnErr result (self.new ≡ self.old) }
    {
        if self.entries.len() < MOST_ENTRIES {
            let (index, _) = self.entries.insert_full(entry)?;
            self.under.note(index as u32 + 1, entry);
            return Ok(index as u64 + 1);
        }
        match self.entries.get_index_of(&entry) {
            Some(index) => Ok(index as u64 + 1),
            None => Err(NoMemory::past_count(Limit::MergedNodes, self.entries.len() as u64)),
        }
    }
}

/// Two nodes, the smaller one first.
#[inline(always)]
fn in_order(a: u32, b: u32) -> (u32, u32)
    ensures both { (result ≡ (a, b)) ⊎ (result ≡ (b, a)) }
    ensures ordered { result.0 ≤ result.1 }
{
    if a < b { (a, b) } else { (b, a) }
}
