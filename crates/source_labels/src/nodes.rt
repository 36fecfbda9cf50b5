//! Labels as terms: nodes of a log, runs of source bytes, and what locations had at the start.

ghost use Rattle.std.specs.Prelude.{◌≡◌, [], IfOk, IfSome, OnOk};
ghost use Rattle.merge_log.specs.Log.{AreSets, IsNode, KeepsNodes, run_term, terms};
ghost use Rattle.taint_shadow.specs.Labels.{MakesLabel, Makes, mean_together};
ghost use Rattle.source_labels.specs.Words.{log_of, node_words};

use flow_model::SourceByte;
use merge_log::{MergeLog, Node, TermsReader};
use no_memory::NoMemory;
use source_runs::SourceRun;
use std::alloc::Global;
use taint_shadow::{Label, LabelKind, Labels};

/// Makes nodes, and unites them, in a log. What a location had at the start, and a run of source bytes, has no node until it is
/// united with another label that isn't such a run beside it: most of what an epoch touches it only moves.
#[derive(Drop)]
pub struct Nodes {
    log: MergeLog,
}

impl Nodes {
    /// No node but the empty one. It takes no memory.
    pub fn new(alloc: Global) -> Nodes
        ensures { log_of result ≡ [] }
    {
        Nodes {
            log: MergeLog::new(alloc),
        }
    }

    /// Makes room for so many nodes more, where there is memory for them.
    pub(crate) fn reserve(&mut self, more: usize)
        ensures { self.new ≡ self.old }
    {
        self.log.reserve(more);
    }

    /// The log whose nodes are labels.
    pub fn log(&self) -> &MergeLog
        ensures { result.now ≡ log_of self.now }
    {
        &self.log
    }

    /// The label of a node.
    #[inline(always)]
    fn label_of(&self, node: Node) -> Label
        requires { IsNode self.now.log node }
        ensures { MakesLabel node_words self.now (terms self.now.log node) result }
    {
        self.log.form(); // so that nodes fit into 32 bits
        Label::node(node as u32)
    }

    /// The node of a label, which is made unless it is there.
    #[inline(always)]
    fn node_of(&mut self, label: Label) -> Result<Node, NoMemory>
        requires { node_words.stands self.old label }
        ensures stands { IfOk result (λ n. IsNode self.new.log n) }
        ensures means { IfOk result (λ n. terms self.new.log n ≡ node_words.means self.old label) }
        ensures keeps { KeepsNodes self.old.log self.new.log }
    {
        match label.kind() {
            LabelKind::Node(node) => Ok(node as Node),
            LabelKind::Start(loc) => self.log.leaf_symbol(loc),
            LabelKind::Run(run) => self.log.leaf_run(run),
        }
    }

    /// The label of the union of two labels' nodes.
    #[inline(never)]
    fn unite_nodes(&mut self, left: Label, right: Label) -> Result<Label, NoMemory>
        requires left { node_words.stands self.old left }
        requires right { node_words.stands self.old right }
        ensures { IfOk result (Makes node_words self.old (mean_together node_words self.old left right) self.new) }
    {
        let one = self.node_of(left)?;
        let other = self.node_of(right)?;
        let node = self.log.absorbing_union(one, other)?;
        Ok(self.label_of(node))
    }

    /// The label of the node of one source byte.
    fn source_node(&mut self, byte: SourceByte) -> Result<Label, NoMemory>
        ensures { IfOk result (Makes node_words self.old (node_words.source byte) self.new) }
    {
        let node = self.log.leaf_source(byte)?;
        Ok(self.label_of(node))
    }

    /// The label of the node of the source bytes of a run.
    pub(crate) fn run_node(&mut self, run: SourceRun) -> Result<Label, NoMemory>
        ensures { IfOk result (Makes node_words self.old (run_term run) self.new) }
    {
        let node = self.log.leaf_run(run)?;
        Ok(self.label_of(node))
    }

    /// The label of the run of both, where both are runs that overlap or touch.
    #[inline(always)]
    fn run_of_both(&self, left: Label, right: Label) -> Option<Label>
        ensures { IfSome result (MakesLabel node_words self.now (mean_together node_words self.now left right)) }
    {
        match (left.kind(), right.kind()) {
            (LabelKind::Run(one), LabelKind::Run(other)) => Label::run(one.joined(other)?),
            _ => None,
        }
    }

    /// The label of two labels together that differ, neither of them that of nothing.
    #[inline(never)]
    pub(crate) fn unite_two(&mut self, left: Label, right: Label) -> Result<Label, NoMemory>
        requires left { node_words.stands self.old left }
        requires right { node_words.stands self.old right }
        ensures { IfOk result (Makes node_words self.old (mean_together node_words self.old left right) self.new) }
    {
        match self.run_of_both(left, right) {
            Some(label) => Ok(label),
            None => self.unite_nodes(left, right),
        }
    }

    /// Reads the terms of a label. When out of memory, the reader may have read part of them, and can go on with any label.
    pub fn read(&self, label: Label, reader: &mut TermsReader) -> Result<(), NoMemory>
        requires { node_words.stands self.now label }
        ensures read { OnOk result (reader.new ≡ node_words.means self.now label) }
        ensures ascending { OnOk result (AreSets reader.new) }
    {
        match label.kind() {
            LabelKind::Node(node) => reader.read(&self.log, node as Node),
            LabelKind::Start(loc) => reader.read_start(loc),
            LabelKind::Run(run) => reader.read_run(run),
        }
    }
}

impl Labels for Nodes {
    ghost use Rattle.source_labels.specs.Words.{node_words};
    ghost use Rattle.source_labels.specs.Laws.{node_laws};

    /// What a label means is what a reader reads of it.
    type Meaning = TermsReader;

    ghost words = { node_words };

    ghost laws = { node_laws };

    fn source(&mut self, byte: SourceByte) -> Result<Label, NoMemory> {
        match Label::run(SourceRun::of_byte(byte)) {
            Some(label) => Ok(label),
            None => self.source_node(byte),
        }
    }

    /// No node is made where the labels are equal, one of them came from nowhere, or both are runs of source bytes that overlap
    /// or touch.
    #[inline(always)]
    fn unite(&mut self, left: Label, right: Label) -> Result<Label, NoMemory> {
        if left == right {
            return Ok(left);
        }
        if right.is_nothing() {
            return Ok(left);
        }
        if left.is_nothing() {
            return Ok(right);
        }
        self.unite_two(left, right)
    }
}
