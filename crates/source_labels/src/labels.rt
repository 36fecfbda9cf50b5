//! Labels as sets of source bytes: what was anywhere at the start of a run came from none.

ghost use Rattle.std.specs.Prelude.{◌≡◌, ◌<◌, ◌↔◌, [], length, IsTrue, IfOk, OnOk};
ghost use Rattle.source_runs.specs.Runs.{bytes_of};
ghost use Rattle.taint_shadow.specs.Labels.{Makes};
ghost use Rattle.source_labels.specs.Words.{label_words, log_of, nodes_of};

use crate::nodes::Nodes;
use flow_model::SourceByte;
use merge_log::TermsReader;
use no_memory::NoMemory;
use source_runs::SourceRun;
use std::alloc::Global;
use std::collections::LinkedList;
use taint_shadow::{Label, LabelKind, Labels};

/// Makes labels of source bytes, and unites them. A run of bytes is a label by itself; other sets are nodes of a log.
#[derive(Drop)]
pub struct SourceLabels {
    nodes: Nodes,
}

impl SourceLabels {
    /// No node but the empty one. It takes no memory.
    pub fn new(alloc: Global) -> Self
        ensures { log_of (nodes_of result) ≡ [] }
    {
        SourceLabels {
            nodes: Nodes::new(alloc),
        }
    }

    /// Makes room for so many nodes more, where there is memory for them.
    pub fn reserve(&mut self, more: usize)
        ensures { self.new ≡ self.old }
    {
        self.nodes.reserve(more);
    }

    /// The same labels, each with its terms: it stands for the source bytes among them.
    pub fn nodes(&self) -> &Nodes
        ensures { result.now ≡ nodes_of self.now }
    {
        &self.nodes
    }

    /// Whether the label stands for a source byte.
    #[inline(always)]
    pub fn has_source(&self, label: Label) -> bool
        requires { label_words.stands self.now label }
        ensures { IsTrue result ↔ (0 < length (label_words.means self.now label)) }
    {
        match label.kind() {
            LabelKind::Node(node) => node > 0,
            LabelKind::Start(_) => false,
            LabelKind::Run(_) => true,
        }
    }

    /// The label of the source bytes of a run: that of nothing where its last offset is below the first. A run whose channel
    /// or last offset is too large for a label's number has a node.
    pub fn run(&mut self, run: SourceRun) -> Result<Label, NoMemory>
        ensures { IfOk result (Makes label_words self.old (bytes_of run) self.new) }
    {
        if run.last < run.first {
            return Ok(Label::nothing());
        }
        match Label::run(run) {
            Some(label) => Ok(label),
            None => self.nodes.run_node(run),
        }
    }

    /// Reads the source bytes of a label. When out of memory, the reader may have read part of them, and can go on with any
    /// label.
    pub fn read(&self, label: Label, reader: &mut TermsReader) -> Result<(), NoMemory>
        requires { label_words.stands self.now label }
        ensures { OnOk result (reader.new.sources ≡ label_words.means self.now label) }
    {
        self.nodes.read(label, reader)
    }
}

impl Labels for SourceLabels {
    ghost use Rattle.source_labels.specs.Words.{label_words};
    ghost use Rattle.source_labels.specs.Laws.{label_laws};

    type Meaning = LinkedList<SourceByte>;

    ghost words = { label_words };

    ghost laws = { label_laws };

    fn source(&mut self, byte: SourceByte) -> Result<Label, NoMemory> {
        self.nodes.source(byte)
    }

    /// No node is made where the labels are equal, one of them has no source byte, or a run has both.
    #[inline(always)]
    fn unite(&mut self, left: Label, right: Label) -> Result<Label, NoMemory> {
        if left == right {
            return Ok(left);
        }
        if !self.has_source(right) {
            return Ok(left);
        }
        if !self.has_source(left) {
            return Ok(right);
        }
        self.nodes.unite_two(left, right)
    }
}
