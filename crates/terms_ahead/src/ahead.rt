//! What is read ahead, and how far.

ghost use Rattle.std.specs.Prelude.{◌≡◌, ◌<◌, ◌≤◌, ◌⊎◌, ◌∷◌, ◌++◌, [], List, Some, slice_get, IfOk, IfSome, IsTrue, OnOk};
ghost use Rattle.flow_model.specs.Ranges.{IsLocation};
ghost use Rattle.taint_shadow.specs.Labels.{kind_of};
ghost use Rattle.taint_shadow.specs.Steps.{AreStanding, meaning_at};
ghost use Rattle.taint_shadow.specs.declared.labels.LabelKind.TheVariants as kind;
ghost use Rattle.merge_log.specs.declared.nodes.Entry.{Entry};
ghost use Rattle.merge_log.specs.Log.{IsNode, terms};
ghost use Rattle.source_labels.specs.Words.{HaveNodesIn, log_of, node_or_nothing, node_words};
ghost use Rattle.terms_ahead.specs.Ahead.{AreNext, IsOfLog};

use flow_model::Loc;
use merge_log::{MOST_ROOTS, ManyTerms, MergeLog, Node, TermsReader};
use no_memory::NoMemory;
use source_labels::Nodes;
use source_runs::SourceRun;
use std::alloc::Global;
use std::mem;
use taint_shadow::{Label, LabelKind, Places, SinkLabel};

/// The terms of sinks, or of locations, whose labels are nodes of one log, that were read by one walk, ahead of their use:
/// neighbours have most of what is under their nodes in common.
#[derive(Drop)]
pub struct TermsAhead {
    alloc: Global,
    // The nodes that were read, each once.
    nodes: Vec<Node>,
    // The terms of these nodes.
    held: ManyTerms,
    // How many terms were read lately: about twice those of a node, where each has as many.
    lately: usize,
    // The location that was read last.
    last: Option<Loc>,
}

/// Where fewer terms were read lately, a node is read by itself.
const WORTH: usize = 64;

/// About so many terms are held at most, where each node has as many as those before.
const MOST_HELD: usize = 1_048_576;

/// So far apart are locations at most that are read together.
const NEAR: u32 = 256;

impl TermsAhead {
    /// The terms of no node. It takes no memory.
    pub fn new(alloc: Global) -> Self
        ensures { (log : List Entry) → IsOfLog log result }
    {
        TermsAhead {
            alloc,
            nodes: Vec::new(alloc),
            held: ManyTerms::new(alloc),
            lately: 0,
            last: None,
        }
    }

    /// Reads the terms of a label, which is that of sink number `first` of these, and perhaps those of the sinks after it. When
    /// out of memory, the reader may have read part of them, and can go on with any label, and so can what is read ahead.
    pub fn read_sink(
        &mut self,
        nodes: &Nodes,
        label: Label,
        sinks: &[SinkLabel],
        first: usize,
        reader: &mut TermsReader,
    ) -> Result<(), NoMemory>
        requires stands { node_words.stands nodes.now label }
        requires named { HaveNodesIn nodes.now sinks.now }
        requires of_log { IsOfLog (log_of nodes.now) self.old }
        ensures of_log { IsOfLog (log_of nodes.now) self.new }
        ensures read { OnOk result (reader.new ≡ node_words.means nodes.now label) }
    {
        let Some(node) = node_of(label) else {
            return nodes.read(label, reader);
        };
        let log = nodes.log();
        if self.read_held(log, node, reader)? {
            return Ok(());
        }
        if self.lately < WORTH {
            return self.read_one(log, node, reader);
        }
        let next = next_sinks(self.alloc, nodes, node, sinks, first, self.most())?;
        self.read_all(log, node, next, reader)
    }

    /// Reads the terms of a location, by the label that is kept for it, and perhaps those of the locations after it. When out
    /// of memory, the reader may have read part of them, and can go on with any label, and so can what is read ahead.
    pub fn read_end(
        &mut self,
        nodes: &Nodes,
        places: &Places,
        loc: Loc,
        reader: &mut TermsReader,
    ) -> Result<(), NoMemory>
        requires standing { AreStanding node_words nodes.now places.now }
        requires location { IsLocation loc }
        requires of_log { IsOfLog (log_of nodes.now) self.old }
        ensures of_log { IsOfLog (log_of nodes.now) self.new }
        ensures read { OnOk result (reader.new ≡ meaning_at node_words nodes.now places.now loc) }
    {
        let label = places.get(loc);
        let Some(node) = node_of(label) else {
            return nodes.read(label, reader);
        };
        let log = nodes.log();
        let last = self.last.replace(loc);
        if self.read_held(log, node, reader)? {
            return Ok(());
        }
        if self.lately < WORTH || !is_near(last, loc) {
            return self.read_one(log, node, reader);
        }
        let next = next_ends(self.alloc, nodes, node, places, loc, self.most())?;
        self.read_all(log, node, next, reader)
    }

    /// Reads the terms of a node, where that takes no walk: it is the empty one, or its terms are held. Else it answers no.
    fn read_held(
        &mut self,
        log: &MergeLog,
        node: Node,
        reader: &mut TermsReader,
    ) -> Result<bool, NoMemory>
        requires stands { IsNode log.now node }
        requires of_log { IsOfLog log.now self.old }
        ensures of_log { IsOfLog log.now self.new }
        ensures read { IfOk result (λ is_read. IsTrue is_read → reader.new ≡ terms log.now node) }
    {
        if node == 0 {
            reader.read(log, node)?;
            return Ok(true);
        }
        let Some(place) = self.place_of(node) else {
            return Ok(false);
        };
        self.held.copy(place, reader)?;
        self.note(reader);
        Ok(true)
    }

    /// Reads the terms of a node by itself.
    fn read_one(
        &mut self,
        log: &MergeLog,
        node: Node,
        reader: &mut TermsReader,
    ) -> Result<(), NoMemory>
        requires { IsNode log.now node }
        ensures nodes { self.new.nodes ≡ self.old.nodes }
        ensures held { self.new.held ≡ self.old.held }
        ensures read { OnOk result (reader.new ≡ terms log.now node) }
    {
        reader.read(log, node)?;
        self.note(reader);
        Ok(())
    }

    /// Reads the terms of these nodes by one walk, and gives those of the first.
    fn read_all(
        &mut self,
        log: &MergeLog,
        node: Node,
        next: Vec<Node>,
        reader: &mut TermsReader,
    ) -> Result<(), NoMemory>
        requires next { AreNext log.now node next.items }
        requires of_log { IsOfLog log.now self.old }
        ensures of_log { IsOfLog log.now self.new }
        ensures read { OnOk result (reader.new ≡ terms log.now node) }
    {
        let mut held = mem::replace(&mut self.held, ManyTerms::new(self.alloc));
        self.nodes.clear();
        held.read(log, &next)?;
        self.held = held;
        self.nodes = next;
        self.held.copy(0, reader)?;
        self.note(reader);
        Ok(())
    }

    /// The place of a node among those whose terms are held.
    fn place_of(&self, node: Node) -> Option<usize>
        ensures { IfSome result (λ place. slice_get self.now.nodes.items place ≡ Some node) }
    {
        for place in 0..self.nodes.len() {
            if self.nodes[place] == node {
                return Some(place);
            }
        }
        None
    }

    /// How many nodes the next walk reads: the fewer, the more terms they have.
    fn most(&self) -> usize
        ensures some { 0 < result }
        ensures few { result ≤ 64 }
    {
        (2 * MOST_HELD / self.lately.max(1)).max(2).min(MOST_ROOTS)
    }

    /// Notes how many terms were read.
    fn note(&mut self, reader: &TermsReader)
        ensures nodes { self.new.nodes ≡ self.old.nodes }
        ensures held { self.new.held ≡ self.old.held }
    {
        let count = byte_count(reader.runs()).saturating_add(reader.starts().len());
        self.lately = (self.lately / 2).saturating_add(count);
    }
}

/// How many source bytes these runs have; the greatest number where they are more.
fn byte_count(runs: &[SourceRun]) -> usize {
    let mut count = 0usize;
    for run in runs {
        let more = run.last.saturating_sub(run.first) as usize;
        count = count.saturating_add(more).saturating_add(1);
    }
    count
}

/// Whether a location comes soon after the one that was read last.
fn is_near(last: Option<Loc>, loc: Loc) -> bool {
    match (last, loc) {
        (Some(Loc::Mem { place: last }), Loc::Mem { place }) => place.wrapping_sub(last) <= NEAR,
        (Some(Loc::Reg { .. }), Loc::Reg { .. }) => true,
        _ => false,
    }
}

/// The location after one: the next byte, or the next lane of a register.
fn after(loc: Loc) -> Option<Loc>
    requires { IsLocation loc }
    ensures { IfSome result IsLocation }
{
    match loc {
        Loc::Mem { place } => Some(Loc::Mem {
            place: place.checked_add(1)?,
        }),
        Loc::Reg { number, lane } if lane < 3 => Some(Loc::Reg {
            number,
            lane: lane + 1,
        }),
        Loc::Reg { number, .. } if number < 31 => Some(Loc::Reg {
            number: number + 1,
            lane: 0,
        }),
        Loc::Reg { .. } => None,
    }
}

/// A node, and then those of these sinks, from the first one on, each once, `most` nodes in all at most.
fn next_sinks(
    alloc: Global,
    nodes: &Nodes,
    node: Node,
    sinks: &[SinkLabel],
    first: usize,
    most: usize,
) -> Result<Vec<Node>, NoMemory>
    requires stands { IsNode (log_of nodes.now) node }
    requires named { HaveNodesIn nodes.now sinks.now }
    requires some { 0 < most }
    requires few { most ≤ 64 }
    ensures { IfOk result (λ next. AreNext (log_of nodes.now) node next.items) }
{
    let mut next = Vec::new(alloc);
    next.push(node)?;
    for number in first..sinks.len() {
        if next.len() >= most {
            break;
        }
        add_node(&mut next, sinks[number].label)?;
    }
    Ok(next)
}

/// A node, and then those that the locations after this one have, each once, `most` nodes in all at most.
fn next_ends(
    alloc: Global,
    nodes: &Nodes,
    node: Node,
    places: &Places,
    loc: Loc,
    most: usize,
) -> Result<Vec<Node>, NoMemory>
    requires stands { IsNode (log_of nodes.now) node }
    requires standing { AreStanding node_words nodes.now places.now }
    requires location { IsLocation loc }
    requires some { 0 < most }
    requires few { most ≤ 64 }
    ensures { IfOk result (λ next. AreNext (log_of nodes.now) node next.items) }
{
    let mut next = Vec::new(alloc);
    next.push(node)?;
    let mut here = loc;
    for _ in 0..NEAR {
        if next.len() >= most {
            break;
        }
        let Some(there) = after(here) else {
            break;
        };
        add_node(&mut next, places.get(there))?;
        here = there;
    }
    Ok(next)
}

/// The node of a label that is one.
fn node_of(label: Label) -> Option<Node>
    ensures { IfSome result (λ node. kind_of label ≡ kind.Node node) }
{
    match label.kind() {
        LabelKind::Node(node) => Some(node as Node),
        LabelKind::Start(_) | LabelKind::Run(_) => None,
    }
}

/// Adds the node of a label, where it has one with terms that isn't there.
fn add_node(next: &mut Vec<Node>, label: Label) -> Result<(), NoMemory>
    ensures { OnOk result
        ((next.new.items ≡ next.old.items)
        ⊎ (next.new.items ≡ next.old.items ++ node_or_nothing (kind_of label) ∷ [])) }
{
    if let Some(node) = node_of(label) {
        if node > 0 && !next.contains(&node) {
            next.push(node)?;
        }
    }
    Ok(())
}
