//! What is known of an epoch by itself.

ghost use Rattle.std.specs.Prelude.{◌≡◌, ◌<◌, ◌-◌, Some, length, slice_get, IsTrue, OnOk};
ghost use Rattle.flow_model.specs.Ranges.{IsLocation};
ghost use Rattle.merge_log.specs.Log.{AreSets};
ghost use Rattle.taint_shadow.specs.Steps.{AreStanding};
ghost use Rattle.source_labels.specs.Words.{HaveNodesIn, node_words};

use flow_model::{Loc, SinkPoint};
use merge_log::TermsReader;
use no_memory::NoMemory;
use source_labels::Nodes;
use taint_shadow::{Label, Places, SinkLabel};
use terms_ahead::TermsAhead;

/// What the analysis of an epoch found: the terms of each location at the epoch's end, and the epoch's sinks with their
/// terms, in the order of the run. A location that the epoch doesn't touch takes no room.
#[derive(Drop)]
pub struct Summary {
    pub(crate) number: u32,
    pub(crate) nodes: Nodes,
    pub(crate) places: Places,
    pub(crate) sinks: Vec<SinkLabel>,
    ghost standing: { AreStanding node_words nodes places },
    ghost labelled: { HaveNodesIn nodes sinks.items },
}

impl Summary {
    ghost use Rattle.epoch_summary.specs.Summaries.{number_of, summary_of, summary_by, nodes_of, sinks_of, end_label, names_of, terms_of};
    ghost use Rattle.epoch_summary.specs.Ahead.{IsAhead};

    /// The summary of the epoch of this number, of the labels that its locations have at its end, and of its sinks in the
    /// order of the run, each with its label.
    pub fn new(number: u32, nodes: Nodes, places: Places, sinks: Vec<SinkLabel>) -> Summary
        requires standing { AreStanding node_words nodes places }
        requires labelled { HaveNodesIn nodes sinks.items }
        ensures number { number_of result ≡ number }
        ensures summary { summary_of result ≡ summary_by nodes places sinks.items }
    {
        Summary {
            number,
            nodes,
            places,
            sinks,
        }
    }

    /// The number of the epoch: 0 for the first.
    pub fn number(&self) -> u32
        ensures { result ≡ number_of self.now }
    {
        self.number
    }

    /// The labels that its locations and its sinks have.
    pub fn nodes(&self) -> &Nodes
        ensures { result.now ≡ nodes_of self.now }
    {
        &self.nodes
    }

    /// Its sinks in the order of the run, each with its label.
    pub fn sinks(&self) -> &[SinkLabel]
        ensures sinks { result.now ≡ sinks_of self.now }
        ensures stand { HaveNodesIn (nodes_of self.now) result.now }
    {
        &self.sinks
    }

    /// The label of a location at the epoch's end: that of what it had at the start where the epoch doesn't touch it.
    pub fn end_label(&self, loc: Loc) -> Label
        requires { IsLocation loc }
        ensures label { result ≡ end_label self.now loc }
        ensures stands { node_words.stands (nodes_of self.now) result }
    {
        self.places.get(loc)
    }

    /// Reads the terms of a location at the epoch's end: the location itself where the epoch doesn't touch it. When out
    /// of memory, the reader may have read part of them, and can go on with any label.
    pub fn end_terms(&self, reader: &mut TermsReader, loc: Loc) -> Result<(), NoMemory>
        requires { IsLocation loc }
        ensures read { OnOk result (reader.new ≡ (summary_of self.now).ends loc) }
        ensures ascending { OnOk result (AreSets reader.new) }
    {
        self.nodes.read(self.places.get(loc), reader)
    }

    /// The same as [`Summary::end_terms`], by terms that were read ahead: where those of this location aren't among them,
    /// they are read, and where such have many terms those of the locations after it with them, by one walk.
    pub fn end_terms_ahead(
        &self,
        ahead: &mut TermsAhead,
        reader: &mut TermsReader,
        loc: Loc,
    ) -> Result<(), NoMemory>
        requires location { IsLocation loc }
        requires ahead { IsAhead self.now ahead.old }
        ensures ahead { IsAhead self.now ahead.new }
        ensures read { OnOk result (reader.new ≡ (summary_of self.now).ends loc) }
        ensures ascending { OnOk result (AreSets reader.new) }
    {
        ahead.read_end(&self.nodes, &self.places, loc, reader)
    }

    /// Whether two locations have one label at the epoch's end, and so the same terms. Where it answers no the terms may be
    /// equal all the same.
    pub fn share_end_terms(&self, one: Loc, other: Loc) -> bool
        requires one { IsLocation one }
        requires other { IsLocation other }
        ensures { IsTrue result → (summary_of self.now).ends one ≡ (summary_of self.now).ends other }
    {
        self.places.get(one) == self.places.get(other)
    }

    /// How many sinks the epoch has.
    pub fn sink_count(&self) -> usize
        ensures { result ≡ length (summary_of self.now).sinks }
    {
        self.sinks.len()
    }

    /// The sink of this number, counted from 0 in the order of the run.
    pub fn sink(&self, number: usize) -> SinkPoint
        requires { number < length (summary_of self.now).sinks }
        ensures { slice_get (names_of self.now) number ≡ Some result }
    {
        self.sinks[number].name
    }

    /// Whether the sink of this number has the label of the one before it, and so its terms. Where it answers no the terms
    /// may be equal all the same.
    pub fn shares_terms(&self, number: usize) -> bool
        requires { number < length (summary_of self.now).sinks }
        ensures not_first { IsTrue result → 0 < number }
        ensures shared { IsTrue result
            → slice_get (terms_of self.now) number ≡ slice_get (terms_of self.now) (number - 1) }
    {
        number > 0 && self.sinks[number].label == self.sinks[number - 1].label
    }

    /// Reads the terms of the sink of this number. When out of memory, the reader may have read part of them, and can
    /// go on with any label.
    pub fn sink_terms(&self, reader: &mut TermsReader, number: usize) -> Result<(), NoMemory>
        requires { number < length (summary_of self.now).sinks }
        ensures read { OnOk result (slice_get (terms_of self.now) number ≡ Some reader.new) }
        ensures ascending { OnOk result (AreSets reader.new) }
    {
        self.nodes.read(self.sinks[number].label, reader)
    }

    /// The same as [`Summary::sink_terms`], by terms that were read ahead: where those of this sink aren't among them,
    /// they are read, and where sinks have many terms those of the next sinks with them, by one walk.
    pub fn sink_terms_ahead(
        &self,
        ahead: &mut TermsAhead,
        reader: &mut TermsReader,
        number: usize,
    ) -> Result<(), NoMemory>
        requires inside { number < length (summary_of self.now).sinks }
        requires ahead { IsAhead self.now ahead.old }
        ensures ahead { IsAhead self.now ahead.new }
        ensures read { OnOk result (slice_get (terms_of self.now) number ≡ Some reader.new) }
        ensures ascending { OnOk result (AreSets reader.new) }
    {
        let label = self.sinks[number].label;
        ahead.read_sink(&self.nodes, label, &self.sinks, number, reader)
    }
}
