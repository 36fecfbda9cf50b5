//! What is kept of an epoch until it is joined to those before it.

ghost use Rattle.std.specs.Prelude.{◌≡◌, map, All, IfOk};
ghost use Rattle.flow_model.specs.Ranges.{IsLocation};
ghost use Rattle.source_labels.specs.Words.{node_words};
ghost use Rattle.epoch_summary.specs.Summaries.{end_label, nodes_of, summary_of};
ghost use Rattle.summary_join.specs.Needs.{AreNeeded};

use crate::needs::find_needs;
use epoch_summary::{Asked, Summary};
use no_memory::NoMemory;
use std::alloc::Global;
use taint_shadow::Label;

/// What the analysis of an epoch found, what the next epoch asks of it, and what is needed for both.
#[derive(Drop)]
pub struct Piece {
    pub(crate) summary: Summary,
    // The locations that the next epoch asks for, and the labels of its own that they have at the epoch's end.
    pub(crate) requests: Asked,
    pub(crate) ends: Vec<Label>,
    // Whether the sinks or those labels come from the node of this number.
    pub(crate) marks: Vec<bool>,
    ghost at_end: { ends.items ≡ map (end_label summary) requests },
    ghost needed: { AreNeeded summary ends.items marks.items },
}

impl Piece {
    ghost use Rattle.summary_join.specs.Pieces.{IsPiece};

    /// Of an epoch that the next one asks for these locations. It gives also what the epoch asks of the one before it:
    /// each location at its start that its sinks, or the requests, come from. It gives up with NoMemory alone.
    pub fn new(alloc: Global, summary: Summary, requests: Asked) -> Result<(Piece, Asked), NoMemory>
        requires { All IsLocation requests }
        ensures requests { IfOk result (λ r. r.0.requests ≡ requests) }
        ensures piece { IfOk result (λ r. IsPiece (summary_of summary) r.1 r.0) }
    {
        let ends = labels_at_end(alloc, &summary, &requests)?;
        let (marks, asked) = find_needs(alloc, &summary, &ends)?;
        let piece = Piece {
            summary,
            requests,
            ends,
            marks,
        };
        Ok((piece, asked))
    }

    /// How many nodes of its log are needed.
    pub fn needed_nodes(&self) -> usize {
        self.marks.iter().filter(|is_needed| **is_needed).count()
    }
}

/// The labels of these locations at the epoch's end.
fn labels_at_end(alloc: Global, summary: &Summary, requests: &Asked) -> Result<Vec<Label>, NoMemory>
    requires { All IsLocation requests.now }
    ensures labels { IfOk result (λ ends. ends.items ≡ map (end_label summary.now) requests.now) }
    ensures stand { IfOk result (λ ends. All (node_words.stands (nodes_of summary.now)) ends.items) }
{
    let mut ends = Vec::with_capacity(alloc, requests.count())?;
    let locations = requests.locations();
    for place in 0..locations.len() {
        ends.push(summary.end_label(locations[place]))?;
    }
    Ok(ends)
}
