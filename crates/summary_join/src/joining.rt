//! The epochs of a run, joined from the first to the last.

ghost use Rattle.std.specs.Prelude.{◌≡◌, map, All, IfOk};
ghost use Rattle.flow_model.specs.Ranges.{IsLocation};
ghost use Rattle.report_model.specs.Rows.{rows_as_written};
ghost use Rattle.epoch_summary.specs.Summaries.{summary_of};
ghost use Rattle.labelled_sinks.specs.Rows.{SinksStand};
ghost use Rattle.summary_join.specs.First.{found_of};
ghost use Rattle.summary_join.specs.Labels.{AllStand};
ghost use Rattle.summary_join.specs.Pieces.{ArePieces};
ghost use Rattle.summary_join.specs.Runs.{AreOfRun, AreOfRunAfter, AreOfStretch, CutTrace};
ghost use Rattle.summary_join.specs.UpTo.{IsUpTo};

use crate::cut::CutLabels;
use crate::epoch::join_epoch;
use crate::first::FirstEpoch;
use crate::piece::Piece;
use epoch_summary::{Asked, Summary};
use labelled_sinks::LabelledSinks;
use no_memory::NoMemory;
use source_labels::SourceLabels;
use std::alloc::Global;
use taint_shadow::SinkLabel;

/// The sinks of a run, in its order, each with a label, of the summaries of all its epochs, where it is cut and analysed in
/// any way: each output byte and each point that the query asks for. They come to the rows of the run. A summary is let go as
/// soon as its nodes are labelled. It gives up with NoMemory alone.
pub fn join(alloc: Global, summaries: Vec<Summary>) -> Result<LabelledSinks, NoMemory>
    requires { (run : CutTrace) × AreOfRun run (map summary_of summaries.items) }
    ensures { (run : CutTrace) → AreOfRun run (map summary_of summaries.items)
        → IfOk result (λ sinks. sinks ≡ rows_as_written run.query run.trace) }
{
    let (pieces, asked) = ask(alloc, summaries)?;
    let cut = CutLabels::before_all(alloc, asked);
    let labels = SourceLabels::new(alloc);
    label(alloc, labels, cut, pieces, Vec::new(alloc))
}

/// The sinks of a run, as [`join`] gives them, of what the analysis of its first epoch found and of the summaries of the later
/// ones. The one log begins as that of the first epoch, of which no node is looked at. It gives up with NoMemory alone.
pub fn join_after(
    alloc: Global,
    first: FirstEpoch,
    later: Vec<Summary>,
) -> Result<LabelledSinks, NoMemory>
    requires { (run : CutTrace) × AreOfRunAfter run (found_of first) (map summary_of later.items) }
    ensures { (run : CutTrace) → AreOfRunAfter run (found_of first) (map summary_of later.items)
        → IfOk result (λ sinks. sinks ≡ rows_as_written run.query run.trace) }
{
    let FirstEpoch {
        labels,
        places,
        sinks,
    } = first;
    let (pieces, asked) = ask(alloc, later)?;
    let cut = CutLabels::of_places(alloc, asked, &places)?;
    drop(places);
    label(alloc, labels, cut, pieces, sinks)
}

/// The pieces of these epochs, that of the last one first, and what the first of them asks for, all of it locations: each
/// epoch asks the one before it for what its sinks and the next epoch's requests come from. It gives up with NoMemory alone.
fn ask(alloc: Global, mut summaries: Vec<Summary>) -> Result<(Vec<Piece>, Asked), NoMemory>
    requires { AreOfStretch (map summary_of summaries.items) }
    ensures pieces { IfOk result (λ r. ArePieces (map summary_of summaries.items) r.1 r.0.items) }
    ensures located { IfOk result (λ r. All IsLocation r.1) }
{
    let mut pieces = Vec::with_capacity(alloc, summaries.len())?;
    let mut asked = Asked::new(alloc);
    while let Some(summary) = summaries.pop() {
        let (piece, earlier) = Piece::new(alloc, summary, asked)?;
        pieces.push(piece)?;
        asked = earlier;
    }
    Ok((pieces, asked))
}

/// The sinks of a run, which is joined up to a cut: these sinks, with labels in one log, and those of the later epochs, of
/// their pieces, that of the last one first. It gives up with NoMemory alone.
fn label(
    alloc: Global,
    mut labels: SourceLabels,
    mut cut: CutLabels,
    mut pieces: Vec<Piece>,
    mut sinks: Vec<SinkLabel>,
) -> Result<LabelledSinks, NoMemory>
    requires cut { AllStand labels cut.labels.items }
    requires sinks { SinksStand labels sinks.items }
    ensures { (run : CutTrace) → IsUpTo run labels cut pieces.items sinks.items
        → IfOk result (λ all. all ≡ rows_as_written run.query run.trace) }
{
    make_room(&mut labels, &mut sinks, &pieces)?;
    while let Some(piece) = pieces.pop() {
        cut = join_epoch(alloc, &mut labels, &cut, piece, &mut sinks)?;
    }
    Ok(LabelledSinks::new(labels, sinks))
}

/// Makes room for the nodes and the sinks of these pieces, so that neither the one log nor the list grows step by step: to put a
/// large log's nodes into a larger table takes as long as to make them.
fn make_room(
    labels: &mut SourceLabels,
    sinks: &mut Vec<SinkLabel>,
    pieces: &[Piece],
) -> Result<(), NoMemory>
    ensures labels { labels.new ≡ labels.old }
    ensures sinks { sinks.new.items ≡ sinks.old.items }
{
    let mut nodes = 0usize;
    let mut rows = 0usize;
    for piece in pieces {
        nodes = nodes.saturating_add(piece.needed_nodes());
        rows = rows.saturating_add(piece.summary.sink_count());
    }
    labels.reserve(nodes);
    sinks.reserve_exact(rows)?;
    Ok(())
}
