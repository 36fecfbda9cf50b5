//! The labels of an epoch's own, carried into the one log.

ghost use Rattle.std.specs.Prelude.{◌≡◌, ◌++◌, map, IfOk, OnOk};
ghost use Rattle.taint_shadow.specs.Labels.{KeepsLabels};
ghost use Rattle.source_labels.specs.Words.{label_words};
ghost use Rattle.epoch_summary.specs.Summaries.{sinks_of};
ghost use Rattle.summary_join.specs.Labels.{AllStand, carried, carried_sink};
ghost use Rattle.labelled_sinks.specs.Rows.{SinksStand};
ghost use Rattle.summary_join.specs.Joins.{IsJoined};

use crate::cut::{CutLabels, label_or_nothing};
use crate::nodes::label_nodes;
use crate::piece::Piece;
use epoch_summary::Summary;
use no_memory::NoMemory;
use source_labels::SourceLabels;
use std::alloc::Global;
use taint_shadow::{Label, LabelKind, SinkLabel};

/// Puts the sinks of an epoch after those of the earlier ones, each with its label in the one log, and gives what the
/// locations that the next epoch asks for had at the epoch's end. The epoch is let go. When out of memory, part of this
/// may be done.
pub fn join_epoch(
    alloc: Global,
    labels: &mut SourceLabels,
    cut: &CutLabels,
    piece: Piece,
    sinks: &mut Vec<SinkLabel>,
) -> Result<CutLabels, NoMemory>
    requires cut { AllStand labels.old cut.now.labels.items }
    requires sinks { SinksStand labels.old sinks.old.items }
    ensures keeps { OnOk result (KeepsLabels label_words labels.old labels.new) }
    ensures joined { IfOk result (λ next.
        IsJoined labels.old cut.now piece sinks.old.items labels.new next sinks.new.items) }
{
    let Piece {
        summary,
        requests,
        mut ends,
        marks,
    } = piece;
    let table = label_nodes(alloc, labels, summary.nodes().log(), &marks, cut)?;
    add_sinks(sinks, &summary, cut, &table)?;
    drop(summary);
    carry_all(&mut ends, cut, &table);
    Ok(CutLabels {
        asked: requests,
        labels: ends,
    })
}

/// The label in the one log of a label of the epoch's own.
#[inline(always)]
fn carry(label: Label, cut: &CutLabels, table: &[Label], next: &mut usize) -> Label
    ensures { result ≡ carried cut.now table.now label }
{
    match label.kind() {
        LabelKind::Node(node) => label_or_nothing(table, node as usize),
        LabelKind::Start(loc) => cut.label(loc, next),
        LabelKind::Run(run) => {
            if run.last < run.first {
                return Label::nothing();
            }
            label
        }
    }
}

/// Puts the sinks of an epoch after those of the earlier ones.
fn add_sinks(
    sinks: &mut Vec<SinkLabel>,
    summary: &Summary,
    cut: &CutLabels,
    table: &[Label],
) -> Result<(), NoMemory>
    ensures { OnOk result (sinks.new.items
        ≡ sinks.old.items ++ map (carried_sink cut.now table.now) (sinks_of summary.now)) }
{
    let earlier = sinks.len();
    sinks.extend_from_slice(summary.sinks())?;
    carry_sinks(&mut sinks[earlier..], cut, table);
    Ok(())
}

/// Carries the labels of sinks.
fn carry_sinks(sinks: &mut [SinkLabel], cut: &CutLabels, table: &[Label])
    ensures { sinks.new ≡ map (carried_sink cut.now table.now) sinks.old }
{
    let mut next = 0;
    for number in 0..sinks.len() {
        sinks[number].label = carry(sinks[number].label, cut, table, &mut next);
    }
}

/// Carries some labels of the epoch's own.
fn carry_all(labels: &mut Vec<Label>, cut: &CutLabels, table: &[Label])
    ensures { labels.new.items ≡ map (carried cut.now table.now) labels.old.items }
{
    let mut next = 0;
    for place in 0..labels.len() {
        labels[place] = carry(labels[place], cut, table, &mut next);
    }
}
