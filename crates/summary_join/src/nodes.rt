//! The labels of the nodes of an epoch's log.

ghost use Rattle.std.specs.Prelude.{◌≡◌, ◌<◌, ◌+◌, length, IfOk};
ghost use Rattle.merge_log.specs.Log.{IsNode};
ghost use Rattle.summary_join.specs.Labels.{AllStand, AreNodeLabels, IsNodeLabel};
ghost use Rattle.summary_join.specs.Needs.{AreClosed};

use crate::cut::{CutLabels, label_or_nothing};
use merge_log::{Entry, MergeLog};
use no_memory::NoMemory;
use source_labels::SourceLabels;
use source_runs::SourceRun;
use std::alloc::Global;
use taint_shadow::{Label, Labels};

/// The label of each marked node of an epoch's log, by its number, where this is what locations had at the epoch's
/// start. The operands of marked nodes are marked. Each is made once, after those of its operands. When out of memory,
/// part of them may be made.
pub fn label_nodes(
    alloc: Global,
    labels: &mut SourceLabels,
    log: &MergeLog,
    marks: &[bool],
    cut: &CutLabels,
) -> Result<Vec<Label>, NoMemory>
    requires room { length marks.now ≡ length log.now + 1 }
    requires closed { AreClosed log.now marks.now }
    requires stand { AllStand labels.old cut.now.labels.items }
    ensures { IfOk result (λ table. AreNodeLabels labels.old log.now cut.now marks.now labels.new table.items) }
{
    log.form(); // so that nodes fit into 32 bits
    let size = log.size() as usize;
    let mut table = Vec::with_capacity(alloc, size)?;
    table.push(Label::nothing())?;
    let mut next = 0;
    for node in 1..size {
        let label = label_node(labels, log, node as u32, marks, &table, cut, &mut next)?;
        table.push(label)?;
    }
    Ok(table)
}

/// The label of a node, where those below it are in the table: that of nothing where it isn't marked.
fn label_node(
    labels: &mut SourceLabels,
    log: &MergeLog,
    node: u32,
    marks: &[bool],
    table: &[Label],
    cut: &CutLabels,
    next: &mut usize,
) -> Result<Label, NoMemory>
    requires above_0 { 0 < node }
    requires stands { IsNode log.now node }
    requires below { length table.now ≡ node }
    requires room { length marks.now ≡ length log.now + 1 }
    requires closed { AreClosed log.now marks.now }
    requires cut { AllStand labels.old cut.now.labels.items }
    requires table { AllStand labels.old table.now }
    ensures { IfOk result (IsNodeLabel labels.old log.now cut.now marks.now table.now node labels.new) }
{
    if !marks[node as usize] {
        return Ok(Label::nothing());
    }
    match log.entry(node) {
        Entry::Source(byte) => labels.source(byte),
        Entry::Run {
            channel,
            first,
            last,
        } => labels.run(SourceRun {
            channel,
            first,
            last,
        }),
        Entry::Start(loc) => Ok(cut.label(loc, next)),
        Entry::Union { left, right } => {
            let one = label_or_nothing(table, left as usize);
            let other = label_or_nothing(table, right as usize);
            labels.unite(one, other)
        }
    }
}
