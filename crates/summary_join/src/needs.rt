//! What of an epoch is needed, found by one look at each node of its log.

ghost use Rattle.std.specs.Prelude.{◌≡◌, ◌+◌, ◌<◌, length, map, All, IfOk, OnOk};
ghost use Rattle.std.specs.List.{flat_map};
ghost use Rattle.lists.specs.Sets.{has};
ghost use Rattle.flow_model.specs.Orders.{loc_cmp};
ghost use Rattle.flow_model.specs.declared.Loc.{Loc as Location};
ghost use Rattle.merge_log.specs.Log.{IsNode};
ghost use Rattle.taint_shadow.specs.Labels.{kind_of};
ghost use Rattle.source_labels.specs.Words.{HaveNodesIn, log_of, node_or_nothing, node_words};
ghost use Rattle.source_labels.specs.declared.nodes.Nodes.{Nodes as AnyNodes};
ghost use Rattle.epoch_summary.specs.Summaries.{nodes_of, sinks_of};
ghost use Rattle.summary_join.specs.Needs.{AreLookedAt, AreNeeded, AreNoted, IsLookedAt};
ghost use Rattle.summary_join.specs.Needs.{asked_with, marks_with, roots, starts_of};

use epoch_summary::{Asked, Summary};
use merge_log::{Entry, MergeLog};
use no_memory::NoMemory;
use std::alloc::Global;
use taint_shadow::{Label, LabelKind};

/// Which nodes of an epoch's log, by their numbers, its sinks and these labels come from, and the start locations among
/// what they come from, each once. It gives up with NoMemory alone.
pub fn find_needs(
    alloc: Global,
    summary: &Summary,
    ends: &[Label],
) -> Result<(Vec<bool>, Asked), NoMemory>
    requires { All (node_words.stands (nodes_of summary.now)) ends.now }
    ensures needed { IfOk result (λ r. AreNeeded summary.now ends.now r.0.items) }
    ensures asked { IfOk result (λ r. (l : Location)
        → has loc_cmp l r.1
        ≡ has loc_cmp l (flat_map (starts_of (nodes_of summary.now)) (roots summary.now ends.now))) }
{
    let log = summary.nodes().log();
    log.form(); // so that nodes fit into 32 bits
    let mut marks = vec![in alloc; false; log.size() as usize]?;
    // an epoch asks for about as many locations as it is asked for, or as it has sinks
    let about = ends.len().max(summary.sink_count());
    let mut asked = Asked::with_room(alloc, about)?;
    note_sinks(summary, &mut marks, &mut asked)?;
    note_all(ends, &mut marks, &mut asked)?;
    look_through(log, &mut marks, &mut asked)?;
    Ok((marks, asked))
}

/// Notes the labels of the epoch's sinks. When out of memory, part of them may be noted.
fn note_sinks(summary: &Summary, marks: &mut Vec<bool>, asked: &mut Asked) -> Result<(), NoMemory>
    requires { length marks.old.items ≡ length (log_of (nodes_of summary.now)) + 1 }
    ensures noted { OnOk result ((nodes : AnyNodes)
        → AreNoted nodes (map (λ k. k.label) (sinks_of summary.now))
        marks.old.items asked.old marks.new.items asked.new) }
    ensures stand { HaveNodesIn (nodes_of summary.now) (sinks_of summary.now) }
{
    let sinks = summary.sinks();
    for number in 0..sinks.len() {
        note(sinks[number].label, marks, asked)?;
    }
    Ok(())
}

/// Notes some labels. When out of memory, part of them may be noted.
fn note_all(labels: &[Label], marks: &mut Vec<bool>, asked: &mut Asked) -> Result<(), NoMemory>
    requires { All (λ k. node_or_nothing (kind_of k) < length marks.old.items) labels.now }
    ensures { OnOk result
        ((nodes : AnyNodes) → AreNoted nodes labels.now marks.old.items asked.old marks.new.items asked.new) }
{
    for place in 0..labels.len() {
        note(labels[place], marks, asked)?;
    }
    Ok(())
}

/// Marks the node of a label, or asks for the location that it is of. When out of memory nothing changes.
#[inline(always)]
fn note(label: Label, marks: &mut Vec<bool>, asked: &mut Asked) -> Result<(), NoMemory>
    requires { node_or_nothing (kind_of label) < length marks.old.items }
    ensures marks { OnOk result (marks.new.items ≡ marks_with marks.old.items (kind_of label)) }
    ensures asked { OnOk result (asked.new ≡ asked_with asked.old (kind_of label)) }
{
    match label.kind() {
        LabelKind::Node(node) => {
            marks[node as usize] = true;
            Ok(())
        }
        LabelKind::Start(loc) => {
            asked.add(loc)?;
            Ok(())
        }
        LabelKind::Run(_) => Ok(()),
    }
}

/// Looks at each node, from the last to the first: marks the operands of those that are marked, and asks for the start
/// locations among these. When out of memory, part of this may be done.
fn look_through(log: &MergeLog, marks: &mut Vec<bool>, asked: &mut Asked) -> Result<(), NoMemory>
    requires { length marks.old.items ≡ length log.now + 1 }
    ensures { OnOk result (AreLookedAt log.now 0 marks.old.items asked.old marks.new.items asked.new) }
{
    log.form(); // so that nodes fit into 32 bits
    let size = log.size();
    for past in 1..size {
        look_at(log, (size - past) as u32, marks, asked)?;
    }
    Ok(())
}

/// Marks the operands of a node, or asks for the location that it is of, where the node is marked. When out of memory
/// nothing changes.
fn look_at(
    log: &MergeLog,
    node: u32,
    marks: &mut Vec<bool>,
    asked: &mut Asked,
) -> Result<(), NoMemory>
    requires above_0 { 0 < node }
    requires stands { IsNode log.now node }
    requires room { length marks.old.items ≡ length log.now + 1 }
    ensures { OnOk result (IsLookedAt log.now node marks.old.items asked.old marks.new.items asked.new) }
{
    if !marks[node as usize] {
        return Ok(());
    }
    match log.entry(node) {
        Entry::Source(_) => Ok(()),
        Entry::Run { .. } => Ok(()),
        Entry::Start(loc) => {
            asked.add(loc)?;
            Ok(())
        }
        Entry::Union { left, right } => {
            marks[left as usize] = true;
            marks[right as usize] = true;
            Ok(())
        }
    }
}
