//! The rows of an epoch.

ghost use Rattle.std.specs.Prelude.{◌≡◌, ◌<◌, ◌-◌, Some, length, map, slice_get, IfOk, IfSome};
ghost use Rattle.epoch_model.specs.Join.{answer_to, resolved as resolved_terms, resolved_row, rows_of};
ghost use Rattle.merge_log.specs.Log.{AreSets};
ghost use Rattle.source_labels.specs.Words.{HaveNodesIn, log_of};
ghost use Rattle.terms_ahead.specs.Ahead.{IsOfLog};
ghost use Rattle.epoch_summary.specs.Summaries.{named, summary_of};

use crate::answers::Answers;
use crate::resolving::{answer, only_start, resolved};
use epoch_summary::{Asked, Nodes, Summary, TermsAhead};
use merge_log::TermsReader;
use no_memory::NoMemory;
use sink_collect::SinkSet;
use source_ranges::SourceSet;
use std::alloc::Global;
use taint_shadow::{LabelKind, SinkLabel};

/// The rows of an epoch that asked this and had these answers, in the order of its sinks. It fails only where there is
/// no memory.
pub fn rows(
    alloc: Global,
    reader: &mut TermsReader,
    summary: &Summary,
    asked: &Asked,
    answers: &Answers,
) -> Result<Vec<SinkSet>, NoMemory>
    ensures { IfOk result (λ rows. rows.items ≡ rows_of (summary_of summary.now) (answer_to asked.now answers.now)) }
{
    rows_of_sinks(
        alloc,
        reader,
        summary.nodes(),
        summary.sinks(),
        asked,
        answers,
    )
}

/// The rows of sinks that have labels, in their order, where this was asked and had these answers. It fails only where there
/// is no memory.
pub fn rows_of_sinks(
    alloc: Global,
    reader: &mut TermsReader,
    nodes: &Nodes,
    sinks: &[SinkLabel],
    asked: &Asked,
    answers: &Answers,
) -> Result<Vec<SinkSet>, NoMemory>
    requires { HaveNodesIn nodes.now sinks.now }
    ensures { IfOk result (λ rows.
        rows.items ≡ map (resolved_row (answer_to asked.now answers.now)) (map (named nodes.now) sinks.now)) }
{
    let mut rows = Vec::with_capacity(alloc, sinks.len())?;
    let mut ahead = TermsAhead::new(alloc);
    for number in 0..sinks.len() {
        let before = rows.last();
        let next = row(
            alloc, &mut ahead, reader, nodes, sinks, number, before, asked, answers,
        )?;
        rows.push(next)?;
    }
    Ok(rows)
}

/// The row of the sink of this number, made after that of the one before it: with the source bytes of a run, where its label is
/// one, and with a copy of those of the row before where the two have one label.
fn row(
    alloc: Global,
    ahead: &mut TermsAhead,
    reader: &mut TermsReader,
    nodes: &Nodes,
    sinks: &[SinkLabel],
    number: usize,
    before: Option<&SinkSet>,
    asked: &Asked,
    answers: &Answers,
) -> Result<SinkSet, NoMemory>
    requires stand { HaveNodesIn nodes.now sinks.now }
    requires inside { number < length sinks.now }
    requires ahead { IsOfLog (log_of nodes.now) ahead.old }
    requires before { IfSome before (λ last.
        slice_get (map (resolved_row (answer_to asked.now answers.now)) (map (named nodes.now) sinks.now)) (number - 1) ≡ Some last.now) }
    ensures ahead { IsOfLog (log_of nodes.now) ahead.new }
    ensures row { IfOk result (λ row.
        slice_get (map (resolved_row (answer_to asked.now answers.now)) (map (named nodes.now) sinks.now)) number ≡ Some row) }
{
    let SinkLabel { name, label } = sinks[number];
    if let LabelKind::Run(run) = label.kind() {
        return Ok(SinkSet::new(name, SourceSet::of_run(alloc, run)));
    }
    if let Some(last) = before {
        if number > 0 && sinks[number - 1].label == label {
            let sources = last.sources().copied(alloc)?;
            return Ok(SinkSet::new(name, sources));
        }
    }
    ahead.read_sink(nodes, label, sinks, number, reader)?;
    let sources = sources_of(alloc, reader, asked, answers)?;
    Ok(SinkSet::new(name, sources))
}

/// The source bytes of terms, which are sets: their runs alone, or the answer to one location, where that is all.
fn sources_of(
    alloc: Global,
    terms: &TermsReader,
    asked: &Asked,
    answers: &Answers,
) -> Result<SourceSet, NoMemory>
    requires { AreSets terms.now }
    ensures { IfOk result (λ all. all ≡ resolved_terms (answer_to asked.now answers.now) terms.now) }
{
    if terms.starts().is_empty() {
        return SourceSet::of_runs(alloc, terms.runs());
    }
    answers.form();
    if let Some(loc) = only_start(terms) {
        return SourceSet::of(alloc, answer(asked, answers, loc));
    }
    let all = resolved(alloc, terms, asked, answers)?;
    SourceSet::of(alloc, &all)
}
