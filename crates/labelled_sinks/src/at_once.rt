//! The rows of sinks, made one after another, or by several threads at once.

ghost use Rattle.std.specs.Prelude.{◌≡◌, ◌≤◌, ◌++◌, map, IfOk};
ghost use Rattle.std.specs.Thread.{IsSync};
ghost use Rattle.labelled_sinks.specs.Rows.{SinksStand, row_by};

use answer_sets::{Answers, rows_of_sinks};
use epoch_summary::Asked;
use merge_log::TermsReader;
use no_memory::NoMemory;
use sink_collect::{SinkSet, SinkSets};
use source_labels::SourceLabels;
use std::alloc::Global;
use std::thread::{Threads, join};
use taint_shadow::SinkLabel;

/// The rows of sinks, in their order: those of an epoch that asked nothing. It fails only where there is no memory.
pub(crate) fn rows_in_order(
    alloc: Global,
    labels: &SourceLabels,
    sinks: &[SinkLabel],
) -> Result<Vec<SinkSet>, NoMemory>
    requires { SinksStand labels.now sinks.now }
    ensures { IfOk result (λ rows. rows.items ≡ map (row_by labels.now) sinks.now) }
{
    let mut reader = TermsReader::new(alloc);
    rows_of_sinks(
        alloc,
        &mut reader,
        labels.nodes(),
        sinks,
        &Asked::new(alloc),
        &Answers::new(alloc),
    )
}

/// A thread makes the rows of so many sinks at least: for those of a part it looks through the whole log.
const FEWEST_SINKS: usize = 16;

/// How many of so many sinks `share` of all `workers` take. It is at most their number.
fn sinks_of_share(count: usize, share: u32, workers: u32) -> usize
    ensures { result ≤ count }
{
    let each = count.div_ceil(workers.max(1) as usize);
    each.saturating_mul(share as usize).min(count)
}

/// The rows of sinks, in their order, by at most `workers` threads at once: some of these make the rows of the first sinks,
/// and the others those of the rest. It fails only where there is no memory.
#[cycle(parts)]
pub(crate) fn rows_of_parts<R: Threads + Sync>(
    rt: &R,
    alloc: Global,
    labels: &SourceLabels,
    sinks: &[SinkLabel],
    workers: u32,
) -> Result<SinkSets, NoMemory>
    requires { SinksStand labels.now sinks.now }
    ensures { IfOk result (λ rows. rows ≡ map (row_by labels.now) sinks.now) }
{
    if workers < 2 || sinks.len() < 2 * FEWEST_SINKS {
        return Ok(SinkSets::from_vec(rows_in_order(alloc, labels, sinks)?));
    }
    let some = workers / 2;
    let others = workers - some;
    let (first, rest) = sinks.split_at(sinks_of_share(sinks.len(), some, workers));
    let front = || -> Result<SinkSets, NoMemory>
        requires { IsSync R.row × SinksStand labels.now first.now }
        ensures { IfOk result (λ rows. rows ≡ map (row_by labels.entry.now) first.entry.now) }
    { rows_of_parts(rt, alloc, labels, first, some) };
    let back = || -> Result<SinkSets, NoMemory>
        requires { IsSync R.row × SinksStand labels.now rest.now }
        ensures { IfOk result (λ rows. rows ≡ map (row_by labels.entry.now) rest.entry.now) }
    { rows_of_parts(rt, alloc, labels, rest, others) };
    let (rows, more) = join(rt, front, back);
    joined(rows?, more?)
}

/// Rows, and then more of them. It fails only where there is no memory.
fn joined(rows: SinkSets, more: SinkSets) -> Result<SinkSets, NoMemory>
    ensures { IfOk result (λ all. all ≡ rows ++ more) }
{
    let mut rows = rows;
    rows.append(more)?;
    Ok(rows)
}
