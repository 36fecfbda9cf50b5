//! The analysis of one epoch by itself.

ghost use Rattle.std.specs.Prelude.{◌≡◌, ℕ, ◌-◌, ◌<◌, ◌≤◌, IfOk, OnOk};
ghost use Rattle.log_model.specs.Logs.{steps};
ghost use Rattle.epoch_model.specs.Summary.{IsSummary};
ghost use Rattle.replayer.specs.Jobs.{trace_of};
ghost use Rattle.taint_shadow.specs.Steps.{AreStanding};
ghost use Rattle.taint_tracking.specs.Sinks.{AreLabelled};
ghost use Rattle.source_labels.specs.Words.{node_words};
ghost use Rattle.epoch_summary.specs.Summaries.{number_of, summary_of};
ghost use Rattle.local_taint.specs.Following.{TracksFrom, IsSummaryOf, AreInRange};

use epoch_cut::EpochTicket;
use epoch_summary::{Nodes, Summary};
use no_memory::NoMemory;
use query_lang::Query;
use replayer::{Cursor, Next, Watcher};
use std::alloc::Global;
use taint_tracking::{Tracked, Watching};

/// The summary of the ticket's epoch, over the steps of a run, which are found to be in range. The cursor stands at the
/// epoch's first step, and the epoch ends with the run at the latest.
pub fn analyse(
    alloc: Global,
    ticket: EpochTicket,
    mut cursor: Cursor,
    query: &Query,
) -> Result<Summary, NoMemory>
    requires begins { cursor.time ≡ ticket.first }
    requires ends { ticket.past_last ≤ steps cursor.job.log }
    ensures summary { IfOk result (λ e.
        IsSummary query.now (trace_of cursor.entry.job) ticket.first (ticket.past_last - ticket.first) (summary_of e)) }
    ensures number { IfOk result (λ e. number_of e ≡ ticket.number) }
    ensures in_range { OnOk result
        (AreInRange (trace_of cursor.entry.job) ticket.first (ticket.past_last - ticket.first)) }
{
    analyse_from(alloc, ticket, &mut cursor, query)
}

/// The same as [`analyse`], with a cursor that is left where the analysis ends: where all goes well, at the epoch's end.
pub fn analyse_from(
    alloc: Global,
    ticket: EpochTicket,
    cursor: &mut Cursor,
    query: &Query,
) -> Result<Summary, NoMemory>
    requires begins { cursor.old.time ≡ ticket.first }
    requires ends { ticket.past_last ≤ steps cursor.old.job.log }
    ensures summary { IfOk result (λ e.
        IsSummary query.now (trace_of cursor.old.job) ticket.first (ticket.past_last - ticket.first) (summary_of e)) }
    ensures number { IfOk result (λ e. number_of e ≡ ticket.number) }
    ensures in_range { OnOk result
        (AreInRange (trace_of cursor.old.job) ticket.first (ticket.past_last - ticket.first)) }
    ensures job { OnOk result (cursor.new.job ≡ cursor.old.job) }
{
    let (first, past_last) = (ticket.first(), ticket.past_last());
    let mut watching = Watching::of_epoch(alloc, Nodes::new(alloc), query, first)?;
    follow(cursor, past_last, &mut watching);
    Ok(summarize(ticket.number(), watching.finish()?))
}

/// The summary of the epoch of this number, of what was tracked of all its steps.
pub(crate) fn summarize(number: u32, tracked: Tracked<Nodes>) -> Summary
    requires standing { AreStanding node_words tracked.labels tracked.places }
    requires labelled { AreLabelled node_words tracked.labels tracked.sinks.items }
    ensures number { number_of result ≡ number }
    ensures summary { IsSummaryOf tracked result }
{
    let Tracked {
        labels,
        places,
        sinks,
    } = tracked;
    Summary::new(number, labels, places, sinks)
}

/// Follows the steps of an epoch that goes on where the cursor stands, up to, and without, `past_last`.
fn follow(cursor: &mut Cursor, past_last: u64, watching: &mut Watching<Nodes>)
    requires { past_last ≤ steps cursor.old.job.log }
    ensures tracked { TracksFrom cursor.old (past_last - cursor.old.time) watching.old watching.new }
    ensures job { cursor.new.job ≡ cursor.old.job }
{
    while cursor.time() < past_last {
        let until = quiet_until(cursor.plain_until(), watching.quiet_until(), past_last);
        cursor.run_plain(until, watching);
        let Next::Step(step) = cursor.next() else {
            unreachable!()
        };
        watching.track(&step);
    }
}

/// Up to this time no step is a call, and after none of them a point is due or the epoch ends: up to the next call, or to the
/// step before the next point or the end.
fn quiet_until(call: u64, due_after: u64, past_last: u64) -> u64
    requires some { 0 < past_last }
    ensures calls { result ≤ call }
    ensures last { result < past_last }
    ensures points { result ≤ due_after }
    ensures most { (t : ℕ) → t ≤ call → t < past_last → t ≤ due_after → t ≤ result }
{
    call.min(due_after).min(past_last - 1)
}
