//! How a node begins: its epoch is analysed.

ghost use Rattle.std.specs.Prelude.{◌≡◌, ◌≤◌, Some, slice_get, IfOk, is_some, true};
ghost use Rattle.log_model.specs.Logs.{steps};
ghost use Rattle.replayer.specs.Jobs.{trace_of};
ghost use Rattle.epoch_summary.specs.Summaries.{summary_of};
ghost use Rattle.pass_parts.specs.Ends.{fresh_end};
ghost use Rattle.pass_parts.specs.Known.{known};
ghost use Rattle.backward_pass.specs.Backward.{back_of, new_back, Keeps, Reached};
ghost use Rattle.epoch_node.specs.Cores.{CanStart};
ghost use Rattle.epoch_node.specs.Keeping.{IsFound, IsBegun};

use backward_pass::Back;
use checkpoints::StartPoint;
use epoch_cut::EpochTicket;
use epoch_summary::Summary;
use local_taint::analyse_from;
use no_memory::NoMemory;
use query_lang::Query;
use std::alloc::Global;

/// The summary of the ticket's epoch, from its checkpoint on. It gives up with NoMemory alone.
fn summarize(
    alloc: Global,
    ticket: EpochTicket,
    start: &mut StartPoint<'_>,
    query: &Query,
) -> Result<Summary, NoMemory>
    requires { CanStart start.old ticket }
    ensures found { IfOk result (λ e. IsFound query.now (trace_of start.old.job) ticket (summary_of e)) }
    ensures same { start.new ≡ start.old }
{
    let mut cursor = start.start(alloc, ticket.number())?;
    match analyse_from(alloc, ticket, &mut cursor, query) {
        Ok(summary) => {
            start.put_back(cursor);
            Ok(summary)
        }
        Err(no_memory) => {
            drop(cursor);
            Err(no_memory)
        }
    }
}

/// The pass backwards of the ticket's epoch. Where a growth is refused, the pass has no summary, and is broken.
pub(crate) fn begin(
    alloc: Global,
    ticket: EpochTicket,
    start: &mut StartPoint<'_>,
    query: &Query,
    first: bool,
    last: bool,
) -> Back
    requires { CanStart start.old ticket }
    ensures begun { IsBegun (record {
      points = start.old;
      query = query.now;
      epoch = ticket;
      first = first;
      last = last;
    }) (back_of result) }
    ensures same { start.new ≡ start.old }
{
    let summary = summarize(alloc, ticket, start, query).ok();
    Back::new(alloc, summary, first, last)
}
