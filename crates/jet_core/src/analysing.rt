//! The analyses of all epochs, several at once, and the rows that they come to.

ghost use Rattle.std.specs.Prelude.{All, IfOk};
ghost use Rattle.replayer.specs.Jobs.{trace_of};
ghost use Rattle.epoch_engine.specs.Collecting.{AreAtBeginnings, AreRowsOf};
ghost use Rattle.epoch_analysis.specs.Epochs.{BeginsAt, IsFound, AreFound};

use checkpoints::Checkpoints;
use epoch_analysis::found;
use epoch_cut::{Cuts, EpochTicket};
use epoch_summary::Summary;
use no_memory::NoMemory;
use query_lang::Query;
use rayon::prelude::*;
use sink_collect::SinkSets;
use std::alloc::Global;
use std::thread::Threads;
use summary_join::join;

/// The summaries of all these epochs, in order, in as many threads as `rayon` takes. It gives up with NoMemory alone.
fn found_at_once<R: Threads + Sync>(
    rt: &R,
    alloc: Global,
    checkpoints: &Checkpoints<'_>,
    query: &Query,
    tickets: Vec<EpochTicket>,
) -> Result<Vec<Summary>, NoMemory>
    requires { All (BeginsAt checkpoints.now) tickets.items }
    ensures { IfOk result (λ all. AreFound query.now (trace_of checkpoints.now.job) tickets.items all.items) }
{
    let all: Result<Vec<Summary>, NoMemory> = tickets
        .into_par_iter()
        .with_min_len(1)
        .map(
            |ticket: EpochTicket| -> Result<Summary, NoMemory>
                requires { BeginsAt checkpoints.now ticket }
                ensures { IfOk result (IsFound query.entry.now (trace_of checkpoints.entry.now.job) ticket) }
            { found(alloc, checkpoints, query, ticket) },
        )
        .collect(rt, alloc)?;
    all
}

/// The rows of a run that is cut: its epochs are analysed in as many threads as `rayon` takes, and joined by one log. It gives
/// up with NoMemory alone.
pub(crate) fn rows_at_once<R: Threads + Sync>(
    rt: &R,
    alloc: Global,
    checkpoints: &Checkpoints<'_>,
    query: &Query,
    cuts: Cuts,
) -> Result<SinkSets, NoMemory>
    requires { AreAtBeginnings cuts checkpoints.now }
    ensures { IfOk result (AreRowsOf query.now checkpoints.now.job) }
{
    // The contract of this says that the points are at locations.
    let _points = query.points();
    let tickets = cuts.tickets(alloc)?;
    let summaries = found_at_once(rt, alloc, checkpoints, query, tickets)?;
    let sinks = join(alloc, summaries)?;
    let rows = sinks.rows(alloc)?;
    Ok(SinkSets::from_vec(rows))
}
