//! Chosen source bytes, channel by channel.

ghost use Rattle.std.specs.Prelude.{◌≡◌, IfOk};
ghost use Rattle.report_model.specs.Influence.{chosen_sources};
ghost use Rattle.replayer.specs.Jobs.{trace_of};

use no_memory::NoMemory;
use query_lang::Query;
use replayer::Job;
use sink_collect::add_chosen;
use source_ranges::{JoinedRanges, SourceRange, SourceSet};
use std::alloc::Global;

/// There are at most so many input channels.
const CHANNELS: u8 = 16;

/// The source bytes that the run of a job received and the query chooses, by channel and then offset. It fails only
/// where there is no memory.
pub fn sources_of(alloc: Global, job: &Job, query: &Query) -> Result<SourceSet, NoMemory>
    ensures { IfOk result (λ sources. sources ≡ chosen_sources query.now (trace_of job.now)) }
{
    job.form();
    let mut sources = JoinedRanges::new(alloc);
    for channel in 0..CHANNELS {
        let count = u64::from(job.received(u32::from(channel)));
        let received = SourceRange {
            channel,
            from: 0,
            past: count,
        };
        add_chosen(&mut sources, query, received)?;
    }
    Ok(sources.into_set())
}
