//! What of a row a query chooses.

ghost use Rattle.std.specs.Prelude.{◌≡◌, ◌≤◌, ◌^◌, ◌++◌, IfOk, OnOk};
ghost use Rattle.std.specs.List.{filter};
ghost use Rattle.report_model.specs.Query.{has_source, has_sink};
ghost use Rattle.sink_collect.specs.Own.{own_part};
ghost use Rattle.source_ranges.specs.Ranges.{bytes_of};

use crate::sets::SinkSet;
use flow_model::{SinkPoint, SourceByte};
use lists::contains;
use no_memory::NoMemory;
use query_lang::Query;
use source_ranges::{JoinedRanges, SourceRange, SourceSet};
use std::alloc::Global;

/// Whether a query chooses an output byte or a point.
pub fn is_chosen(query: &Query, sink: SinkPoint) -> bool
    ensures { result ≡ has_sink query.now sink }
{
    match sink {
        SinkPoint::Out(byte) => query.sink_has(byte),
        SinkPoint::At(point) => contains(query.points(), &point),
    }
}

/// The row with those of its source bytes that a query chooses.
pub fn chosen_part(alloc: Global, query: &Query, row: &SinkSet) -> Result<SinkSet, NoMemory>
    ensures { IfOk result (λ part. part ≡ own_part query.now row.now) }
{
    let sources = chosen_sources(alloc, query, row.sources())?;
    Ok(SinkSet::new(row.sink(), sources))
}

/// Those of the source bytes that a query chooses.
fn chosen_sources(alloc: Global, query: &Query, sources: &SourceSet) -> Result<SourceSet, NoMemory>
    ensures { IfOk result (λ chosen. chosen ≡ filter (has_source query.now) sources.now) }
{
    sources.form();
    let mut chosen = JoinedRanges::new(alloc);
    for range in sources.ranges() {
        add_chosen(&mut chosen, query, *range)?;
    }
    Ok(chosen.into_set())
}

/// Adds those of the source bytes of a range, which may have none, that a query chooses. It fails only where there is
/// no memory.
pub fn add_chosen(
    chosen: &mut JoinedRanges,
    query: &Query,
    range: SourceRange,
) -> Result<(), NoMemory>
    requires { range.past ≤ 2 ^ 32 }
    ensures { OnOk result (chosen.new ≡ chosen.old ++ filter (has_source query.now) (bytes_of range)) }
{
    for offset in range.from..range.past {
        let source = SourceByte {
            channel: range.channel,
            offset: offset as u32,
        };
        if query.source_has(source) {
            chosen.push(SourceRange {
                from: offset,
                past: offset + 1,
                ..range
            })?;
        }
    }
    Ok(())
}
