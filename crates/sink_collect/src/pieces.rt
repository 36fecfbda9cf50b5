//! Ranges of source bytes, cut wherever a row begins or ends to list them.

ghost use Rattle.std.specs.Prelude.{◌≡◌, ◌++◌, ℕ, All, Contains, IfOk, OnOk};
ghost use Rattle.std.specs.List.{flat_map};
ghost use Rattle.std.specs.List.Sorted.{IsStrictlyIncreasing};
ghost use Rattle.source_ranges.specs.Kept.{IsRange};
ghost use Rattle.source_ranges.specs.Ranges.{bytes_of};
ghost use Rattle.sink_collect.specs.Places.{cuts_of, IsAlike, IsUncut};

use crate::places::{count_before, place_of};
use crate::sets::SinkSet;
use no_memory::NoMemory;
use source_ranges::{SourceRange, SourceSet};
use std::alloc::Global;

/// Adds the places where a row begins or ends to list source bytes.
fn push_cuts(cuts: &mut Vec<u64>, row: &SinkSet) -> Result<(), NoMemory>
    ensures { OnOk result (cuts.new.items ≡ cuts.old.items ++ cuts_of row.now) }
{
    for range in row.sources().ranges() {
        cuts.push(place_of(range.channel, range.from))?;
        cuts.push(place_of(range.channel, range.past))?;
    }
    Ok(())
}

/// The places where a row begins or ends to list source bytes, ascending, each once.
fn cuts_of_rows(alloc: Global, rows: &[SinkSet]) -> Result<Vec<u64>, NoMemory>
    ensures all { IfOk result (λ cuts. (cut : ℕ) → Contains (flat_map cuts_of rows.now) cut → Contains cuts.items cut) }
    ensures ascending { IfOk result (λ cuts. IsStrictlyIncreasing cuts.items) }
{
    let mut cuts = Vec::new(alloc);
    for row in rows {
        push_cuts(&mut cuts, row)?;
    }
    cuts.sort_unstable();
    cuts.dedup();
    Ok(cuts)
}

/// Adds a range in pieces, one from each cut between its bytes to the next.
fn push_pieces(
    pieces: &mut Vec<SourceRange>,
    range: SourceRange,
    cuts: &[u64],
) -> Result<(), NoMemory>
    requires range { IsRange range }
    requires ascending { IsStrictlyIncreasing cuts.now }
    requires uncut { All (IsUncut cuts.now) pieces.old.items }
    ensures bytes { OnOk result
        (flat_map bytes_of pieces.new.items ≡ flat_map bytes_of pieces.old.items ++ bytes_of range) }
    ensures uncut { OnOk result (All (IsUncut cuts.now) pieces.new.items) }
{
    let channel = place_of(range.channel, 0);
    let first = count_before(cuts, channel + range.from + 1);
    let past = count_before(cuts, channel + range.past);
    let mut from = range.from;
    for i in first..past {
        let cut = cuts[i] - channel;
        pieces.push(SourceRange {
            from,
            past: cut,
            ..range
        })?;
        from = cut;
    }
    pieces.push(SourceRange { from, ..range })?;
    Ok(())
}

/// The source bytes as ranges in order, each of bytes of which every row lists all or none. It fails only where there
/// is no memory.
pub(crate) fn pieces_of(
    alloc: Global,
    rows: &[SinkSet],
    sources: &SourceSet,
) -> Result<Vec<SourceRange>, NoMemory>
    ensures bytes { IfOk result (λ pieces. flat_map bytes_of pieces.items ≡ sources.now) }
    ensures alike { IfOk result (λ pieces. All (IsAlike rows.now) pieces.items) }
{
    let cuts = cuts_of_rows(alloc, rows)?;
    let mut pieces = Vec::new(alloc);
    for range in sources.ranges() {
        push_pieces(&mut pieces, *range, &cuts)?;
    }
    Ok(pieces)
}
