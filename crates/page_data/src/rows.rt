//! The rows of a report, as a page has them.

ghost use Rattle.std.specs.Prelude.{◌≡◌, ◌++◌, ◌↔◌, IsTrue, OnOk, Some};
ghost use Rattle.std.specs.List.{flat_map};
ghost use Rattle.page_data.specs.Rows.{
  range_word,
  is_next_address,
  is_next,
  are_moved as are_moved_by,
  goes_on as goes_on_by,
  whole_row,
  row_after,
  joined_rows,
};
ghost use Rattle.source_ranges.specs.Kept.{IsRange};
ghost use Rattle.page_data.specs.Moved.{range_moved};

use flow_model::{Loc, SinkPoint};
use no_memory::NoMemory;
use printed_names::push_point;
use sink_collect::SinkSet;
use source_ranges::{SourceRange, SourceSet, push_range};

/// Whether the second location is the next address.
fn is_next_address(first: Loc, second: Loc) -> bool
    ensures { result ≡ is_next_address first second }
{
    match (first, second) {
        (Loc::Mem { place: a }, Loc::Mem { place: b }) => u64::from(a) + 1 == u64::from(b),
        (Loc::Mem { .. }, Loc::Reg { .. }) => false,
        (Loc::Reg { .. }, Loc::Mem { .. }) => false,
        (Loc::Reg { .. }, Loc::Reg { .. }) => false,
    }
}

/// Whether the second is the next output byte of the channel, or the next address at the same time.
fn is_next(first: SinkPoint, second: SinkPoint) -> bool
    ensures { result ≡ is_next first second }
{
    match (first, second) {
        (SinkPoint::Out(a), SinkPoint::Out(b)) => {
            a.channel == b.channel && u64::from(a.offset) + 1 == u64::from(b.offset)
        }
        (SinkPoint::Out(_), SinkPoint::At(_)) => false,
        (SinkPoint::At(_), SinkPoint::Out(_)) => false,
        (SinkPoint::At(p), SinkPoint::At(q)) => p.time == q.time && is_next_address(p.loc, q.loc),
    }
}

/// Whether the second range is the first, so much further on.
fn is_moved(by: u32, first: SourceRange, second: SourceRange) -> bool
    requires first { IsRange first }
    requires second { IsRange second }
    ensures { IsTrue result ↔ (second ≡ range_moved by first) }
{
    let by = u64::from(by);
    first.channel == second.channel
        && first.from + by == second.from
        && first.past + by == second.past
}

/// Whether the second source bytes are the first, each so much further on: whether their ranges are.
fn are_moved(by: u32, before: &SourceSet, now: &SourceSet) -> bool
    ensures { result ≡ are_moved_by by before.now now.now }
{
    let (first, second) = (before.ranges(), now.ranges());
    if first.len() != second.len() {
        return false;
    }
    for i in 0..first.len() {
        if !is_moved(by, first[i], second[i]) {
            return false;
        }
    }
    true
}

/// Whether a row is of the next byte, with the source bytes of the row before it, each so much further on.
fn goes_on(by: u32, before: &SinkSet, row: &SinkSet) -> bool
    ensures { result ≡ goes_on_by by before.now row.now }
{
    is_next(before.sink(), row.sink()) && are_moved(by, before.sources(), row.sources())
}

/// Appends ranges, each after a blank.
pub(crate) fn push_ranges(out: &mut Vec<u8>, ranges: &[SourceRange]) -> Result<(), NoMemory>
    ensures { OnOk result (out.new.items ≡ out.old.items ++ flat_map range_word ranges.now) }
{
    for range in ranges {
        out.push(b' ')?;
        push_range(out, *range)?;
    }
    Ok(())
}

/// Appends a row that stands by itself.
fn push_whole(out: &mut Vec<u8>, row: &SinkSet) -> Result<(), NoMemory>
    ensures { OnOk result (out.new.items ≡ out.old.items ++ whole_row row.now) }
{
    push_point(out, row.sink())?;
    push_ranges(out, row.sources().ranges())?;
    out.push(b'\n')?;
    Ok(())
}

/// Appends a row that follows another one.
fn push_row(out: &mut Vec<u8>, before: &SinkSet, row: &SinkSet) -> Result<(), NoMemory>
    ensures { OnOk result (out.new.items ≡ out.old.items ++ row_after (Some before.now) row.now) }
{
    if goes_on(0, before, row) {
        out.push(b'=')?;
        Ok(())
    } else if goes_on(1, before, row) {
        out.push(b'+')?;
        Ok(())
    } else {
        push_whole(out, row)
    }
}

/// Appends all rows.
pub(crate) fn push_rows(out: &mut Vec<u8>, rows: &[SinkSet]) -> Result<(), NoMemory>
    ensures { OnOk result (out.new.items ≡ out.old.items ++ joined_rows rows.now) }
{
    let Some((first, rest)) = rows.split_first() else {
        return Ok(());
    };
    push_whole(out, first)?;
    let mut before = first;
    for row in rest {
        push_row(out, before, row)?;
        before = row;
    }
    Ok(())
}
