//! The texts of a report and of an influence.

ghost use Rattle.std.specs.Prelude.{◌≡◌, ◌+◌, ◌<◌, ◌≤◌, ◌*◌, ◌^◌, ◌++◌, ◌∷◌, [], All, IfOk, OnOk};
ghost use Rattle.std.specs.List.{flat_map};
ghost use Rattle.std.specs.Fmt.{decimal};
ghost use Rattle.outer_io.specs.Pieces.{Puts};
ghost use Rattle.printed_names.specs.Room.{HasRoom};
ghost use Rattle.printed_names.specs.Tens.{ten_bytes};
ghost use Rattle.source_ranges.specs.Kept.{IsRange};
ghost use Rattle.source_ranges.specs.Ranges.{bytes_of};
ghost use Rattle.report_model.specs.Text.{point_text, source_text, row_text, report_text};
ghost use Rattle.report_model.specs.Influence.{sink_text, reach_text, influence_text as text_of_influence};
ghost use Rattle.sink_collect.specs.Reaching.{reach_of, reaches_in, line_of};
ghost use Rattle.sink_collect.specs.Waiting.{waiting};

use crate::influence::{Influence, RangeReach};
use crate::report::Report;
use crate::sets::SinkSet;
use flow_model::{SinkPoint, SourceByte};
use itoa::Buffer;
use no_memory::NoMemory;
use outer_io::Pieces;
use printed_names::{MOST_NAMES, RowText, byte_name, point_name};
use source_ranges::SourceRange;
use std::alloc::Global;

/// Puts the text that waits where it leaves no room for a push.
#[inline(always)]
fn make_room<P: Pieces>(place: &mut P, text: &mut RowText) -> Result<(), P::Fault>
    ensures puts { Puts (waiting P.putting) (place.old, text.old) [] (place.new, text.new) result }
    ensures room { OnOk result (HasRoom text.new) }
{
    if text.has_room() {
        return Ok(());
    }
    place.put(text.as_bytes())?;
    text.clear();
    Ok(())
}

/// Adds the name of an output byte or a point to the text that waits.
#[inline(always)]
fn add_point<P: Pieces>(place: &mut P, text: &mut RowText, point: SinkPoint) -> Result<(), P::Fault>
    ensures { Puts (waiting P.putting) (place.old, text.old) (point_text point) (place.new, text.new) result }
{
    make_room(place, text)?;
    text.push_point(point);
    Ok(())
}

/// Adds a line feed to the text that waits.
#[inline(always)]
fn add_line_feed<P: Pieces>(place: &mut P, text: &mut RowText) -> Result<(), P::Fault>
    ensures { Puts (waiting P.putting) (place.old, text.old) (0x0a ∷ []) (place.new, text.new) result }
{
    make_room(place, text)?;
    text.push_line_feed();
    Ok(())
}

/// Adds a blank and the name of each source byte of a range which has a few or none to the text that waits.
#[inline(always)]
fn add_few<P: Pieces>(place: &mut P, text: &mut RowText, range: SourceRange) -> Result<(), P::Fault>
    requires { (range.from ≤ range.past) × (range.past ≤ range.from + MOST_NAMES) × (range.past ≤ 2 ^ 32) }
    ensures { Puts (waiting P.putting) (place.old, text.old)
        (flat_map source_text (bytes_of range)) (place.new, text.new) result }
{
    make_room(place, text)?;
    text.push_names(range.channel, range.from, range.past);
    Ok(())
}

/// Adds a blank and the name of each of the ten source bytes of a channel whose offsets are these tens and one more digit
/// to the text that waits.
fn add_ten<P: Pieces>(
    place: &mut P,
    text: &mut RowText,
    channel: u8,
    tens: u32,
) -> Result<(), P::Fault>
    requires { 0 < tens }
    ensures { Puts (waiting P.putting) (place.old, text.old)
        (flat_map source_text (ten_bytes channel tens)) (place.new, text.new) result }
{
    make_room(place, text)?;
    text.push_ten(channel, tens);
    Ok(())
}

/// Adds a blank and the name of each source byte of a channel whose offset is one of some tens, and one more digit, to
/// the text that waits.
fn add_tens<P: Pieces>(
    place: &mut P,
    text: &mut RowText,
    channel: u8,
    from: u64,
    past: u64,
) -> Result<(), P::Fault>
    requires { (0 < from) × (from ≤ past) × (10 * past ≤ 2 ^ 32) }
    ensures { Puts (waiting P.putting) (place.old, text.old)
        (flat_map source_text
        (bytes_of (record { channel = channel; from = 10 * from; past = 10 * past }))) (place.new, text.new) result }
{
    for tens in from..past {
        add_ten(place, text, channel, tens as u32)?;
    }
    Ok(())
}

/// Adds a blank and the name of each source byte of a range to the text that waits.
fn add_range<P: Pieces>(
    place: &mut P,
    text: &mut RowText,
    range: SourceRange,
) -> Result<(), P::Fault>
    requires { IsRange range }
    ensures { Puts (waiting P.putting) (place.old, text.old)
        (flat_map source_text (bytes_of range)) (place.new, text.new) result }
{
    if range.past - range.from <= MOST_NAMES {
        return add_few(place, text, range);
    }
    // The tens that lie in the range whole. Offsets of one digit have no tens.
    let from = range.from.div_ceil(10).max(1);
    let past = range.past / 10;
    let before = SourceRange {
        past: 10 * from,
        ..range
    };
    let after = SourceRange {
        from: 10 * past,
        ..range
    };
    add_few(place, text, before)?;
    add_tens(place, text, range.channel, from, past)?;
    add_few(place, text, after)
}

/// Adds a blank and the name of each source byte of ranges to the text that waits.
fn add_ranges<P: Pieces>(
    place: &mut P,
    text: &mut RowText,
    ranges: &[SourceRange],
) -> Result<(), P::Fault>
    requires { All IsRange ranges.now }
    ensures { Puts (waiting P.putting) (place.old, text.old)
        (flat_map source_text (flat_map bytes_of ranges.now)) (place.new, text.new) result }
{
    for range in ranges {
        add_range(place, text, *range)?;
    }
    Ok(())
}

/// Adds the line of an output byte or a point to the text that waits.
fn add_row<P: Pieces>(place: &mut P, text: &mut RowText, row: &SinkSet) -> Result<(), P::Fault>
    ensures { Puts (waiting P.putting) (place.old, text.old) (row_text row.now) (place.new, text.new) result }
{
    add_point(place, text, row.sink())?;
    add_ranges(place, text, row.sources().ranges())?;
    add_line_feed(place, text)
}

/// Puts the lines of rows, several in one piece.
pub fn put_rows<P: Pieces>(place: &mut P, rows: &[SinkSet]) -> Result<(), P::Fault>
    ensures { Puts P.putting place.old (flat_map row_text rows.now) place.new result }
{
    let mut text = RowText::new();
    for row in rows {
        add_row(place, &mut text, row)?;
    }
    place.put(text.as_bytes())
}

/// Puts a blank and the name of an output byte or a point.
fn put_sink<P: Pieces>(place: &mut P, sink: &SinkPoint) -> Result<(), P::Fault>
    ensures { Puts P.putting place.old (sink_text sink.now) place.new result }
{
    place.put(b" ")?;
    place.put(point_name(*sink).as_bytes())
}

fn put_sinks<P: Pieces>(place: &mut P, sinks: &[SinkPoint]) -> Result<(), P::Fault>
    ensures { Puts P.putting place.old (flat_map sink_text sinks.now) place.new result }
{
    for sink in sinks {
        put_sink(place, sink)?;
    }
    Ok(())
}

/// Puts the line of a source byte that came to these output bytes and points.
fn put_reach<P: Pieces>(
    place: &mut P,
    source: SourceByte,
    sinks: &[SinkPoint],
) -> Result<(), P::Fault>
    ensures { Puts P.putting place.old (reach_text (reach_of sinks.now source)) place.new result }
{
    place.put(byte_name(source.channel, source.offset).as_bytes())?;
    put_sinks(place, sinks)?;
    place.put(b"\n")
}

/// Puts a line for each source byte of a range that came to these output bytes and points.
fn put_range_reach<P: Pieces>(
    place: &mut P,
    range: SourceRange,
    sinks: &[SinkPoint],
) -> Result<(), P::Fault>
    requires { IsRange range }
    ensures { Puts P.putting place.old (flat_map (line_of sinks.now) (bytes_of range)) place.new result }
{
    for offset in range.from..range.past {
        let source = SourceByte {
            channel: range.channel,
            offset: offset as u32,
        };
        put_reach(place, source, sinks)?;
    }
    Ok(())
}

fn put_reaches<P: Pieces>(place: &mut P, reaches: &[RangeReach]) -> Result<(), P::Fault>
    requires { All (λ r. IsRange r.range) reaches.now }
    ensures { Puts P.putting place.old (flat_map reach_text (flat_map reaches_in reaches.now)) place.new result }
{
    for reach in reaches {
        put_range_reach(place, reach.range(), reach.sinks())?;
    }
    Ok(())
}

/// Puts a line of a word, which ends in a blank, and a number.
pub fn put_numbered<P: Pieces>(place: &mut P, word: &[u8], number: u64) -> Result<(), P::Fault>
    ensures { Puts P.putting place.old (word.now ++ decimal number ++ 0x0a ∷ []) place.new result }
{
    let mut buffer = Buffer::new();
    place.put(word)?;
    place.put(buffer.format(number).as_bytes())?;
    place.put(b"\n")
}

/// Puts the text of a report: a line for each row, and then `end N`.
pub fn put_text<P: Pieces>(place: &mut P, report: &Report) -> Result<(), P::Fault>
    ensures { Puts P.putting place.old (report_text report.now) place.new result }
{
    put_rows(place, report.rows())?;
    put_numbered(place, b"end ", report.lines())
}

/// Puts the text of an influence: a line for each source byte, and then `end N`.
pub fn put_influence<P: Pieces>(place: &mut P, influence: &Influence) -> Result<(), P::Fault>
    ensures { Puts P.putting place.old (text_of_influence influence.now) place.new result }
{
    put_reaches(place, influence.ranges())?;
    put_numbered(place, b"end ", influence.lines())
}

/// The text of a report, whole. It fails only where there is no memory.
pub fn text(alloc: Global, report: &Report) -> Result<Vec<u8>, NoMemory>
    ensures { IfOk result (λ text. text.items ≡ report_text report.now) }
{
    let mut out = Vec::new(alloc);
    put_text(&mut out, report)?;
    Ok(out)
}

/// The text of an influence, whole. It fails only where there is no memory.
pub fn influence_text(alloc: Global, influence: &Influence) -> Result<Vec<u8>, NoMemory>
    ensures { IfOk result (λ text. text.items ≡ text_of_influence influence.now) }
{
    let mut out = Vec::new(alloc);
    put_influence(&mut out, influence)?;
    Ok(out)
}
