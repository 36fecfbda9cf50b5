//! The lines of a report in runs.

ghost use Rattle.std.specs.Prelude.{◌≡◌, ◌++◌, ◌+◌, ◌≤◌, ◌^◌, [], ◌∷◌, codes, OnOk};
ghost use Rattle.std.specs.List.{list_all};
ghost use Rattle.range_report.specs.Text.{kind_text, kind_of, holds_sources, range_part, ranges_part, sources_of, run_line, point_line, end_line};
ghost use Rattle.range_report.specs.OpenRuns.{rows_moved, rows_of, IsOpen};

use crate::RunKind;
use crate::channels::{byte_at, part};
use crate::moved::MovedBytes;
use crate::runs::{MovedRun, Origin, RowRun, above};
use itoa::Buffer;
use no_memory::NoMemory;
use printed_names::{push_point, push_quoted};
use sink_collect::SinkSet;
use source_ranges::{SourceRange, SourceSet, push_range, push_span};

/// Appends a blank, a range, a blank, and the bytes that were received there.
fn push_part(out: &mut Vec<u8>, moved: &MovedBytes<'_>, range: SourceRange) -> Result<(), NoMemory>
    ensures { OnOk result (out.new.items ≡ out.old.items ++ range_part moved.now.calls.now range) }
{
    let bytes = part(moved.received_on(range.channel), range.from, range.past);
    out.push(b' ')?;
    push_range(out, range)?;
    out.push(b' ')?;
    push_quoted(out, bytes)
}

/// Appends the same for each range of source bytes.
fn push_parts(
    out: &mut Vec<u8>,
    moved: &MovedBytes<'_>,
    sources: &SourceSet,
) -> Result<(), NoMemory>
    ensures { OnOk result
        (out.new.items ≡ out.old.items ++ ranges_part moved.now.calls.now sources.now) }
{
    for range in sources.ranges() {
        push_part(out, moved, *range)?;
    }
    Ok(())
}

/// Whether each byte of moved rows is the one that was received at its source.
fn are_same(moved: &MovedBytes<'_>, run: &MovedRun) -> bool
    requires { run.now.length ≤ 2 ^ 32 }
    ensures { result ≡ list_all (holds_sources moved.now.calls.now) (rows_moved run.now) }
{
    let written = moved.written_on(run.first.channel);
    let received = moved.received_on(run.source.channel);
    for i in 0..run.length {
        let sink = byte_at(written, above(run.first.offset, i));
        let source = byte_at(received, above(run.source.offset, i));
        if sink != source {
            return false;
        }
    }
    true
}

/// Appends a blank and the sign of a kind.
fn push_kind(out: &mut Vec<u8>, kind: RunKind) -> Result<(), NoMemory>
    ensures { OnOk result (out.new.items ≡ out.old.items ++ codes " " ++ kind_text kind) }
{
    let sign = match kind {
        RunKind::Same => b'=',
        RunKind::Changed => b'~',
        RunKind::Shared => b'<',
    };
    out.push(b' ')?;
    out.push(sign)?;
    Ok(())
}

/// Appends the kind of a moved run and its one range.
fn push_moved(out: &mut Vec<u8>, moved: &MovedBytes<'_>, run: &MovedRun) -> Result<(), NoMemory>
    requires some { 1 ≤ run.now.length }
    requires few { run.now.length ≤ 2 ^ 32 }
    ensures { OnOk result (out.new.items ≡ out.old.items ++ codes " " ++
        kind_text (kind_of moved.now.calls.now (rows_moved run.now)) ++
        ranges_part moved.now.calls.now (sources_of (rows_moved run.now))) }
{
    let kind = if are_same(moved, run) {
        RunKind::Same
    } else {
        RunKind::Changed
    };
    let range = SourceRange {
        channel: run.source.channel,
        from: u64::from(run.source.offset),
        past: above(run.source.offset, run.length),
    };
    push_kind(out, kind)?;
    push_part(out, moved, range)
}

/// Appends the kind of a run, and the ranges of its source bytes.
fn push_origin(out: &mut Vec<u8>, moved: &MovedBytes<'_>, run: &RowRun<'_>) -> Result<(), NoMemory>
    requires { IsOpen run.now }
    ensures { OnOk result (out.new.items ≡ out.old.items ++ codes " " ++
        kind_text (kind_of moved.now.calls.now (rows_of run.now)) ++
        ranges_part moved.now.calls.now (sources_of (rows_of run.now))) }
{
    match run.origin() {
        Origin::Moved(rows) => push_moved(out, moved, &rows),
        Origin::Shared(sources) => {
            push_kind(out, RunKind::Shared)?;
            push_parts(out, moved, sources)
        }
    }
}

/// Appends the line of a run.
pub fn push_run(out: &mut Vec<u8>, moved: &MovedBytes<'_>, run: &RowRun<'_>) -> Result<(), NoMemory>
    requires { IsOpen run.now }
    ensures { OnOk result
        (out.new.items ≡ out.old.items ++ run_line moved.now.calls.now (rows_of run.now)) }
{
    let first = run.first();
    let from = u64::from(first.offset);
    let past = above(first.offset, run.length());
    push_span(out, first.channel, from, past)?;
    out.push(b' ')?;
    push_quoted(out, part(moved.written_on(first.channel), from, past))?;
    push_origin(out, moved, run)?;
    out.push(b'\n')?;
    Ok(())
}

/// Appends the line of a row of a point.
pub fn push_row(out: &mut Vec<u8>, moved: &MovedBytes<'_>, row: &SinkSet) -> Result<(), NoMemory>
    ensures { OnOk result
        (out.new.items ≡ out.old.items ++ point_line moved.now.calls.now row.now) }
{
    push_point(out, row.sink())?;
    out.extend_from_slice(b" <")?;
    push_parts(out, moved, row.sources())?;
    out.push(b'\n')?;
    Ok(())
}

/// Appends `end N WITHOUT`.
pub fn push_end(out: &mut Vec<u8>, lines: u64, without: u64) -> Result<(), NoMemory>
    ensures { OnOk result (out.new.items ≡ out.old.items ++ end_line lines without) }
{
    let mut buffer = Buffer::new();
    out.extend_from_slice(b"end ")?;
    out.extend_from_slice(buffer.format(lines).as_bytes())?;
    out.push(b' ')?;
    out.extend_from_slice(buffer.format(without).as_bytes())?;
    out.push(b'\n')?;
    Ok(())
}
