//! A report in runs.

ghost use Rattle.std.specs.Prelude.{◌≡◌, ◌++◌, ◌+◌, ◌<◌, ◌≤◌, ◌^◌, ◌&&◌, not, true, false, [], length, IfOk, OnOk, MatchOption};
ghost use Rattle.range_report.specs.Runs.{is_output, has_any, output_rows, point_rows, rows_without, runs};
ghost use Rattle.range_report.specs.Text.{run_lines, point_lines, ranges_report};
ghost use Rattle.range_report.specs.OpenRuns.{row as row_with};
ghost use Rattle.range_report.specs.Steps.{IsOpenIfAny, IsTaken, lines_left, count_left};
ghost use Rattle.range_report.specs.Whole.{report_lines};

use crate::lines::{push_end, push_row, push_run};
use crate::moved::MovedBytes;
use crate::runs::{RowRun, go_on};
use flow_model::{SinkByte, SinkPoint};
use no_memory::NoMemory;
use replay_log::Log;
use sink_collect::{Report, SinkSet};
use source_ranges::SourceSet;
use std::alloc::Global;

/// How far a report has come: the run that is open, if one is, and how many lines were told before it.
#[derive(Clone, Copy)]
pub struct Progress<'a> {
    pub run: Option<RowRun<'a>>,
    pub lines: u64,
}

/// The output byte of a row that is of one and has a source, and its source bytes.
fn output_of(row: &SinkSet) -> Option<(SinkByte, &SourceSet)>
    ensures { MatchOption result ((is_output row.now.sink && has_any row.now.sources) ≡ false)
        (λ parts. ((is_output row.now.sink && has_any row.now.sources) ≡ true)
        × (row.now ≡ row_with parts.0 parts.1.now)) }
{
    let SinkPoint::Out(byte) = row.sink() else {
        return None;
    };
    let sources = row.sources();
    if sources.is_empty() {
        return None;
    }
    Some((byte, sources))
}

/// Takes a row in: it goes on from the open run, or that run's line is appended.
fn take_row<'a>(
    out: &mut Vec<u8>,
    moved: &MovedBytes<'_>,
    progress: Progress<'a>,
    row: &'a SinkSet,
) -> Result<Progress<'a>, NoMemory>
    requires fits { IsOpenIfAny progress.run }
    requires few { progress.lines < 2 ^ 63 }
    ensures { IfOk result
        (IsTaken moved.now.calls.now out.old.items progress.entry row.now out.new.items) }
{
    let Some((byte, sources)) = output_of(row) else {
        return Ok(progress);
    };
    let next = go_on(progress.run, byte, sources);
    let run = Some(next.next);
    let Some(done) = next.done else {
        return Ok(Progress {
            run,
            lines: progress.lines,
        });
    };
    push_run(out, moved, &done)?;
    Ok(Progress {
        run,
        lines: progress.lines + 1,
    })
}

/// Appends the line of the run that is open, if one is, and gives how many lines were told.
fn finish(
    out: &mut Vec<u8>,
    moved: &MovedBytes<'_>,
    progress: Progress<'_>,
) -> Result<u64, NoMemory>
    requires fits { IsOpenIfAny progress.run }
    requires few { progress.lines < 2 ^ 63 }
    ensures text { OnOk result
        (out.new.items ≡ out.old.items ++ lines_left moved.now.calls.now progress.entry []) }
    ensures count { IfOk result (λ lines. lines ≡ count_left progress.entry []) }
    ensures few { IfOk result (λ lines. lines ≤ progress.entry.lines + 1) }
{
    let Some(run) = progress.run else {
        return Ok(progress.lines);
    };
    push_run(out, moved, &run)?;
    Ok(progress.lines + 1)
}

/// Appends the lines of the runs of rows, and gives how many there are.
fn push_runs(out: &mut Vec<u8>, moved: &MovedBytes<'_>, rows: &[SinkSet]) -> Result<u64, NoMemory>
    ensures text { OnOk result
        (out.new.items ≡ out.old.items ++ run_lines moved.now.calls.now rows.now) }
    ensures count { IfOk result (λ lines. lines ≡ length (runs (output_rows rows.now))) }
    ensures few { IfOk result (λ lines. lines ≤ length rows.now + 1) }
{
    let mut progress = Progress {
        run: None,
        lines: 0,
    };
    for row in rows {
        progress = take_row(out, moved, progress, row)?;
    }
    finish(out, moved, progress)
}

/// Whether a row is of a point and has a source.
fn is_point_row(row: &SinkSet) -> bool
    ensures { result ≡ (not (is_output row.now.sink) && has_any row.now.sources) }
{
    match row.sink() {
        SinkPoint::Out(_) => false,
        SinkPoint::At(_) => !row.sources().is_empty(),
    }
}

/// Appends the lines of the points that have a source, and gives how many there are.
fn push_points(out: &mut Vec<u8>, moved: &MovedBytes<'_>, rows: &[SinkSet]) -> Result<u64, NoMemory>
    ensures text { OnOk result
        (out.new.items ≡ out.old.items ++ point_lines moved.now.calls.now rows.now) }
    ensures count { IfOk result (λ lines. lines ≡ length (point_rows rows.now)) }
    ensures few { IfOk result (λ lines. lines ≤ length rows.now) }
{
    let mut lines = 0u64;
    for row in rows {
        if is_point_row(row) {
            push_row(out, moved, row)?;
            lines += 1;
        }
    }
    Ok(lines)
}

/// How many rows have no source.
fn count_without(rows: &[SinkSet]) -> u64
    ensures { result ≡ length (rows_without rows.now) }
{
    let mut count = 0u64;
    for row in rows {
        if row.sources().is_empty() {
            count += 1;
        }
    }
    count
}

/// Appends all lines of a report in runs.
fn push_lines(out: &mut Vec<u8>, moved: &MovedBytes<'_>, rows: &[SinkSet]) -> Result<(), NoMemory>
    ensures { OnOk result (out.new.items ≡ out.old.items ++ report_lines moved.now.calls.now rows.now) }
{
    let runs = push_runs(out, moved, rows)?;
    let points = push_points(out, moved, rows)?;
    push_end(out, runs + points, count_without(rows))
}

/// The text of a report in runs, of these rows and the bytes that the calls moved.
fn text_of(alloc: Global, moved: &MovedBytes<'_>, rows: &[SinkSet]) -> Result<Vec<u8>, NoMemory>
    ensures { IfOk result (λ text. text.items ≡ report_lines moved.now.calls.now rows.now) }
{
    let mut out = Vec::new(alloc);
    push_lines(&mut out, moved, rows)?;
    Ok(out)
}

/// The text of a report in runs, of a run with this log: a line `C:A-B TEXT KIND` for each run of output bytes, with
/// a blank and `c:a-b TEXT` for each range of its source bytes; a line `NAME <` likewise for each point that has a
/// source; and last `end N WITHOUT`, the number of lines and that of the rows without a source. It fails only where
/// there is no memory.
pub fn shown(alloc: Global, report: &Report, log: &Log) -> Result<Vec<u8>, NoMemory>
    ensures { IfOk result (λ text. text.items ≡ ranges_report log.now report.now) }
{
    let moved = MovedBytes::new(alloc, log.records())?;
    let text = text_of(alloc, &moved, report.rows());
    drop(moved);
    text
}
