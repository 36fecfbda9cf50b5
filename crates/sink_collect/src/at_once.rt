//! The texts of rows, made by several threads at once.

ghost use Rattle.std.specs.Prelude.{◌≡◌, ◌≤◌, ◌<◌, ◌++◌, length, IfOk};
ghost use Rattle.std.specs.List.{flat_map};
ghost use Rattle.std.specs.Thread.{IsSync};
ghost use Rattle.report_model.specs.Text.{row_text};

use crate::sets::SinkSet;
use crate::writing::put_rows;
use no_memory::NoMemory;
use std::alloc::Global;
use std::thread::{Threads, join};

/// The bytes of a line but for its source bytes, as an estimate takes them.
const LINE_ESTIMATE: u64 = 16;

/// The bytes of the name of a source byte, with the blank in front, as an estimate takes them.
const NAME_ESTIMATE: u64 = 10;

/// Of so many rows at most the lines are estimated, where it is enough to know about how long a text is.
const SAMPLE: usize = 1024;

/// A thread makes so many bytes of text at least, as they are estimated: fewer don't pay for its start.
const LEAST_TEXT: u64 = 1 << 16;

/// The bytes that each thread makes at once at most, as they are estimated.
const ROUND_TEXT: u64 = 1 << 20;

/// So many threads count for a round at most.
const MOST_THREADS: u32 = 16;

/// About how many bytes the line of a row has.
fn estimate(row: &SinkSet) -> u64 {
    let names = match row.sources().ranges() {
        // Most rows have one range, which needs no loop.
        [range] => range.past.saturating_sub(range.from),
        _ => row.sources().count(),
    };
    names
        .saturating_mul(NAME_ESTIMATE)
        .saturating_add(LINE_ESTIMATE)
}

/// How many of the first rows so many workers make to texts at once: those whose lines take little memory for each worker, and one
/// at least where there is one.
pub fn rows_of_round(rows: &[SinkSet], workers: u32) -> usize
    ensures most { result ≤ length rows.now }
    ensures some { 0 < length rows.now → 0 < result }
{
    let most = ROUND_TEXT * u64::from(workers.min(MOST_THREADS));
    rows_within(rows, most).max(1).min(rows.len())
}

/// How many of the first rows have lines of at most so many bytes in all, as they are estimated.
fn rows_within(rows: &[SinkSet], most: u64) -> usize
    ensures { result ≤ length rows.now }
{
    let mut size = 0u64;
    for (count, row) in rows.iter().enumerate() {
        size = size.saturating_add(estimate(row));
        if size > most {
            return count;
        }
    }
    rows.len()
}

/// For how many rows of `count` one stands, where it is enough to know about how long their text is.
fn step_of(count: usize) -> usize
    ensures { 0 < result }
{
    count / SAMPLE + 1
}

/// About how many bytes the lines of rows have. Of many rows it looks at some alone.
fn size_of_all(rows: &[SinkSet]) -> u64 {
    let step = step_of(rows.len());
    let mut size = 0u64;
    for row in rows.iter().step_by(step) {
        size = size.saturating_add(estimate(row));
    }
    size.saturating_mul(step as u64)
}

/// How many of the first rows have lines of about so many bytes. Of many rows it looks at some alone.
fn rows_of_share(rows: &[SinkSet], share: u64) -> usize
    ensures { result ≤ length rows.now }
{
    let step = step_of(rows.len());
    let share = share / step as u64;
    let mut size = 0u64;
    let mut count = 0usize;
    for row in rows.iter().step_by(step) {
        let line = estimate(row);
        // A line is of the share in which its middle lies.
        if size.saturating_add(line / 2) > share {
            break;
        }
        size = size.saturating_add(line);
        count = count.saturating_add(step);
    }
    count.min(rows.len())
}

/// The text of rows, whose lines have about so many bytes. It fails only where there is no memory.
fn text_of_rows(alloc: Global, rows: &[SinkSet], size: u64) -> Result<Vec<u8>, NoMemory>
    ensures { IfOk result (λ text. text.items ≡ flat_map row_text rows.now) }
{
    let mut text = Vec::with_capacity(alloc, size.min(ROUND_TEXT) as usize)?;
    put_rows(&mut text, rows)?;
    Ok(text)
}

/// The texts of rows, each of some of them, in their order, made by at most so many threads at once: some of these make the texts of
/// the first rows, and the others those of the rest. It fails only where there is no memory.
#[cycle(parts)]
pub fn texts_at_once<R: Threads + Sync>(
    rt: &R,
    alloc: Global,
    rows: &[SinkSet],
    workers: u32,
) -> Result<Vec<Vec<u8>>, NoMemory>
    ensures { IfOk result (λ texts. flat_map (λ text. text.items) texts.items ≡ flat_map row_text rows.now) }
{
    let size = size_of_all(rows);
    if workers < 2 || rows.len() < 2 || size < 2 * LEAST_TEXT {
        return Ok(Vec::from_array(alloc, [text_of_rows(alloc, rows, size)?])?);
    }
    let some = workers / 2;
    let others = workers - some;
    let share = size / u64::from(workers) * u64::from(some);
    let (first, rest) = rows.split_at(rows_of_share(rows, share));
    let front = || -> Result<Vec<Vec<u8>>, NoMemory>
        requires { IsSync R.row }
        ensures { IfOk result (λ texts. flat_map (λ text. text.items) texts.items ≡ flat_map row_text first.entry.now) }
    { texts_at_once(rt, alloc, first, some) };
    let back = || -> Result<Vec<Vec<u8>>, NoMemory>
        requires { IsSync R.row }
        ensures { IfOk result (λ texts. flat_map (λ text. text.items) texts.items ≡ flat_map row_text rest.entry.now) }
    { texts_at_once(rt, alloc, rest, others) };
    let (texts, more) = join(rt, front, back);
    joined(texts?, more?)
}

/// Texts, and then more of them. It fails only where there is no memory.
fn joined(texts: Vec<Vec<u8>>, more: Vec<Vec<u8>>) -> Result<Vec<Vec<u8>>, NoMemory>
    ensures { IfOk result (λ all. all.items ≡ texts.items ++ more.items) }
{
    let mut texts = texts;
    let mut more = more;
    texts.append(&mut more)?;
    Ok(texts)
}
