//! The text of several times of a run, by one pass over it.

ghost use Rattle.std.specs.Prelude.{◌≡◌, ℕ, List, length, map, Contains, IfOk};
ghost use Rattle.std.specs.List.Sorted.{IsNonDecreasing, IsPermutation};
ghost use Rattle.run_output.specs.Stack.{stack_text as stack_of_run};
ghost use Rattle.run_output.specs.Stacks.{line_count as lines_of, parts_text as parts_of_run, stacks_text as stacks_of_run};

use crate::push_number;
use crate::stack::{stack_text, text_at};
use no_memory::NoMemory;
use printed_names::push_lines_end;
use replayer::{Cursor, Job};
use std::alloc::Global;

/// Times in ascending order.
fn in_order(alloc: Global, times: &[u64]) -> Result<Vec<u64>, NoMemory>
    ensures ascending { IfOk result (λ order. IsNonDecreasing order.items) }
    ensures all { IfOk result (λ order. IsPermutation times.now order.items) }
{
    let mut order = times.to_vec(alloc)?;
    order.sort_unstable();
    Ok(order)
}

/// The text of each of these times, which ascend, by one pass over the run.
fn texts_at(alloc: Global, job: &Job, times: &[u64]) -> Result<Vec<Vec<u8>>, NoMemory>
    requires { IsNonDecreasing times.now }
    ensures { IfOk result (λ texts. map (λ text. text.items) texts.items
        ≡ map (stack_of_run job.now.start job.now.log) times.now) }
{
    let mut cursor = Cursor::start(alloc, job)?;
    let mut calls = Vec::new(alloc);
    let mut texts = Vec::with_capacity(alloc, times.len())?;
    for time in times {
        texts.push(text_at(alloc, job, &mut cursor, &mut calls, *time)?)?;
    }
    Ok(texts)
}

/// The text of one of these times, which ascend, from the texts of all of them.
fn text_among<'a>(times: &[u64], texts: &'a [Vec<u8>], time: u64) -> &'a [u8]
    requires ascending { IsNonDecreasing times.now }
    requires among { Contains times.now time }
    requires each { length texts.now ≡ length times.now }
    ensures { (text_of : ℕ → List ℕ) → map (λ text. text.items) texts.now ≡ map text_of times.now
        → result.now ≡ text_of time }
{
    let Ok(place) = times.binary_search(&time) else {
        unreachable!()
    };
    texts[place].as_slice()
}

/// How many lines a text has: each ends by a line feed.
fn line_count(text: &[u8]) -> u64
    ensures { result ≡ lines_of text.now }
{
    text.iter().filter(|byte| **byte == b'\n').count() as u64
}

/// The parts of these times, in their order, and the number of their lines.
fn parts_text(alloc: Global, job: &Job, times: &[u64]) -> Result<Vec<u8>, NoMemory>
    ensures { IfOk result (λ text. text.items ≡ parts_of_run job.now.start job.now.log times.now) }
{
    let order = in_order(alloc, times)?;
    let texts = texts_at(alloc, job, &order)?;
    let mut out = Vec::new(alloc);
    for time in times {
        push_number(&mut out, b"stack", *time)?;
        out.extend_from_slice(text_among(&order, &texts, *time))?;
    }
    let lines = line_count(&out);
    push_lines_end(&mut out, lines)?;
    Ok(out)
}

/// The texts of where the run of a job stands after so many steps, for each of these times: of one time its
/// [`stack_text`] alone. Of several each behind a line `stack T`, in the order of the times, T the time as it is told,
/// and last `end N`, N the number of the lines before it. A time that stands twice has its text twice.
///
/// The run is gone through once, whatever the number of times and their order. It fails only where there is no memory.
pub fn stacks_text(alloc: Global, job: &Job, times: &[u64]) -> Result<Vec<u8>, NoMemory>
    ensures { IfOk result (λ text. text.items ≡ stacks_of_run job.now.start job.now.log times.now) }
{
    match times {
        [time] => stack_text(alloc, job, *time),
        _ => parts_text(alloc, job, times),
    }
}
