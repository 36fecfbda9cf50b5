//! The text of where a run stands.

ghost use Rattle.std.specs.Prelude.{◌≡◌, ◌≤◌, ◌∷◌, reverse, IfOk, OnOk};
ghost use Rattle.run_output.specs.Stack.{calls_after, pcs_text, stack_text as stack_of_run};

use crate::walk::follow_until;
use no_memory::NoMemory;
use printed_names::{push_lines_end, push_pc};
use replayer::{Cursor, Job};
use std::alloc::Global;

/// A pc, and then these calls from the last to the first.
fn places_of(alloc: Global, pc: u32, calls: &[u32]) -> Result<Vec<u32>, NoMemory>
    ensures { IfOk result (λ places. places.items ≡ pc ∷ reverse calls.now) }
{
    let mut places = Vec::with_capacity(alloc, calls.len().saturating_add(1))?;
    places.extend_from_slice(calls)?;
    places.push(pc)?;
    places.reverse();
    Ok(places)
}

/// The text of pcs: a line for each, and `end N`.
fn text_of(alloc: Global, pcs: &[u32]) -> Result<Vec<u8>, NoMemory>
    ensures { IfOk result (λ text. text.items ≡ pcs_text pcs.now) }
{
    let mut out = Vec::new(alloc);
    for pc in pcs {
        push_pc(&mut out, *pc)?;
        out.push(b'\n')?;
    }
    push_lines_end(&mut out, pcs.len() as u64)?;
    Ok(out)
}

/// The text of where the run of a job stands after so many steps, as far as which the cursor and the calls in progress
/// go on, the innermost last. Where the run has fewer steps they stay where they are.
pub(crate) fn text_at(
    alloc: Global,
    job: &Job,
    cursor: &mut Cursor,
    calls: &mut Vec<u32>,
    time: u64,
) -> Result<Vec<u8>, NoMemory>
    requires job { cursor.old.job ≡ job.now }
    requires ahead { cursor.old.time ≤ time }
    requires calls { reverse calls.old.items ≡ calls_after job.now.start job.now.log cursor.old.time }
    ensures text { IfOk result (λ text. text.items ≡ stack_of_run job.now.start job.now.log time) }
    ensures job { OnOk result (cursor.new.job ≡ job.now) }
    ensures ahead { OnOk result (cursor.new.time ≤ time) }
    ensures calls { OnOk result (reverse calls.new.items ≡ calls_after job.now.start job.now.log cursor.new.time) }
{
    if time > job.steps() {
        return text_of(alloc, &[]);
    }
    follow_until(cursor, calls, time)?;
    let places = places_of(alloc, cursor.pc(), calls)?;
    text_of(alloc, &places)
}

/// The text of where the run of a job stands after so many steps: the pc, the calls in progress, the innermost first,
/// each by the address of its JAL or JALR, and `end N`, N the number of those lines. It is `end 0` where the run has
/// fewer steps. It fails only where there is no memory.
pub fn stack_text(alloc: Global, job: &Job, time: u64) -> Result<Vec<u8>, NoMemory>
    ensures { IfOk result (λ text. text.items ≡ stack_of_run job.now.start job.now.log time) }
{
    let mut cursor = Cursor::start(alloc, job)?;
    let mut calls = Vec::new(alloc);
    text_at(alloc, job, &mut cursor, &mut calls, time)
}
