//! The pass over a run.

ghost use Rattle.std.specs.Prelude.{◌≡◌, ◌+◌, ◌<◌, ◌≤◌, reverse, OnOk};
ghost use Rattle.log_model.specs.Logs.{steps};
ghost use Rattle.run_output.specs.Stack.{calls_after};

use crate::hints::hint_of;
use crate::progress::follow_hint;
use no_memory::NoMemory;
use replayer::{Cursor, Next};

/// Makes the next step of the run, and begins and ends calls as it does. The innermost is the last.
fn follow_step(cursor: &mut Cursor, calls: &mut Vec<u32>) -> Result<(), NoMemory>
    requires inside { cursor.old.time < steps cursor.old.job.log }
    requires calls { reverse calls.old.items ≡ calls_after cursor.old.job.start cursor.old.job.log cursor.old.time }
    ensures moved { OnOk result (cursor.new ≡ record { job = cursor.old.job; time = cursor.old.time + 1 }) }
    ensures calls { OnOk result (reverse calls.new.items
        ≡ calls_after cursor.old.job.start cursor.old.job.log (cursor.old.time + 1)) }
{
    let pc = cursor.pc();
    let Next::Step(step) = cursor.next() else {
        unreachable!()
    };
    follow_hint(calls, hint_of(&step.instr), pc, cursor.pc())
}

/// Makes the steps of the run up to a time, and begins and ends calls as they do. The innermost is the last.
pub(crate) fn follow_until(
    cursor: &mut Cursor,
    calls: &mut Vec<u32>,
    time: u64,
) -> Result<(), NoMemory>
    requires ahead { cursor.old.time ≤ time }
    requires inside { time ≤ steps cursor.old.job.log }
    requires calls { reverse calls.old.items ≡ calls_after cursor.old.job.start cursor.old.job.log cursor.old.time }
    ensures moved { OnOk result (cursor.new ≡ record { job = cursor.old.job; time = time }) }
    ensures calls { OnOk result (reverse calls.new.items
        ≡ calls_after cursor.old.job.start cursor.old.job.log time) }
{
    for _step in cursor.time()..time {
        follow_step(cursor, calls)?;
    }
    Ok(())
}
