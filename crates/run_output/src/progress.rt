//! The calls in progress.

ghost use Rattle.std.specs.Prelude.{◌≡◌, ◌≤◌, ◌∷◌, length, take, reverse, OnOk};
ghost use Rattle.run_output.specs.Stack.{after_return, after_hint};

use crate::hints::Hint;
use no_memory::NoMemory;

/// How many of these calls, the innermost last, are in progress after a return to an address.
fn left_after_return(calls: &[u32], address: u32) -> usize
    ensures left { reverse (take result calls.now) ≡ after_return address (reverse calls.now) }
    ensures within { result ≤ length calls.now }
{
    let mut left = calls.len();
    while left > 0 {
        left -= 1;
        if calls[left].wrapping_add(4) == address {
            return left;
        }
    }
    calls.len().saturating_sub(1)
}

/// Ends the calls that a return to an address ends. The innermost is the last.
fn end_calls(calls: &mut Vec<u32>, address: u32)
    ensures { reverse calls.new.items ≡ after_return address (reverse calls.old.items) }
{
    let left = left_after_return(calls, address);
    calls.truncate(left);
}

/// Begins and ends calls as the instruction at a pc does, from which the run goes to the target. The innermost is the
/// last.
#[inline(always)]
pub(crate) fn follow_hint(
    calls: &mut Vec<u32>,
    hint: Hint,
    pc: u32,
    target: u32,
) -> Result<(), NoMemory>
    ensures { OnOk result (reverse calls.new.items ≡ after_hint hint pc target (reverse calls.old.items)) }
{
    match hint {
        Hint::Calls => calls.push(pc)?,
        Hint::Returns => end_calls(calls, target),
        Hint::ReturnsAndCalls => {
            end_calls(calls, target);
            calls.push(pc)?;
        }
        Hint::Neither => {}
    }
    Ok(())
}
