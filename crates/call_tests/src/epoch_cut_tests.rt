//! Runs that are cut by a length.

ghost use Rattle.std.specs.Prelude.{◌≤◌};

use crate::asserts::{Runtime, assert_same};
use epoch_cut::{CutFault, cuts};

/// A run of so many steps.
const LONG: u64 = 1 << 40;

/// The number of each epoch, and the times before its first and after its last step.
fn epochs(rt: &impl Runtime, steps: u64, length: u64) -> Vec<(u32, u64, u64)>
    requires { 1 ≤ length }
{
    let alloc = rt.alloc();
    let cuts = cuts(steps, length).expect(rt, "few epochs");
    let tickets = cuts.tickets(alloc).expect(rt, "memory");
    let mut epochs = Vec::new(alloc);
    for ticket in &tickets {
        let epoch = (ticket.number(), ticket.first(), ticket.past_last());
        epochs.push(epoch).expect(rt, "memory");
    }
    epochs
}

/// How many epochs there are, or would be.
fn count(steps: u64, length: u64) -> Result<u32, u64>
    requires { 1 ≤ length }
{
    match cuts(steps, length) {
        Ok(cuts) => Ok(cuts.count()),
        Err(CutFault::TooMany(count)) => Err(count),
    }
}

#[test]
fn epochs_are_as_long_as_said(rt: HostRuntime) {
    assert_same(&rt, epochs(&rt, 0, 6).as_slice(), [(0, 0, 0)].as_slice());
    assert_same(&rt, epochs(&rt, 1, 6).as_slice(), [(0, 0, 1)].as_slice());
    assert_same(
        &rt,
        epochs(&rt, 12, 6).as_slice(),
        [(0, 0, 6), (1, 6, 12)].as_slice(),
    );
    let uneven = [(0, 0, 7), (1, 7, 14), (2, 14, 18)];
    assert_same(&rt, epochs(&rt, 18, 7).as_slice(), uneven.as_slice());
}

#[test]
fn epochs_are_counted(rt: HostRuntime) {
    assert_same(&rt, count(12, 1), Ok(12));
    assert_same(&rt, count(4097, 1), Err(4097));
    assert_same(&rt, count(4097, 2), Ok(2049));
    assert_same(&rt, count(LONG, 1 << 28), Ok(4096));
    assert_same(&rt, count(LONG, (1 << 28) - 1), Err(4097));
}
