//! Runs of source bytes.

use crate::asserts::{Runtime, assert_same};
use source_runs::{SourceRun, normalise, push_bytes};

/// Channels and offsets of bytes, in no order: 4 to 6 and 9 of channel 0, some of them twice, and 7 of channel 1.
const BYTES: &[(u8, u32)] = &[(0, 6), (1, 7), (0, 4), (0, 9), (0, 5), (0, 4), (1, 7)];

/// The runs of these bytes, each of one byte.
fn runs(rt: &impl Runtime, bytes: &[(u8, u32)]) -> Vec<SourceRun> {
    let mut runs = Vec::new(rt.alloc());
    for (channel, offset) in bytes {
        let byte = source!(*channel, *offset);
        runs.push(SourceRun::of_byte(byte)).expect(rt, "memory");
    }
    runs
}

#[test]
fn runs_in_any_order_are_a_set(rt: HostRuntime) {
    let mut spare = Vec::new(rt.alloc());
    let mut all = runs(&rt, BYTES);
    normalise(&mut all, &mut spare).expect(&rt, "memory");
    let mut sorted = runs(&rt, &[(0, 4), (0, 5), (0, 6), (0, 9), (1, 7)]);
    normalise(&mut sorted, &mut spare).expect(&rt, "memory");
    assert_same(&rt, all.len(), 3);
    assert!(rt; all.as_slice() == sorted.as_slice());
}

pub const UP_TO_3: SourceRun = run!(0, 1, 3);

pub const FROM_3: SourceRun = run!(0, 3, 4);

const UP_TO_4: SourceRun = run!(0, 1, 4);

const LATER: SourceRun = run!(0, 6, 6);

const OTHER_CHANNEL: SourceRun = run!(1, 7, 9);

#[test]
fn normalised_runs_are_those_of_their_bytes(rt: HostRuntime) {
    let alloc = rt.alloc();
    let mut runs = Vec::new(alloc);
    for run in [LATER, FROM_3, OTHER_CHANNEL, UP_TO_3] {
        runs.push(run).expect(&rt, "memory");
    }
    normalise(&mut runs, &mut Vec::new(alloc)).expect(&rt, "memory");
    assert_same(
        &rt,
        runs.as_slice(),
        [UP_TO_4, LATER, OTHER_CHANNEL].as_slice(),
    );
}

#[test]
fn runs_have_their_bytes(rt: HostRuntime) {
    let mut bytes = Vec::new(rt.alloc());
    push_bytes(&mut bytes, [FROM_3, LATER].as_slice()).expect(&rt, "memory");
    let want = [source!(0, 3), source!(0, 4), source!(0, 6)];
    assert!(rt; bytes.as_slice() == want.as_slice());
}
