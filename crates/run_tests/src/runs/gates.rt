//! Gates that epochs enter.

use super::{ALONE, COPIED, COPY, Line, answer_by_rounds, answer_of, assert_text, query_of};
use crate::guests::{COPY_FOUR, Runtime, job_of};
use memory_outside::{CountingGate, MeetingGate};
use replayer::Job;

/// Each of so many epochs of a length enters the gate once, by these workers.
fn assert_each_enters_once(rt: &impl Runtime, job: &Job, length: u64, epochs: u32, line: Line) {
    let wanted = query_of(rt, COPY);
    let gate = CountingGate::new(rt.alloc(), epochs).expect(rt, "memory");
    let _found = answer_of(rt, &gate, job, &wanted, length, line);
    assert!(rt; gate.is_entered_by_each_once());
}

/// The same by rounds.
fn assert_each_enters_once_by_rounds(rt: &impl Runtime, job: &Job, length: u64, epochs: u32) {
    let wanted = query_of(rt, COPY);
    let gate = CountingGate::new(rt.alloc(), epochs).expect(rt, "memory");
    let _found = answer_by_rounds(rt, &gate, job, &wanted, length, 1);
    assert!(rt; gate.is_entered_by_each_once());
}

/// How long an epoch of the copy of four bytes is, and how many there are then.
const LENGTHS: [(u64, u32); 3] = [(1, 12), (5, 3), (12, 1)];

/// Each epoch enters the gate once, whatever its number and the workers'.
#[test]
fn each_epoch_enters_the_gate_once(rt: HostRuntime) {
    let job = job_of(&rt, &COPY_FOUR);
    for (length, epochs) in LENGTHS {
        for workers in [1, 2, 8] {
            let line = Line { workers, ..ALONE };
            assert_each_enters_once(&rt, &job, length, epochs, line);
        }
        assert_each_enters_once_by_rounds(&rt, &job, length, epochs);
    }
}

/// With two workers, two epochs are in their analyses at once.
#[test]
fn two_epochs_are_at_work_at_once(rt: HostRuntime) {
    let job = job_of(&rt, &COPY_FOUR);
    let wanted = query_of(&rt, COPY);
    let gate = MeetingGate::new(rt.alloc()).expect(&rt, "memory");
    let line = Line {
        workers: 2,
        ..ALONE
    };
    let found = answer_of(&rt, &gate, &job, &wanted, 6, line);
    assert!(rt; gate.is_met());
    assert_text(&rt, &found.report, COPIED);
}
