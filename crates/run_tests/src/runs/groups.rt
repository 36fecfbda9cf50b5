//! The groups of neighbouring epochs that workers have.

use super::{ALONE, COPIED, COPY, Line, answer_of, assert_text, query_of};
use crate::guests::{COPY_FOUR, Runtime, job_of};
use outer_io::Gate;
use replayer::Job;
use std::sync::atomic::{AtomicU64, Ordering};
use std::thread;

/// How often the first epoch of a group looks whether those of all other groups have entered.
const LOOKS: u64 = 10_000_000;

/// A gate that holds the first epoch of each group until those of all groups have entered, or until it has looked often
/// enough.
#[derive(Drop)]
struct GroupsGate {
    /// The first epoch of each group.
    firsts: &'static [u32],
    /// How many of these have entered.
    entered: AtomicU64,
    /// How many epochs went on before all of these had entered.
    early: AtomicU64,
}

impl GroupsGate {
    /// A gate for groups that begin with these epochs.
    fn new(firsts: &'static [u32]) -> GroupsGate {
        GroupsGate {
            firsts,
            entered: AtomicU64::new(0),
            early: AtomicU64::new(0),
        }
    }

    /// Whether the first epoch of each group has entered.
    fn is_full(&self) -> bool {
        self.entered.load(Ordering::SeqCst) == self.firsts.len() as u64
    }

    /// Whether the first epochs of all groups were inside at once, and all others entered after them.
    fn is_met(&self) -> bool {
        self.is_full() && self.early.load(Ordering::SeqCst) == 0
    }
}

impl Gate for GroupsGate {
    fn enter(&self, epoch: u32) {
        if self.firsts.contains(&epoch) {
            self.entered.fetch_add(1, Ordering::SeqCst);
            for _ in 0..LOOKS {
                if self.is_full() {
                    return;
                }
                thread::yield_now();
            }
        }
        if !self.is_full() {
            self.early.fetch_add(1, Ordering::SeqCst);
        }
    }
}

/// By so many workers, twelve epochs fall into groups that begin with these.
fn assert_groups(rt: &impl Runtime, job: &Job, workers: u32, firsts: &'static [u32]) {
    let wanted = query_of(rt, COPY);
    let gate = GroupsGate::new(firsts);
    let line = Line { workers, ..ALONE };
    let found = answer_of(rt, &gate, job, &wanted, 1, line);
    assert!(rt; gate.is_met());
    assert_text(rt, &found.report, COPIED);
}

/// How many workers there are, and with which epochs the groups begin.
const GROUPS: [(u32, &[u32]); 5] = [
    (1, &[0]),
    (2, &[0, 6]),
    (4, &[0, 3, 6, 9]),
    (5, &[0, 2, 4, 6, 9]),
    (64, &[0, 1, 2, 3, 4, 5, 6, 7, 8, 9, 10, 11]),
];

/// Each worker has a group of its own, and there are as many as workers, or as epochs where these are fewer.
#[test]
fn each_worker_has_a_part_of_the_epochs(rt: HostRuntime) {
    let job = job_of(&rt, &COPY_FOUR);
    for (workers, firsts) in GROUPS {
        assert_groups(&rt, &job, workers, firsts);
    }
}
