//! The workload's run: its numbers, and its limits.

use super::{Ending, Line, Runtime, assert_ends, store_of};
use memory_outside::MemoryStore;

/// Words, and the lines that are printed. The counts and the digests were computed by another program.
const NUMBERS: &[(Line, &str)] = &[
    (
        "jet bench 1 30 --epoch 15",
        "steps 30
epochs 2
sinks 9
pairs 13
asked 13
report b1f4f2e2be8647edfa75968354cde6bf10ae7ca2951ee3c58c4e44a59d626a01
events 98
",
    ),
    // With one epoch nothing is asked, and the report is the same.
    (
        "jet bench 1 30",
        "steps 30
epochs 1
sinks 9
pairs 13
asked 0
report b1f4f2e2be8647edfa75968354cde6bf10ae7ca2951ee3c58c4e44a59d626a01
events 13
",
    ),
    (
        "jet bench 1 3",
        "steps 3
epochs 1
sinks 0
pairs 0
asked 0
report 73c903eb97b1052378529a73a681ba334bc9229f05ccb42c73b84a350db83e4f
events 4
",
    ),
    (
        "jet bench 18446744073709551615 1000 --workers 1 --link 1",
        "steps 1000
epochs 1
sinks 324
pairs 484
asked 0
report a48dafd02fad1119543dd99668e27ec4f974ecaf0eda1699ea5f43edb983973d
events 328
",
    ),
];

/// Words, their status and their line.
const REFUSED: &[(Line, u8, &str)] = &[
    ("jet bench 1 0", 2, "jet: usage\n"),
    ("jet bench 1", 2, "jet: usage\n"),
    (
        "jet bench 1 2000000 --epoch 1",
        9,
        "jet: limit epochs 2000000\n",
    ),
    ("jet bench 1 8194 --epoch 2", 9, "jet: limit epochs 4097\n"),
];

/// A store with no file, whose first call fails.
fn closed_store(rt: &impl Runtime) -> MemoryStore {
    store_of(rt, Vec::new(rt.alloc()), 0, 65536, 0)
}

/// The command of these words ends so, and calls no store.
fn assert_bench(rt: &impl Runtime, line: Line, ending: Ending<'_>) {
    let mut store = closed_store(rt);
    assert_ends(rt, line, &mut store, ending);
}

#[test]
fn a_workload_has_its_numbers(rt: HostRuntime) {
    for &(line, text) in NUMBERS {
        assert_bench(&rt, line, Ending::report(text));
    }
}

#[test]
fn a_workload_is_refused(rt: HostRuntime) {
    for &(line, status, said) in REFUSED {
        assert_bench(&rt, line, Ending::of(status, said));
    }
}
