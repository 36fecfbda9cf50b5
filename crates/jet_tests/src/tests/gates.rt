//! Gates that are handed to the whole program, and entered by the epochs of its command.

use super::{
    COPIED, COPY, Entry, Line, NEVER, QUERY, Runtime, copied, log_of, program, sink, status_by,
    store_with,
};
use guest_assembler::{Instr, code};
use memory_outside::{CountingGate, MeetingGate, MemoryStore};
use outer_io::Gate;

/// The query over the four-byte copy in two epochs, which two workers turn.
const BY_TWO: Line = "jet query prog log query --epoch 6 --workers 2";

/// The query over these files is answered with this report, where this gate is told of its epochs.
fn assert_report<G: Gate>(
    rt: &impl Runtime,
    line: Line,
    mut store: MemoryStore,
    report: &str,
    gate: &G,
) {
    let mut out = sink(rt, NEVER, 65536);
    let mut err = sink(rt, NEVER, 1);
    let status = status_by(rt, line, &mut store, &mut out, &mut err, gate);
    assert_eq!(rt; status, 0);
    assert_eq!(rt; out.bytes(), report.as_bytes());
}

/// The query over the four-byte copy is answered, where this gate is told of its epochs.
fn assert_copied<G: Gate>(rt: &impl Runtime, gate: &G) {
    let (program, log) = copied(rt);
    let store = store_with(rt, &program, &log, COPY.as_bytes(), NEVER, 65536, 0);
    assert_report(rt, BY_TWO, store, COPIED, gate);
}

/// Each epoch of a command enters the gate that the program is handed once.
#[test]
fn each_epoch_of_a_command_enters_the_gate(rt: HostRuntime) {
    let gate = CountingGate::new(rt.alloc(), 2).expect(&rt, "memory");
    assert_copied(&rt, &gate);
    assert!(rt; gate.is_entered_by_each_once());
}

/// With two workers, two epochs of a command are in their analyses at once.
#[test]
fn two_epochs_of_a_command_are_at_work_at_once(rt: HostRuntime) {
    let gate = MeetingGate::new(rt.alloc()).expect(&rt, "memory");
    assert_copied(&rt, &gate);
    assert!(rt; gate.is_met());
}

/// Counts down from 393216 and exits: 786,435 steps, three more than three epochs of the least length have.
const COUNT_DOWN: [Instr; 5] = code![
    lui(x5, 0x60000),
    addi(x5, x5, -1),
    bne(x5, x0, -4),
    li(x17, 93),
    ecall(),
];

/// A store of the files of that run, and this query.
fn counted(rt: &impl Runtime, query: &str) -> MemoryStore {
    let program = program(rt, &COUNT_DOWN);
    let log = log_of(rt, &program, 1, 0, &[Entry::Exit(786434, 0)]);
    store_with(rt, &program, &log, query.as_bytes(), NEVER, 65536, 0)
}

/// A point at that run's end, and the report.
const AT_THE_END: (&str, &str) = (
    "rule copy\nsource all\nsink mem 0 1 at 786435\n",
    "m:0@786435\nend 1\n",
);

/// The same by a rule that follows computed values too.
const AT_THE_END_COMPUTED: (&str, &str) = (
    "rule compute\nsource all\nsink mem 0 1 at 786435\n",
    "m:0@786435\nend 1\n",
);

/// The last point before its half.
const BEFORE_THE_HALF: (&str, &str) = (
    "rule copy\nsource all\nsink mem 0 1 at 393216\n",
    "m:0@393216\nend 1\n",
);

/// A point in its first steps.
const EARLY: (&str, &str) = (
    "rule copy\nsource all\nsink mem 0 1 at 9\n",
    "m:0@9\nend 1\n",
);

const BY_ONE: Line = "jet query prog log query --workers 1";

const BY_EIGHTHS: Line = "jet query prog log query --epoch 98305 --workers 2";

/// Queries over that run with their reports, and how many epochs enter the gate. Unless their length is told they get shorter where
/// moves alone are followed, no more than the run has times 262,144 steps; else the first is as long as three others, of 262,144 steps
/// at least. Where fewer than half of the steps are needed, these alone are cut.
const SHARES: &[(Line, (&str, &str), u32)] = &[
    (BY_ONE, AT_THE_END, 1),
    (QUERY, AT_THE_END, 3),
    (QUERY, AT_THE_END_COMPUTED, 2),
    (BY_EIGHTHS, AT_THE_END, 8),
    (QUERY, EARLY, 1),
    (BY_EIGHTHS, EARLY, 1),
    (BY_EIGHTHS, BEFORE_THE_HALF, 4),
    (BY_EIGHTHS, (COPY, "end 0\n"), 1),
];

#[test]
fn what_is_analysed_is_cut_for_the_workers(rt: HostRuntime) {
    for &(line, (query, report), epochs) in SHARES {
        let gate = CountingGate::new(rt.alloc(), epochs).expect(&rt, "memory");
        let store = counted(&rt, query);
        assert_report(&rt, line, store, report, &gate);
        assert!(rt; gate.is_entered_by_each_once());
    }
}
