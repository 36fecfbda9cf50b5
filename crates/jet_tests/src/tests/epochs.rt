//! Runs that are cut into epochs: how many there may be.

use super::{BY_STEPS, COPY, Ending, Entry, Line, assert_command, log_of, program};
use guest_assembler::{Instr, code};

/// Counts down from 2047 and exits: 4,097 steps.
const COUNT_DOWN: [Instr; 5] = code![
    li(x5, 2047),
    addi(x5, x5, -1),
    bne(x5, x0, -4),
    li(x17, 93),
    ecall(),
];

/// The command lines over its run, their statuses, and what they write: 4,097 epochs are too many, and 2,049 are not.
const LIMITS: &[(Line, u8, &str)] = &[
    (BY_STEPS, 9, "jet: limit epochs 4097\n"),
    ("jet query prog log query --epoch 2", 0, "end 0\n"),
    (
        "jet influence prog log query --epoch 1",
        9,
        "jet: limit epochs 4097\n",
    ),
    (
        "jet path prog log query --epoch 1",
        9,
        "jet: limit epochs 4097\n",
    ),
    (
        "jet page prog log query page --epoch 1",
        9,
        "jet: limit epochs 4097\n",
    ),
    (
        "jet show prog log query --epoch 1",
        9,
        "jet: limit epochs 4097\n",
    ),
    (
        "jet queries prog log query query --epoch 1",
        9,
        "jet: limit epochs 4097\n",
    ),
    ("jet query prog log query --workers 0", 2, "jet: usage\n"),
];

#[test]
fn too_many_epochs_are_refused(rt: HostRuntime) {
    let file = program(&rt, &COUNT_DOWN);
    let log = log_of(&rt, &file, 1, 0, &[Entry::Exit(4096, 0)]);
    for &(line, status, text) in LIMITS {
        let ending = Ending::of(status, text);
        assert_command(&rt, line, &file, &log, COPY.as_bytes(), ending);
    }
}
