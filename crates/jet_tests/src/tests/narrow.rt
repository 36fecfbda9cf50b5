//! Queries that need the first half of a run, or less: what is told is that of the whole run.

use super::runs::{INFLUENCE, QUERIES, SHOW};
use super::{BY_STEPS, Ending, Entry, Line, QUERY, assert_command, log_of, program};
use guest_assembler::{Instr, code};

/// Reads two bytes and writes them, counts down from 3, reads two more and writes them: 25 steps.
pub const TWICE: [Instr; 21] = code![
    lui(x11, 0x10000),
    addi(x11, x11, 256),
    li(x10, 0),
    li(x12, 2),
    li(x17, 63),
    ecall(),
    li(x10, 1),
    li(x17, 64),
    ecall(),
    li(x5, 3),
    addi(x5, x5, -1),
    bne(x5, x0, -4),
    li(x10, 0),
    li(x17, 63),
    ecall(),
    li(x10, 1),
    li(x17, 64),
    ecall(),
    li(x10, 0),
    li(x17, 93),
    ecall(),
];

/// The calls of its run.
pub const CALLED_TWICE: [Entry; 5] = [
    Entry::Read(5, 0, 2, b"AB"),
    Entry::Write(8, 1, 2, b"AB"),
    Entry::Read(18, 0, 2, b"CD"),
    Entry::Write(21, 1, 2, b"CD"),
    Entry::Exit(24, 0),
];

/// The output bytes of the first write: nine steps.
const EARLY: &str = "rule copy\nsource all\nsink 1 0 2\n";

/// Those of the second write, and a point before both.
const LATE: &str = "rule copy\nsource all\nsink 1 2 4\nsink mem 65792 1 at 8\n";

/// No output byte, and no point.
const NOTHING: &str = "rule copy\nsource all\n";

/// A point of each write's bytes, the last before the run's half.
const POINTS: &str = "rule copy\nsource all\nsink mem 65793 1 at 6\nsink mem 65792 1 at 11\n";

/// A point at the run's end, and one after it.
const AT_THE_END: &str = "rule copy\nsource all\nsink mem 65792 1 at 25\nsink mem 65792 1 at 26\n";

const INFLUENCE_BY_STEPS: Line = "jet influence prog log query --epoch 1 --workers 2";

/// Words, queries, and what is told.
const TOLD: &[(Line, &str, &str)] = &[
    (QUERY, EARLY, "1:0 0:0\n1:1 0:1\nend 2\n"),
    (BY_STEPS, EARLY, "1:0 0:0\n1:1 0:1\nend 2\n"),
    (QUERY, LATE, "1:2 0:2\n1:3 0:3\nm:65792@8 0:0\nend 3\n"),
    (BY_STEPS, LATE, "1:2 0:2\n1:3 0:3\nm:65792@8 0:0\nend 3\n"),
    (QUERY, NOTHING, "end 0\n"),
    (BY_STEPS, NOTHING, "end 0\n"),
    (QUERY, POINTS, "m:65793@6 0:1\nm:65792@11 0:0\nend 2\n"),
    (BY_STEPS, POINTS, "m:65793@6 0:1\nm:65792@11 0:0\nend 2\n"),
    (QUERY, AT_THE_END, "m:65792@25 0:2\nend 1\n"),
    (QUERIES, EARLY, "query 1\n1:0 0:0\n1:1 0:1\nend 2\n"),
    (SHOW, EARLY, "1:0-2 \"AB\" = 0:0-2 \"AB\"\nend 1 0\n"),
    // The bytes that are received after the last chosen output byte have their lines too.
    (INFLUENCE, EARLY, "0:0 1:0\n0:1 1:1\n0:2\n0:3\nend 4\n"),
    (
        INFLUENCE_BY_STEPS,
        EARLY,
        "0:0 1:0\n0:1 1:1\n0:2\n0:3\nend 4\n",
    ),
    (INFLUENCE, NOTHING, "0:0\n0:1\n0:2\n0:3\nend 4\n"),
];

#[test]
fn what_comes_after_the_last_chosen_byte_changes_nothing(rt: HostRuntime) {
    let program = program(&rt, &TWICE);
    let log = log_of(&rt, &program, 1, 1, &CALLED_TWICE);
    for &(line, query, told) in TOLD {
        let ending = Ending::report(told);
        assert_command(&rt, line, &program, &log, query.as_bytes(), ending);
    }
}

/// A call after the last chosen byte that the log keeps wrongly is told as ever.
#[test]
fn a_later_call_is_checked(rt: HostRuntime) {
    let program = program(&rt, &TWICE);
    let mut entries = CALLED_TWICE;
    entries[3] = Entry::Write(21, 1, 2, b"CE");
    let log = log_of(&rt, &program, 1, 1, &entries);
    let ending = Ending::of(5, "jet: diverged at 21 byte 1 kept 69 seen 68\n");
    assert_command(&rt, QUERY, &program, &log, EARLY.as_bytes(), ending);
}
