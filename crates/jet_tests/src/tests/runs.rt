//! Recorded runs: their numbers, what they wrote, and where they diverge.

use super::guests::COPY_CODE;
use super::refusals::CHANGED_LOGS;
use super::{
    BASE, BY_STEPS, COPY, Ending, Entry, Line, NO_INSTRUCTION, Patch, QUERY, Runtime, TIME,
    assert_command, copied, log_of, patched, program,
};
use guest_assembler::{Instr, code};

pub const REPLAY: Line = "jet replay prog log";

pub const OUTPUT: Line = "jet output prog log 1";

pub const CONVERT: Line = "jet convert prog log new";

pub const INFLUENCE: Line = "jet influence prog log query";

pub const QUERIES: Line = "jet queries prog log query";

pub const CALLS: Line = "jet calls prog log";

pub const INPUT: Line = "jet input prog log 0";

pub const STACK: Line = "jet stack prog log 3";

pub const SHOW: Line = "jet show prog log query";

pub const DECISIONS: Line = "jet decisions prog log query";

pub const PATH: Line = "jet path prog log query";

pub const PAGE: Line = "jet page prog log query page";

pub const CORE: Line = "jet core prog log 12 core";

/// The commands over a log, and a query in many epochs.
pub const READERS: [Line; 15] = [
    QUERY, REPLAY, OUTPUT, CONVERT, INFLUENCE, QUERIES, PATH, PAGE, CALLS, INPUT, STACK, SHOW,
    DECISIONS, CORE, BY_STEPS,
];

/// The numbers of the four-byte copy.
pub const NUMBERS: &str = "steps 12\ncalls 2\nread 4\nwritten 4\nend exit 0\n";

/// The four-byte copy.
pub const COPIES: &[Entry] = &[
    Entry::Read(5, 0, 4, b"ABCD"),
    Entry::Write(8, 1, 4, b"ABCD"),
    Entry::Exit(11, 0),
];

/// The same, cut off after the read.
const CUT: &[Entry] = &[Entry::Read(5, 0, 4, b"ABCD"), Entry::Limit(6)];

/// Jumps to an address that is no multiple of 4.
const JUMP_ASTRAY: &[Instr] = &code![jalr(x0, 2(x2))];

const BREAK: &[Instr] = &code![ebreak()];

/// Reads four bytes, and writes them on channel 1, the first on channel 2, and the first on channel 1 again. Between
/// these it asks for the time, and makes a call that there is none of.
pub const WRITE_ON_TWO: &[Instr] = &code![
    lui(x11, 0x10000),
    addi(x11, x11, 256),
    li(x10, 0),
    li(x12, 4),
    li(x17, 63),
    ecall(),
    li(x17, 64),
    li(x10, 1),
    ecall(),
    li(x12, 1),
    li(x10, 2),
    ecall(),
    li(x17, 2000),
    ecall(),
    li(x17, 5),
    ecall(),
    lui(x11, 0x10000),
    addi(x11, x11, 256),
    li(x17, 64),
    li(x10, 1),
    ecall(),
    li(x10, 0),
    li(x17, 93),
    ecall(),
];

/// Its run.
pub const ON_TWO: &[Entry] = &[
    Entry::Read(5, 0, 4, b"ABCD"),
    Entry::Write(8, 1, 4, b"ABCD"),
    Entry::Write(11, 2, 1, b"A"),
    Entry::Time(13, TIME),
    Entry::Other(15, 5),
    Entry::Write(20, 1, 1, b"A"),
    Entry::Exit(23, 0),
];

/// Calls a function that calls another, and exits.
const CALL_TWICE: &[Instr] = &code![
    jal(x1, 12),
    li(x17, 93),
    ecall(),
    addi(x5, x1, 0),
    jal(x1, 12),
    addi(x1, x5, 0),
    jalr(x0, 0(x1)),
    jalr(x0, 0(x1)),
];

/// Its run.
const CALLED: &[Entry] = &[Entry::Exit(7, 0)];

/// Reads a byte, and skips an instruction where it is 0.
const BRANCH: &[Instr] = &code![
    lui(x11, 0x10000),
    addi(x11, x11, 256),
    li(x10, 0),
    li(x12, 1),
    li(x17, 63),
    ecall(),
    lbu(x6, 0(x11)),
    beq(x6, x0, 8),
    li(x10, 0),
    li(x17, 93),
    ecall(),
];

/// The calls of the four-byte copy.
pub const CALLS_OF_COPY: &str = "5 read 0:0 4 m:65792 \"ABCD\"
8 write 1:0 4 m:65792 \"ABCD\"
11 exit 0
end 3
";

/// Those of the guest that writes on two channels.
const CALLS_ON_TWO: &str = "5 read 0:0 4 m:65792 \"ABCD\"
8 write 1:0 4 m:65792 \"ABCD\"
11 write 2:0 1 m:65792 \"A\"
13 clock 4294967298
15 other 5
20 write 1:4 1 m:65792 \"A\"
23 exit 0
end 7
";

/// Words, a guest's code, its records, and what is written.
const RUNS: &[(Line, &[Instr], &[Entry], &str)] = &[
    (REPLAY, COPY_CODE, COPIES, NUMBERS),
    (
        REPLAY,
        &[NO_INSTRUCTION],
        &[Entry::Trap(0, 2, BASE)],
        "steps 0\ncalls 0\nread 0\nwritten 0\nend trap 2 65536\n",
    ),
    (
        REPLAY,
        COPY_CODE,
        &[Entry::Limit(5)],
        "steps 5\ncalls 0\nread 0\nwritten 0\nend limit\n",
    ),
    (
        REPLAY,
        COPY_CODE,
        CUT,
        "steps 6\ncalls 1\nread 4\nwritten 0\nend limit\n",
    ),
    (INPUT, COPY_CODE, COPIES, "ABCD"),
    (INPUT, COPY_CODE, CUT, "ABCD"),
    (INPUT, COPY_CODE, &[Entry::Limit(5)], ""),
    ("jet input prog log 1", COPY_CODE, COPIES, ""),
    ("jet input prog log 15", COPY_CODE, COPIES, ""),
    // The guest calls at 0x10000, and in that at 0x10010, and returns from both.
    (
        "jet stack prog log 0",
        CALL_TWICE,
        CALLED,
        "0x00010000\nend 1\n",
    ),
    (
        "jet stack prog log 1",
        CALL_TWICE,
        CALLED,
        "0x0001000c\n0x00010000\nend 2\n",
    ),
    (
        STACK,
        CALL_TWICE,
        CALLED,
        "0x0001001c\n0x00010010\n0x00010000\nend 3\n",
    ),
    (
        "jet stack prog log 4",
        CALL_TWICE,
        CALLED,
        "0x00010014\n0x00010000\nend 2\n",
    ),
    (
        "jet stack prog log 6",
        CALL_TWICE,
        CALLED,
        "0x00010004\nend 1\n",
    ),
    // At the run's end the pc is behind the exit's ECALL; the run has no later time.
    (
        "jet stack prog log 8",
        CALL_TWICE,
        CALLED,
        "0x0001000c\nend 1\n",
    ),
    ("jet stack prog log 9", CALL_TWICE, CALLED, "end 0\n"),
    (
        "jet stack prog log 1099511627776",
        CALL_TWICE,
        CALLED,
        "end 0\n",
    ),
    // Several times, in the order of the words, one of them twice.
    (
        "jet stack prog log 4 9 0 4",
        CALL_TWICE,
        CALLED,
        "stack 4\n0x00010014\n0x00010000\nend 2\nstack 9\nend 0\nstack 0\n0x00010000\nend 1\n\
        stack 4\n0x00010014\n0x00010000\nend 2\nend 13\n",
    ),
    (
        DECISIONS,
        BRANCH,
        &[Entry::Read(5, 0, 1, b"A"), Entry::Exit(10, 0)],
        "0x0001001c beq r:6.0 1 7 0:0-1\nend 1\n",
    ),
    (CALLS, COPY_CODE, COPIES, CALLS_OF_COPY),
    (
        CALLS,
        COPY_CODE,
        CUT,
        "5 read 0:0 4 m:65792 \"ABCD\"\n6 limit\nend 2\n",
    ),
    (CALLS, COPY_CODE, &[Entry::Limit(5)], "5 limit\nend 1\n"),
    (
        CALLS,
        &[NO_INSTRUCTION],
        &[Entry::Trap(0, 2, BASE)],
        "0 trap 2 0x00010000\nend 1\n",
    ),
    (CALLS, WRITE_ON_TWO, ON_TWO, CALLS_ON_TWO),
    (OUTPUT, COPY_CODE, COPIES, "ABCD"),
    (OUTPUT, COPY_CODE, CUT, ""),
    ("jet output prog log 0", COPY_CODE, COPIES, ""),
    ("jet output prog log 15", COPY_CODE, COPIES, ""),
    (OUTPUT, WRITE_ON_TWO, ON_TWO, "ABCDA"),
    ("jet output prog log 2", WRITE_ON_TWO, ON_TWO, "A"),
    (
        REPLAY,
        WRITE_ON_TWO,
        ON_TWO,
        "steps 24\ncalls 6\nread 4\nwritten 6\nend exit 0\n",
    ),
    (
        QUERY,
        &[NO_INSTRUCTION],
        &[Entry::Trap(0, 2, BASE)],
        "end 0\n",
    ),
    (
        INFLUENCE,
        &[NO_INSTRUCTION],
        &[Entry::Trap(0, 2, BASE)],
        "end 0\n",
    ),
    (INFLUENCE, COPY_CODE, CUT, "0:0\n0:1\n0:2\n0:3\nend 4\n"),
    (
        INFLUENCE,
        WRITE_ON_TWO,
        ON_TWO,
        "0:0 1:0 1:4 2:0\n0:1 1:1\n0:2 1:2\n0:3 1:3\nend 4\n",
    ),
    (
        QUERIES,
        &[NO_INSTRUCTION],
        &[Entry::Trap(0, 2, BASE)],
        "query 1\nend 0\n",
    ),
    (QUERY, JUMP_ASTRAY, &[Entry::Trap(0, 0, BASE)], "end 0\n"),
    (QUERY, BREAK, &[Entry::Trap(0, 3, BASE)], "end 0\n"),
];

/// A guest's code, records that aren't those of its run, and the line of status 5.
const DIVERGING: &[(&[Instr], &[Entry], &str)] = &[
    (
        COPY_CODE,
        &[
            Entry::Read(5, 0, 4, b"ABCD"),
            Entry::Refused(2, 8, 1, 4),
            Entry::Exit(11, 0),
        ],
        "jet: diverged at 8 result kept -9 seen 4\n",
    ),
    (
        &[NO_INSTRUCTION],
        &[Entry::Trap(0, 3, BASE)],
        "jet: diverged at 0 kind kept 3 seen 2\n",
    ),
    (
        &[NO_INSTRUCTION],
        &[Entry::Trap(0, 2, 0)],
        "jet: diverged at 0 pc kept 0 seen 65536\n",
    ),
];

/// Each command is refused so over these files.
fn assert_refused(rt: &impl Runtime, program: &[u8], log: &[u8], ending: Ending<'_>) {
    for line in READERS {
        assert_command(rt, line, program, log, COPY.as_bytes(), ending);
    }
}

/// A command over the log of these records ends so.
fn assert_run(
    rt: &impl Runtime,
    line: Line,
    code: &[Instr],
    entries: &[Entry],
    ending: Ending<'_>,
) {
    let program = program(rt, code);
    let log = log_of(rt, &program, 1, 1, entries);
    assert_command(rt, line, &program, &log, COPY.as_bytes(), ending);
}

#[test]
fn runs_have_numbers_and_outputs(rt: HostRuntime) {
    for &(line, code, entries, text) in RUNS {
        assert_run(&rt, line, code, entries, Ending::report(text));
    }
}

#[test]
fn a_run_that_diverges_is_refused(rt: HostRuntime) {
    for &(code, entries, said) in DIVERGING {
        for line in READERS {
            assert_run(&rt, line, code, entries, Ending::of(5, said));
        }
    }
}

/// Each command is refused so with these bytes changed in the log.
fn assert_changed(rt: &impl Runtime, program: &[u8], log: &[u8], patch: Patch, ending: Ending<'_>) {
    let changed = patched(rt, log, patch);
    assert_refused(rt, program, &changed, ending);
}

#[test]
fn a_changed_log_is_refused(rt: HostRuntime) {
    let (program, log) = copied(&rt);
    for &(patch, status, said) in CHANGED_LOGS {
        assert_changed(&rt, &program, &log, patch, Ending::of(status, said));
    }
}

/// One byte of the log is missing; and one page can't hold the program.
#[test]
fn a_log_that_does_not_fit_is_refused(rt: HostRuntime) {
    let (program, log) = copied(&rt);
    let short = Ending::of(4, "jet: log 3 Short at 98\n");
    assert_refused(&rt, &program, &log[..log.len().min(106)], short);
    let wide = patched(&rt, &program, (72, b"\0\x20\0\0"));
    let log_wide = log_of(&rt, &wide, 1, 1, COPIES);
    assert_refused(&rt, &wide, &log_wide, Ending::of(3, "jet: window 1\n"));
}
