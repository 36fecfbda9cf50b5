//! Runs that are recorded: their logs, byte by byte, and what a query tells of them.

ghost use Rattle.std.specs.Prelude.{◌<◌};

use super::changed_code::{CHANGE, RECORDING as CHANGED_CODE, ROUTINE};
use super::convert::assert_conversion;
use super::guests::COPY_CODE;
use super::runs::{COPIES, ON_TWO, WRITE_ON_TWO};
use super::{
    BASE, COMPUTE, COPIED, COPY, Channels, Ending, Entry, Line, NEVER, NO_INSTRUCTION, QUERY,
    Runtime, TIME, assert_ends, patched, program, push_file, store_of, wide_log_of,
};
use command_parts::read_file;
use guest_assembler::{Instr, code};
use memory_outside::{MemoryFile, MemoryStore};

/// Asks for the time, and writes it.
const TELL_THE_TIME: &[Instr] = &code![
    lui(x8, 0x10000),
    addi(x8, x8, 256),
    li(x17, 2000),
    ecall(),
    sw(x10, 0(x8)),
    sw(x11, 4(x8)),
    li(x10, 1),
    addi(x11, x8, 0),
    li(x12, 8),
    li(x17, 64),
    ecall(),
    li(x10, 0),
    li(x17, 93),
    ecall(),
];

/// Reads four bytes of channel 1, and writes them.
const COPY_THE_SECOND: &[Instr] = &code![
    lui(x11, 0x10000),
    addi(x11, x11, 256),
    li(x10, 1),
    li(x12, 4),
    li(x17, 63),
    ecall(),
    li(x10, 1),
    li(x17, 64),
    ecall(),
    li(x10, 0),
    li(x17, 93),
    ecall(),
];

/// Writes 16,711,680 bytes five times.
const WRITE_MUCH: &[Instr] = &code![
    lui(x11, 0x10000),
    lui(x12, 0xff0000),
    li(x17, 64),
    li(x10, 1),
    ecall(),
    li(x10, 1),
    ecall(),
    li(x10, 1),
    ecall(),
    li(x10, 1),
    ecall(),
    li(x10, 1),
    ecall(),
    li(x10, 0),
    li(x17, 93),
    ecall(),
];

const RECORD: Line = "jet record prog log in --pages 1";

/// In the greatest window.
const WIDEST: Line = "jet record prog log --pages 4096";

/// A guest, the words that record it, and its log: the pages, what was read of each input, the records, and the length of
/// all. Then a query of the log, and its report.
#[derive(Clone, Copy)]
pub struct Recording {
    pub code: &'static [Instr],
    pub line: Line,
    pub pages: u32,
    pub channels: Channels,
    pub entries: &'static [Entry],
    pub length: usize,
    pub query: &'static str,
    pub report: &'static str,
}

impl Recording {
    /// The log of the run.
    pub fn log(&self, rt: &impl Runtime, program: &[u8]) -> Vec<u8> {
        wide_log_of(rt, program, self.pages, self.channels, self.entries)
    }
}

/// What the four-byte copy reads.
pub const FOUR: Channels = &[b"ABCD"];

const RECORDINGS: &[Recording] = &[
    Recording {
        code: COPY_CODE,
        line: RECORD,
        pages: 1,
        channels: FOUR,
        entries: COPIES,
        length: 123,
        query: COPY,
        report: COPIED,
    },
    Recording {
        code: COPY_CODE,
        line: "jet record prog log in",
        pages: 256,
        channels: FOUR,
        entries: COPIES,
        length: 123,
        query: COPY,
        report: COPIED,
    },
    // The greatest numbers, and as many inputs as there may be.
    Recording {
        code: COPY_CODE,
        line: "jet record prog log in in in in in in in in in in in in in in in in --pages 4096 --piece 16777216 --steps 1099511627776",
        pages: 4096,
        channels: &[
            b"ABCD", b"", b"", b"", b"", b"", b"", b"", b"", b"", b"", b"", b"", b"", b"", b"",
        ],
        entries: COPIES,
        length: 183,
        query: COPY,
        report: COPIED,
    },
    // A read gets two bytes at most.
    Recording {
        code: COPY_CODE,
        line: "jet record prog log in --pages 1 --piece 2",
        pages: 1,
        channels: &[b"AB"],
        entries: &[
            Entry::Read(5, 0, 4, b"AB"),
            Entry::Write(8, 1, 4, b"AB\0\0"),
            Entry::Exit(11, 0),
        ],
        length: 121,
        query: COPY,
        report: "1:0 0:0\n1:1 0:1\n1:2\n1:3\nend 4\n",
    },
    // There is no channel 0.
    Recording {
        code: COPY_CODE,
        line: "jet record prog log --pages 1",
        pages: 1,
        channels: &[],
        entries: &[
            Entry::Refused(1, 5, 0, 4),
            Entry::Write(8, 1, 4, b"\0\0\0\0"),
            Entry::Exit(11, 0),
        ],
        length: 115,
        query: COPY,
        report: "1:0\n1:1\n1:2\n1:3\nend 4\n",
    },
    // Cut off before the read, after it, and not at all.
    Recording {
        code: COPY_CODE,
        line: "jet record prog log four --pages 1 --steps 5",
        pages: 1,
        channels: &[b""],
        entries: &[Entry::Limit(5)],
        length: 61,
        query: COPY,
        report: "end 0\n",
    },
    Recording {
        code: COPY_CODE,
        line: "jet record prog log four --pages 1 --steps 6",
        pages: 1,
        channels: FOUR,
        entries: &[Entry::Read(5, 0, 4, b"ABCD"), Entry::Limit(6)],
        length: 90,
        query: COPY,
        report: "end 0\n",
    },
    Recording {
        code: COPY_CODE,
        line: "jet record prog log four --pages 1 --steps 12",
        pages: 1,
        channels: FOUR,
        entries: COPIES,
        length: 123,
        query: COPY,
        report: COPIED,
    },
    Recording {
        code: TELL_THE_TIME,
        line: "jet record prog log --pages 1",
        pages: 1,
        channels: &[],
        entries: &[
            Entry::Time(3, TIME),
            Entry::Write(10, 1, 8, b"\x02\0\0\0\x01\0\0\0"),
            Entry::Exit(13, 0),
        ],
        length: 111,
        query: COMPUTE,
        report: "1:0\n1:1\n1:2\n1:3\n1:4\n1:5\n1:6\n1:7\nend 8\n",
    },
    Recording {
        code: COPY_THE_SECOND,
        line: "jet record prog log in other --pages 1",
        pages: 1,
        channels: &[b"", b"WXYZ"],
        entries: &[
            Entry::Read(5, 1, 4, b"WXYZ"),
            Entry::Write(8, 1, 4, b"WXYZ"),
            Entry::Exit(11, 0),
        ],
        length: 127,
        query: COPY,
        report: "1:0 1:0\n1:1 1:1\n1:2 1:2\n1:3 1:3\nend 4\n",
    },
    // Each kind of record.
    Recording {
        code: WRITE_ON_TWO,
        line: "jet record prog log four --pages 1",
        pages: 1,
        channels: FOUR,
        entries: ON_TWO,
        length: 205,
        query: COPY,
        report: "1:0 0:0\n1:1 0:1\n1:2 0:2\n1:3 0:3\n1:4 0:0\n2:0 0:0\nend 6\n",
    },
    // A word that no instruction has.
    Recording {
        code: &[NO_INSTRUCTION],
        line: "jet record prog log four --pages 1 --steps 1",
        pages: 1,
        channels: &[b""],
        entries: &[Entry::Trap(0, 2, BASE)],
        length: 69,
        query: COPY,
        report: "end 0\n",
    },
    CHANGED_CODE,
];

/// The inputs.
const INPUTS: &[(&str, &[u8])] = &[
    ("in", b"ABCDEFG"),
    ("four", b"ABCD"),
    ("other", b"WXYZ"),
    ("routine", ROUTINE),
    ("change", CHANGE),
];

/// Adds a program, the same for a wider window, and what begins it.
fn push_programs(rt: &impl Runtime, files: &mut Vec<MemoryFile>, program: &[u8]) {
    let wide = patched(rt, program, (72, b"\0\x20\0\0"));
    push_file(rt, files, "wide", &wide);
    push_file(rt, files, "prog", program);
    push_file(rt, files, "short", &program[..program.len().min(51)]);
}

/// The programs, the inputs, and a query.
fn files(rt: &impl Runtime, program: &[u8], query: &str) -> Vec<MemoryFile> {
    let mut files = Vec::new(rt.alloc());
    push_programs(rt, &mut files, program);
    for &(name, bytes) in INPUTS {
        push_file(rt, &mut files, name, bytes);
    }
    push_file(rt, &mut files, "query", query.as_bytes());
    files
}

/// A store of a program, of inputs and of a query, of which the call of this number fails. Its calls move so many
/// bytes.
fn store(rt: &impl Runtime, program: &[u8], query: &str, failing: u64, piece: usize) -> MemoryStore
    requires { 0 < piece }
{
    let files = files(rt, program, query);
    store_of(rt, files, failing, piece, 1000)
}

/// The store's file of this name has these bytes, or there is no such file.
pub fn assert_file(
    rt: &impl Runtime,
    store: &mut MemoryStore,
    name: &str,
    expected: Option<&[u8]>,
) {
    let is_so = match read_file(rt.alloc(), store, name) {
        Ok(file) => expected == Some(file.as_slice()),
        Err(_) => expected.is_none(),
    };
    assert!(rt; is_so, "{name}");
}

/// The run over this store is recorded in this log, of which the query tells this.
fn assert_recorded(rt: &impl Runtime, recording: &Recording, store: &mut MemoryStore, log: &[u8]) {
    assert_ends(rt, recording.line, store, Ending::report(""));
    assert_file(rt, store, "log", Some(log));
    assert_ends(rt, QUERY, store, Ending::report(recording.report));
}

fn assert_recording(rt: &impl Runtime, recording: &Recording) {
    let program = program(rt, recording.code);
    let log = recording.log(rt, &program);
    assert_eq!(rt; log.len(), recording.length);
    let mut store = store(rt, &program, recording.query, NEVER, 65536);
    assert_recorded(rt, recording, &mut store, &log);
}

#[test]
fn runs_are_recorded_and_converted(rt: HostRuntime) {
    for recording in RECORDINGS {
        assert_recording(&rt, recording);
        assert_conversion(&rt, recording);
    }
}

/// Words, their status and their line. No file is written.
const REFUSED: &[(Line, u8, &str)] = &[
    ("jet record none log in", 7, "jet: read fault\n"),
    ("jet record prog log none", 7, "jet: read fault\n"),
    ("jet record prog log in none", 7, "jet: read fault\n"),
    ("jet record short log none", 3, "jet: image 1 Short\n"),
    ("jet record wide log none --pages 1", 7, "jet: read fault\n"),
    ("jet record wide log in --pages 1", 3, "jet: window 1\n"),
    ("jet record prog log in --pages 0", 2, "jet: usage\n"),
    (
        "jet record prog log in --steps 1099511627777",
        2,
        "jet: usage\n",
    ),
];

/// The command of these words is refused so, and writes no file.
fn assert_unwritten(rt: &impl Runtime, program: &[u8], line: Line, ending: Ending<'_>) {
    let mut store = store(rt, program, COPY, NEVER, 65536);
    assert_ends(rt, line, &mut store, ending);
    assert_file(rt, &mut store, "log", None);
}

#[test]
fn a_refused_recording_writes_no_file(rt: HostRuntime) {
    let program = program(&rt, COPY_CODE);
    for &(line, status, said) in REFUSED {
        assert_unwritten(&rt, &program, line, Ending::of(status, said));
    }
}

/// Five writes are more than a log may have.
#[test]
fn a_log_that_is_too_long_is_not_written(rt: HostRuntime) {
    let program = program(&rt, WRITE_MUCH);
    let ending = Ending::of(9, "jet: limit log 83558586\n");
    assert_unwritten(&rt, &program, WIDEST, ending);
}

/// The program and the input are there as before, and the log has these bytes or isn't there.
fn assert_files(rt: &impl Runtime, store: &mut MemoryStore, program: &[u8], log: Option<&[u8]>) {
    assert_file(rt, store, "log", log);
    assert_file(rt, store, "prog", Some(program));
    assert_file(rt, store, "in", Some(b"ABCDEFG"));
}

/// A recording over this store, of which this call fails.
fn assert_call_fails(
    rt: &impl Runtime,
    store: &mut MemoryStore,
    program: &[u8],
    log: &[u8],
    call: u64,
) {
    let (ending, written) = if call < 19 {
        (Ending::of(7, "jet: read fault\n"), None)
    } else if call < 34 {
        (Ending::of(8, "jet: write fault\n"), None)
    } else {
        (Ending::report(""), Some(log))
    };
    assert_ends(rt, RECORD, store, ending);
    // A call that never came fails now.
    let _ = read_file(rt.alloc(), store, "in");
    assert_files(rt, store, program, written);
}

/// A recording over a store of which this call fails.
fn assert_failing_call(rt: &impl Runtime, program: &[u8], log: &[u8], call: u64) {
    let mut store = store(rt, program, COPY, call, 10);
    assert_call_fails(rt, &mut store, program, log, call);
}

/// The program is read in 16 calls of ten bytes and the input in 3; the log is created, put in 13 pieces, and finished.
/// Each of these calls fails once, and then no file differs.
#[test]
fn a_failing_store_leaves_the_files(rt: HostRuntime) {
    let program = program(&rt, COPY_CODE);
    let log = wide_log_of(&rt, &program, 1, FOUR, COPIES);
    for call in 0..35 {
        assert_failing_call(&rt, &program, &log, call);
    }
}
