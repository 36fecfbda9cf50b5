//! An outside that fails, and one that never does.

ghost use Rattle.std.specs.Prelude.{◌<◌};

use super::guests::COPY_CODE;
use super::runs::{
    CALLS, CALLS_OF_COPY, CONVERT, CORE, DECISIONS, INFLUENCE, INPUT, NUMBERS, OUTPUT, PAGE, PATH,
    QUERIES, REPLAY, SHOW, STACK,
};
use super::{
    COPIED, COPY, Ending, Entry, Line, NEVER, QUERY, Runtime, assert_ends, assert_puts, files,
    log_of, program, status_of, store_of,
};
use memory_outside::{MemoryFile, MemoryStore, SureSink, SureStore};

/// The words of commands over the four-byte copy, how often they call the store, and what they write.
const COMMANDS: &[(Line, u64, &str)] = &[
    (QUERY, 9, COPIED),
    (REPLAY, 6, NUMBERS),
    (OUTPUT, 6, "ABCD"),
    (INPUT, 6, "ABCD"),
    (CALLS, 6, CALLS_OF_COPY),
    (DECISIONS, 9, "end 0\n"),
    (STACK, 6, "0x0001000c\nend 1\n"),
    (INFLUENCE, 9, "0:0 1:0\n0:1 1:1\n0:2 1:2\n0:3 1:3\nend 4\n"),
    (
        QUERIES,
        9,
        "query 1\n1:0 0:0\n1:1 0:1\n1:2 0:2\n1:3 0:3\nend 4\n",
    ),
    (SHOW, 9, "1:0-4 \"ABCD\" = 0:0-4 \"ABCD\"\nend 1 0\n"),
    (
        PATH,
        9,
        "read 5 0x00010014 0:0 m:65792\nwrite 8 0x00010020 m:65792 1:0\nend 2\n",
    ),
];

/// The three files of the four-byte copy; the log has these bytes as written.
fn copied(rt: &impl Runtime, written: &'static [u8]) -> Vec<MemoryFile> {
    let program = program(rt, COPY_CODE);
    let entries = [
        Entry::Read(5, 0, 4, b"ABCD"),
        Entry::Write(8, 1, 4, written),
        Entry::Exit(11, 0),
    ];
    let log = log_of(rt, &program, 1, 1, &entries);
    files(rt, &program, &log, COPY.as_bytes())
}

/// A store of the files, of which the call of this number fails.
fn store(rt: &impl Runtime, written: &'static [u8], failing: u64) -> MemoryStore {
    store_of(rt, copied(rt, written), failing, 65536, 0)
}

/// A command that calls the store so often ends so where this call fails.
fn assert_read_fails(rt: &impl Runtime, line: Line, calls: u64, text: &str, call: u64) {
    let mut store = store(rt, b"ABCD", call);
    let ending = if call < calls {
        Ending::of(7, "jet: read fault\n")
    } else {
        Ending::report(text)
    };
    assert_ends(rt, line, &mut store, ending);
}

/// Each file is opened, read, and read to its end: three calls a file. Each of them fails once.
#[test]
fn each_failing_read_is_a_read_fault(rt: HostRuntime) {
    for &(line, calls, text) in COMMANDS {
        for call in 0..10 {
            assert_read_fails(&rt, line, calls, text, call);
        }
    }
}

/// How a command with this text ends whose output takes so many bytes at a time, and fails at this put.
fn ending_at(text: &str, put: u64, piece: usize) -> Ending<'_> {
    let bytes = text.as_bytes();
    let length = (put as usize).saturating_mul(piece);
    if length >= bytes.len() {
        return Ending::report(text);
    }
    Ending {
        status: 8,
        out: &bytes[..length],
        err: "jet: write fault\n",
    }
}

/// A command whose output takes at most so many bytes at a time, and fails at this put, ends so.
fn assert_put_fails(rt: &impl Runtime, line: Line, text: &str, put: u64, piece: usize)
    requires { 0 < piece }
{
    let mut store = store(rt, b"ABCD", NEVER);
    let ending = ending_at(text, put, piece);
    assert_puts(rt, line, &mut store, put, piece, NEVER, ending);
}

#[test]
fn each_failing_put_is_a_write_fault(rt: HostRuntime) {
    for &(line, _, text) in COMMANDS {
        for put in 0..47 {
            assert_put_fails(&rt, line, text, put, 1);
        }
    }
    assert_put_fails(&rt, QUERY, COPIED, 1, 10);
}

/// A diverging log is refused where standard error fails at this put, and so much of the line is said.
fn assert_said(rt: &impl Runtime, put: u64, said: &str) {
    let mut store = store(rt, b"ABXD", NEVER);
    assert_puts(rt, QUERY, &mut store, NEVER, 256, put, Ending::of(5, said));
}

/// A standard error that fails, at once or after some bytes, changes no status.
#[test]
fn a_failing_standard_error_changes_no_status(rt: HostRuntime) {
    assert_said(&rt, 0, "");
    assert_said(&rt, 5, "jet: ");
}

/// A query over a sure outside gives the same.
fn assert_sure(rt: &impl Runtime, store: &mut SureStore, out: &mut SureSink, err: &mut SureSink) {
    let status = status_of(rt, QUERY, store, out, err);
    assert_eq!(rt; status, 0);
    assert_eq!(rt; out.bytes(), COPIED.as_bytes());
    assert_eq!(rt; err.bytes().len(), 0);
}

#[test]
fn a_sure_outside_gives_the_same(rt: HostRuntime) {
    let alloc = rt.alloc();
    let files = copied(&rt, b"ABCD");
    let mut store = SureStore::new(alloc, files, 0).expect(&rt, "memory");
    let mut out = SureSink::new(alloc, 100).expect(&rt, "memory");
    let mut err = SureSink::new(alloc, 100).expect(&rt, "memory");
    assert_sure(&rt, &mut store, &mut out, &mut err);
}

/// Words that are no command, and commands whose files are missing.
const WORDS: &[(Line, u8, &str)] = &[
    ("", 2, "jet: usage\n"),
    ("jet", 2, "jet: usage\n"),
    ("jet query prog log", 2, "jet: usage\n"),
    (QUERY, 7, "jet: read fault\n"),
    ("jet record prog log", 7, "jet: read fault\n"),
    (REPLAY, 7, "jet: read fault\n"),
    (OUTPUT, 7, "jet: read fault\n"),
    (INPUT, 7, "jet: read fault\n"),
    (STACK, 7, "jet: read fault\n"),
    (CALLS, 7, "jet: read fault\n"),
    ("jet stack prog log", 2, "jet: usage\n"),
    ("jet stack prog log x", 2, "jet: usage\n"),
    ("jet stack prog log 7 1099511627777", 2, "jet: usage\n"),
    ("jet convert prog log", 2, "jet: usage\n"),
    ("jet influence prog log", 2, "jet: usage\n"),
    ("jet influence prog log query query", 2, "jet: usage\n"),
    (CONVERT, 7, "jet: read fault\n"),
    (INFLUENCE, 7, "jet: read fault\n"),
    (QUERIES, 7, "jet: read fault\n"),
    (PATH, 7, "jet: read fault\n"),
    (DECISIONS, 7, "jet: read fault\n"),
    (SHOW, 7, "jet: read fault\n"),
    ("jet page prog log query", 2, "jet: usage\n"),
    (PAGE, 7, "jet: read fault\n"),
    ("jet core prog log 12", 2, "jet: usage\n"),
    ("jet core prog log x core", 2, "jet: usage\n"),
    (CORE, 7, "jet: read fault\n"),
];

/// Over a store of no files the command of these words ends so.
fn assert_without_files(rt: &impl Runtime, line: Line, ending: Ending<'_>) {
    let mut store = store_of(rt, Vec::new(rt.alloc()), NEVER, 8, 0);
    assert_ends(rt, line, &mut store, ending);
}

#[test]
fn words_and_names_are_looked_at(rt: HostRuntime) {
    for &(line, status, said) in WORDS {
        assert_without_files(&rt, line, Ending::of(status, said));
    }
}
