//! Commands over files in memory, from their words to what they write.

ghost use Rattle.std.specs.Prelude.{◌<◌};

mod bench;
mod changed_code;
mod convert;
mod cores;
mod decisions;
mod epochs;
mod gates;
mod guests;
mod influence;
mod marks;
mod narrow;
mod outside;
mod pages;
mod path;
mod points;
mod queries;
mod record;
mod refusals;
mod runs;
mod show;

use guest_assembler::{Instr, code};
use guests::{
    ADD_WORDS, BUFFER, COPY_CODE, COPY_FOUR, Guest, LESS_THAN, LOAD_SIGNED, LOAD_UNSIGNED, LOOK_UP,
    MASK_AND_SHIFT, MULTIPLY_WORDS, OVERWRITE, UNALIGNED, XOR_WORDS,
};
use jet_cli::jet;
use memory_outside::{ListClock, MemoryFile, MemorySink, MemoryStore};
use outer_io::{Gate, OpenGate, Sink, Store};
use runs::COPIES;
use sha2::{Digest, Sha256};
use std::process::Abort;
use std::sync::Wait;
use std::thread::Threads;

/// What the commands and these tests ask of the machine.
trait Runtime: Threads + Wait + Sync + AllocGlobal + Abort {}

impl<R: Threads + Wait + Sync + AllocGlobal + Abort> Runtime for R {}

const COPY: &str = "rule copy\nsource all\nsink all\n";

const KEEP: &str = "rule keep\nsource all\nsink all\n";

const COMPUTE: &str = "rule compute\nsource all\nsink all\n";

const INDEX: &str = "rule index\nsource all\nsink all\n";

/// The report of the four-byte copy.
const COPIED: &str = "1:0 0:0\n1:1 0:1\n1:2 0:2\n1:3 0:3\nend 4\n";

/// The words of a command, of which the first is the program's name, with a blank between two.
type Line = &'static str;

const QUERY: Line = "jet query prog log query";

/// The same with one step in each epoch, many workers and the smallest links.
const BY_STEPS: Line = "jet query prog log query --epoch 1 --workers 8 --link 1";

/// The time that the clock tells.
const TIME: u64 = 0x1_0000_0002;

/// No call has this number.
const NEVER: u64 = 1 << 40;

/// The address that code is loaded at.
const BASE: u32 = 0x10000;

/// The program file of this code.
fn program(rt: &impl Runtime, code: &[Instr]) -> Vec<u8> {
    guest_assembler::program(rt.alloc(), code).expect(rt, "memory")
}

/// These bytes, owned.
fn owned(rt: &impl Runtime, bytes: &[u8]) -> Vec<u8> {
    bytes.to_vec(rt.alloc()).expect(rt, "memory")
}

fn push(rt: &impl Abort, out: &mut Vec<u8>, bytes: &[u8]) {
    out.extend_from_slice(bytes).expect(rt, "memory");
}

fn push_words(rt: &impl Abort, out: &mut Vec<u8>, words: &[u32]) {
    for word in words {
        push(rt, out, &word.to_le_bytes());
    }
}

/// An instruction that no word stands for: its file has a word that traps.
const NO_INSTRUCTION: Instr = Instr::Addi {
    rd: 0,
    rs1: 0,
    imm: 5000,
};

/// The header of a log whose first line is this.
fn header(rt: &impl Runtime, magic: &[u8], program: &[u8], pages: u32, inputs: u32) -> Vec<u8> {
    let mut out = Vec::new(rt.alloc());
    push(rt, &mut out, magic);
    push(rt, &mut out, &Sha256::digest(program));
    push_words(rt, &mut out, [pages, inputs].as_slice());
    out
}

/// The version of a log. Version 2 has wide steps, and the bytes of reads stand in its channels.
#[derive(Clone, Copy)]
enum Version {
    One,
    Two,
}

/// A record's tag and its step.
fn push_tag(rt: &impl Abort, out: &mut Vec<u8>, version: Version, tag: u8, at: u32) {
    push(rt, out, &[tag]);
    push_words(rt, out, [at].as_slice());
    match version {
        Version::One => {}
        Version::Two => push_words(rt, out, [0].as_slice()),
    }
}

/// The program file of a guest. A table's field costs the proof more than a guest that is lent.
fn program_of(rt: &impl Runtime, guest: &Guest) -> Vec<u8> {
    program(rt, guest.code)
}

/// A record of a log, or its end.
#[derive(Clone, Copy)]
enum Entry {
    /// The step, the channel, the length asked for, and the bytes. The buffer is that of the guests.
    Read(u32, u32, u32, &'static [u8]),
    Write(u32, u32, u32, &'static [u8]),
    /// The tag of a read (1) or a write (2), the step, the channel, the buffer's place, the length asked for, and the bytes.
    Moved(u8, u32, [u32; 3], &'static [u8]),
    /// The tag, the step, the channel and the length of a read or a write that failed with -9.
    Refused(u8, u32, u32, u32),
    /// The step, and the time that was told.
    Time(u32, u64),
    /// The step and the number of a call that there is none of.
    Other(u32, u32),
    /// The step and the code.
    Exit(u32, u32),
    /// The step, the kind and the pc.
    Trap(u32, u32, u32),
    /// The number of steps.
    Limit(u32),
}

/// A read (tag 1) or a write (tag 2) of a channel, a place and a length.
fn push_moved(
    rt: &impl Abort,
    out: &mut Vec<u8>,
    version: Version,
    tag: u8,
    at: u32,
    args: [u32; 3],
    bytes: &[u8],
) {
    let [channel, address, asked] = args;
    let length = u32::try_from(bytes.len()).unwrap_or(0);
    let fields = [channel, address, asked, length];
    push_fields(rt, out, version, tag, at, fields.as_slice());
    match (version, tag) {
        (Version::Two, 1) => {}
        _ => push(rt, out, bytes),
    }
}

/// A record of a tag, a step and these fields.
fn push_fields(
    rt: &impl Abort,
    out: &mut Vec<u8>,
    version: Version,
    tag: u8,
    at: u32,
    fields: &[u32],
) {
    push_tag(rt, out, version, tag, at);
    push_words(rt, out, fields);
}

fn push_entry(rt: &impl Abort, out: &mut Vec<u8>, version: Version, entry: Entry) {
    match entry {
        Entry::Read(at, channel, asked, bytes) => {
            push_moved(rt, out, version, 1, at, [channel, BUFFER, asked], bytes)
        }
        Entry::Write(at, channel, asked, bytes) => {
            push_moved(rt, out, version, 2, at, [channel, BUFFER, asked], bytes)
        }
        Entry::Moved(tag, at, args, bytes) => push_moved(rt, out, version, tag, at, args, bytes),
        Entry::Refused(tag, at, channel, asked) => {
            let fields = [channel, BUFFER, asked, 0xffff_fff7];
            push_fields(rt, out, version, tag, at, fields.as_slice())
        }
        Entry::Time(at, time) => {
            push_tag(rt, out, version, 3, at);
            push(rt, out, &time.to_le_bytes());
        }
        Entry::Other(at, number) => push_fields(rt, out, version, 4, at, [number].as_slice()),
        Entry::Exit(at, code) => push_fields(rt, out, version, 5, at, [code].as_slice()),
        Entry::Trap(at, kind, pc) => push_fields(rt, out, version, 6, at, [kind, pc].as_slice()),
        Entry::Limit(at) => push_tag(rt, out, version, 7, at),
    }
}

fn push_entries(rt: &impl Abort, out: &mut Vec<u8>, version: Version, entries: &[Entry]) {
    for entry in entries {
        push_entry(rt, out, version, *entry);
    }
}

/// A log of these records in version 1.
fn log_of(
    rt: &impl Runtime,
    program: &[u8],
    pages: u32,
    inputs: u32,
    entries: &[Entry],
) -> Vec<u8> {
    let mut out = header(rt, b"JETLOG1\n", program, pages, inputs);
    push_entries(rt, &mut out, Version::One, entries);
    out
}

/// What was read on each channel, in order.
type Channels = &'static [&'static [u8]];

/// A log of these records in version 2.
fn wide_log_of(
    rt: &impl Runtime,
    program: &[u8],
    pages: u32,
    channels: Channels,
    entries: &[Entry],
) -> Vec<u8> {
    let inputs = u32::try_from(channels.len()).unwrap_or(0);
    let mut out = header(rt, b"JETLOG2\n", program, pages, inputs);
    for bytes in channels {
        push_channel(rt, &mut out, bytes);
    }
    push_entries(rt, &mut out, Version::Two, entries);
    out
}

fn push_channel(rt: &impl Abort, out: &mut Vec<u8>, bytes: &[u8]) {
    let length = u32::try_from(bytes.len()).unwrap_or(0);
    push_words(rt, out, [length].as_slice());
    push(rt, out, bytes);
}

/// Bytes that are put in place of those at an offset.
type Patch = (usize, &'static [u8]);

/// The bytes, with others from an offset on.
fn patched(rt: &impl Runtime, bytes: &[u8], patch: Patch) -> Vec<u8> {
    let mut changed = owned(rt, bytes);
    let (offset, patch) = patch;
    for (i, byte) in patch.iter().enumerate() {
        let place = offset.wrapping_add(i);
        if place < changed.len() {
            changed[place] = *byte;
        }
    }
    changed
}

/// Adds a file.
fn push_file(rt: &impl Runtime, files: &mut Vec<MemoryFile>, name: &str, bytes: &[u8]) {
    let alloc = *files.allocator();
    let file = MemoryFile {
        name: String::from_str(alloc, name).expect(rt, "memory"),
        bytes: owned(rt, bytes),
    };
    files.push(file).expect(rt, "memory");
}

/// The files `prog`, `log` and `query`.
fn files(rt: &impl Runtime, program: &[u8], log: &[u8], query: &[u8]) -> Vec<MemoryFile> {
    let mut files = Vec::new(rt.alloc());
    push_file(rt, &mut files, "prog", program);
    push_file(rt, &mut files, "log", log);
    push_file(rt, &mut files, "query", query);
    files
}

/// A store of these files, of which the call of this number fails. Its calls move so many bytes, and there is room for files of so
/// many to be written.
fn store_of(
    rt: &impl Runtime,
    files: Vec<MemoryFile>,
    failing: u64,
    piece: usize,
    room: usize,
) -> MemoryStore
    requires { 0 < piece }
{
    let alloc = rt.alloc();
    let failing = [failing].as_slice().to_vec(alloc).expect(rt, "memory");
    MemoryStore::new(alloc, files, failing, piece, room).expect(rt, "memory")
}

/// A store of a program, a log and a query, of which the call of this number fails, as in [`store_of`].
fn store_with(
    rt: &impl Runtime,
    program: &[u8],
    log: &[u8],
    query: &[u8],
    failing: u64,
    piece: usize,
    room: usize,
) -> MemoryStore
    requires { 0 < piece }
{
    let files = files(rt, program, log, query);
    store_of(rt, files, failing, piece, room)
}

/// The program and the log of the four-byte copy.
fn copied(rt: &impl Runtime) -> (Vec<u8>, Vec<u8>) {
    let program = program(rt, COPY_CODE);
    let log = log_of(rt, &program, 1, 1, COPIES);
    (program, log)
}

/// The words of a line, owned.
fn words(rt: &impl Runtime, line: Line) -> Vec<String> {
    let alloc = rt.alloc();
    let mut words = Vec::new(alloc);
    for word in line.split_whitespace() {
        let word = String::from_str(alloc, word).expect(rt, "memory");
        words.push(word).expect(rt, "memory");
    }
    words
}

/// How a command ended: the status, and what it wrote to the two outputs.
#[derive(Clone, Copy)]
struct Ending<'a> {
    status: u8,
    out: &'a [u8],
    err: &'a str,
}

impl Ending<'_> {
    /// This was written where the status is 0, and else the command was refused with this line.
    fn of(status: u8, text: &str) -> Ending<'_> {
        let (out, err) = if status == 0 { (text, "") } else { ("", text) };
        Ending {
            status,
            out: out.as_bytes(),
            err,
        }
    }

    /// This was written.
    fn report(out: &str) -> Ending<'_> {
        Ending::of(0, out)
    }
}

/// The status of the command of these words, where this gate is told of its epochs.
fn status_by<S: Store, O: Sink, E: Sink, G: Gate>(
    rt: &impl Runtime,
    line: Line,
    store: &mut S,
    out: &mut O,
    err: &mut E,
    gate: &G,
) -> u8 {
    let words = words(rt, line);
    let mut clock = ListClock::new(rt.alloc(), [TIME].as_slice()).expect(rt, "memory");
    jet(rt, &words, store, out, err, &mut clock, gate)
}

/// The status of the command of these words.
fn status_of<S: Store, O: Sink, E: Sink>(
    rt: &impl Runtime,
    line: Line,
    store: &mut S,
    out: &mut O,
    err: &mut E,
) -> u8 {
    status_by(rt, line, store, out, err, &OpenGate)
}

/// The command of these words ends so over this store and these outputs.
fn assert_outside(
    rt: &impl Runtime,
    line: Line,
    store: &mut MemoryStore,
    out: &mut MemorySink,
    err: &mut MemorySink,
    ending: Ending<'_>,
) {
    let status = status_of(rt, line, store, out, err);
    let said = ending.err;
    assert_eq!(rt; status, ending.status, "{said}");
    assert_eq!(rt; out.bytes(), ending.out);
    assert_eq!(rt; err.bytes(), said.as_bytes());
}

/// An output that takes at most so many bytes at a time, and fails at this put.
fn sink(rt: &impl Runtime, put: u64, piece: usize) -> MemorySink
    requires { 0 < piece }
{
    let alloc = rt.alloc();
    let failing = [put].as_slice().to_vec(alloc).expect(rt, "memory");
    MemorySink::new(alloc, failing, piece, 70000).expect(rt, "memory")
}

/// The command of these words ends so over this store, where the output takes at most so many bytes at a time and fails at
/// this put, and standard error takes single bytes and fails at that one.
fn assert_puts(
    rt: &impl Runtime,
    line: Line,
    store: &mut MemoryStore,
    put: u64,
    piece: usize,
    err_put: u64,
    ending: Ending<'_>,
)
    requires { 0 < piece }
{
    let mut out = sink(rt, put, piece);
    let mut err = sink(rt, err_put, 1);
    assert_outside(rt, line, store, &mut out, &mut err, ending);
}

/// The command of these words ends so over this store.
fn assert_ends(rt: &impl Runtime, line: Line, store: &mut MemoryStore, ending: Ending<'_>) {
    assert_puts(rt, line, store, NEVER, 65536, NEVER, ending);
}

/// The command of these words ends so over these files.
fn assert_command(
    rt: &impl Runtime,
    line: Line,
    program: &[u8],
    log: &[u8],
    query: &[u8],
    ending: Ending<'_>,
) {
    let mut store = store_with(rt, program, log, query, NEVER, 65536, 0);
    assert_ends(rt, line, &mut store, ending);
}

/// A query of these files ends so.
fn assert_query(rt: &impl Runtime, program: &[u8], log: &[u8], query: &[u8], ending: Ending<'_>) {
    assert_command(rt, QUERY, program, log, query, ending);
}

/// A query of all copied bytes of these files ends so.
fn assert_copy(rt: &impl Runtime, program: &[u8], log: &[u8], ending: Ending<'_>) {
    assert_query(rt, program, log, COPY.as_bytes(), ending);
}

/// A command over a guest's run and a query ends so.
fn assert_guest(rt: &impl Runtime, line: Line, guest: &Guest, query: &str, ending: Ending<'_>) {
    let program = program_of(rt, guest);
    let log = log_of(rt, &program, guest.pages, 1, guest.entries);
    assert_command(rt, line, &program, &log, query.as_bytes(), ending);
}

/// The sum or the product of two words depends on all eight bytes, in each of its own.
const SUM: &str = "1:0 0:0 0:1 0:2 0:3 0:4 0:5 0:6 0:7
1:1 0:0 0:1 0:2 0:3 0:4 0:5 0:6 0:7
1:2 0:0 0:1 0:2 0:3 0:4 0:5 0:6 0:7
1:3 0:0 0:1 0:2 0:3 0:4 0:5 0:6 0:7
end 4
";

/// Guests, queries and their reports.
const REPORTS: &[(&Guest, &str, &str)] = &[
    (&COPY_FOUR, COPY, COPIED),
    (&ADD_WORDS, COPY, "1:0\n1:1\n1:2\n1:3\nend 4\n"),
    (&LOAD_SIGNED, COPY, "1:0 0:0\n1:1\n1:2\n1:3\nend 4\n"),
    (&OVERWRITE, COPY, "1:0\nend 1\n"),
    (
        &UNALIGNED,
        COPY,
        "1:0 0:0\n1:1 0:0\n1:2 0:1\n1:3 0:2\nend 4\n",
    ),
    (&MASK_AND_SHIFT, COPY, "1:0\n1:1\n1:2\n1:3\nend 4\n"),
    (
        &MASK_AND_SHIFT,
        KEEP,
        "1:0 0:0\n1:1 0:0\n1:2 0:2\n1:3 0:3\nend 4\n",
    ),
    // Lane 1 of x7 is moved there whole, from lane 0.
    (
        &MASK_AND_SHIFT,
        "rule keep\nsource all\nsink reg 7 at 10\n",
        "r:7.0@10\nr:7.1@10 0:0\nr:7.2@10\nr:7.3@10\nend 4\n",
    ),
    (
        &MASK_AND_SHIFT,
        COMPUTE,
        "1:0 0:0
1:1 0:0 0:1 0:2 0:3
1:2 0:0 0:1 0:2 0:3
1:3 0:0 0:1 0:2 0:3
end 4
",
    ),
    (&COPY_FOUR, KEEP, COPIED),
    (&ADD_WORDS, KEEP, "1:0\n1:1\n1:2\n1:3\nend 4\n"),
    (&LOAD_SIGNED, KEEP, "1:0 0:0\n1:1\n1:2\n1:3\nend 4\n"),
    (&ADD_WORDS, COMPUTE, SUM),
    (&MULTIPLY_WORDS, COPY, "1:0\n1:1\n1:2\n1:3\nend 4\n"),
    (&MULTIPLY_WORDS, COMPUTE, SUM),
    (&MULTIPLY_WORDS, INDEX, SUM),
    (&LOOK_UP, COPY, "1:0\nend 1\n"),
    (&LOOK_UP, COMPUTE, "1:0\nend 1\n"),
    (&LOOK_UP, INDEX, "1:0 0:0\nend 1\n"),
    (
        &LESS_THAN,
        COMPUTE,
        "1:0 0:0 0:1 0:2 0:3 0:4 0:5 0:6 0:7\n1:1\n1:2\n1:3\nend 4\n",
    ),
    (
        &XOR_WORDS,
        COMPUTE,
        "1:0 0:0 0:4\n1:1 0:1 0:5\n1:2 0:2 0:6\n1:3 0:3 0:7\nend 4\n",
    ),
    (
        &LOAD_SIGNED,
        COMPUTE,
        "1:0 0:0\n1:1 0:0\n1:2 0:0\n1:3 0:0\nend 4\n",
    ),
    (&LOAD_UNSIGNED, COMPUTE, "1:0 0:0\n1:1\n1:2\n1:3\nend 4\n"),
    (&COPY_FOUR, "rule copy\nsource all\n", "end 0\n"),
    (
        &COPY_FOUR,
        "rule copy\nsource all\nsink 1 2 3\n",
        "1:2 0:2\nend 1\n",
    ),
    (
        &COPY_FOUR,
        "rule copy\r\nsource 0 1 2\r\n\tsink all",
        "1:0\n1:1 0:1\n1:2\n1:3\nend 4\n",
    ),
];

#[test]
fn bytes_are_followed(rt: HostRuntime) {
    for &(guest, query, report) in REPORTS {
        for line in [QUERY, BY_STEPS] {
            assert_guest(&rt, line, guest, query, Ending::report(report));
        }
    }
}

/// The code of a guest that reads 5,000 bytes to 0x11000, copies them one by one to 0x13000 and writes
/// them from there.
const COPY_MANY: [Instr; 20] = code![
    lui(x11, 0x11000),
    li(x10, 0),
    lui(x12, 0x1000),
    addi(x12, x12, 904),
    li(x17, 63),
    ecall(),
    lui(x6, 0x13000),
    add(x7, x6, x12),
    lbu(x28, 0(x11)),
    sb(x28, 0(x6)),
    addi(x11, x11, 1),
    addi(x6, x6, 1),
    bne(x6, x7, -16),
    lui(x11, 0x13000),
    li(x10, 1),
    li(x17, 64),
    ecall(),
    li(x10, 0),
    li(x17, 93),
    ecall(),
];

/// The report of that copy.
fn report_of_many(rt: &impl Runtime) -> String {
    let alloc = rt.alloc();
    let mut report = String::new(alloc);
    for i in 0..5000u32 {
        let line = format!(in alloc; "1:{i} 0:{i}\n").expect(rt, "memory");
        report.push_str(&line).expect(rt, "memory");
    }
    report.push_str("end 5000\n").expect(rt, "memory");
    report
}

/// Its log.
fn log_of_many(rt: &impl Runtime, program: &[u8]) -> Vec<u8> {
    let mut bytes = Vec::new(rt.alloc());
    for i in 0..5000u32 {
        push(rt, &mut bytes, &[(i % 256) as u8]);
    }
    let mut log = header(rt, b"JETLOG1\n", program, 5, 1);
    let (version, length) = (Version::One, 5000);
    push_moved(rt, &mut log, version, 1, 5, [0, 0x11000, length], &bytes);
    push_moved(
        rt,
        &mut log,
        version,
        2,
        25011,
        [1, 0x13000, length],
        &bytes,
    );
    push_entry(rt, &mut log, version, Entry::Exit(25014, 0));
    log
}

/// Twenty-five thousand steps, and a report of 67,789 bytes.
#[test]
fn a_long_copy_is_followed(rt: HostRuntime) {
    let program = program(&rt, &COPY_MANY);
    let log = log_of_many(&rt, &program);
    let report = report_of_many(&rt);
    assert_eq!(rt; report.len(), 67789);
    assert_copy(&rt, &program, &log, Ending::report(&report));
}
