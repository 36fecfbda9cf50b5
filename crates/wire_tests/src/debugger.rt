//! The debugger over a wire, from its words to its status: the recorded copy of four bytes, and the worked dialogue.

ghost use Rattle.std.specs.Prelude.{◌<◌};

use crate::dialogue::{Exchange, all_that_comes, all_that_goes, assert_in_turn, assert_said, owed};
use crate::wires::{ALL, Ending, NEVER, Runtime, assert_same_before, ending_at, wire};
use gdb_server::jet_gdb;
use guest_assembler::{Instr, code, program};
use memory_outside::{MemoryFile, MemorySink, MemoryStore};
use memory_wire::MemoryWire;
use sha2::{Digest, Sha256};

/// Reads four bytes of channel 0, writes them on channel 1 and exits.
const COPY: [Instr; 12] = code![
    lui(x11, 0x10000),
    addi(x11, x11, 256),
    li(x10, 0),
    li(x12, 4),
    li(x17, 63),
    ecall(),
    li(x10, 1),
    li(x17, 64),
    ecall(),
    li(x10, 0),
    li(x17, 93),
    ecall(),
];

/// What the log of its run has behind the program's digest: a page, and a channel of four bytes; the read at step 5, the
/// write at step 8, and the exit at step 11.
const RUN: &[&[u8]] = &[
    b"\x01\0\0\0\x01\0\0\0\x04\0\0\0ABCD",
    b"\x01\x05\0\0\0\0\0\0\0\0\0\0\0\0\x01\x01\0\x04\0\0\0\x04\0\0\0",
    b"\x02\x08\0\0\0\0\0\0\0\x01\0\0\0\0\x01\x01\0\x04\0\0\0\x04\0\0\0ABCD",
    b"\x05\x0b\0\0\0\0\0\0\0\0\0\0\0",
];

/// A session forwards and back. It ends with the last packet.
const DIALOGUE: &[Exchange] = &[
    (
        "$qSupported:x#e9",
        "+$PacketSize=4000;QStartNoAckMode+;ReverseStep+;ReverseContinue+;qXfer:features:read+;vContSupported+#80",
    ),
    ("$QStartNoAckMode#b0", "+$OK#9a"),
    ("$?#3f", "$T05#b9"),
    ("$m10000,4#be", "$b7050100#bf"),
    ("$Z2,10102,1#09", "$OK#9a"),
    ("$vCont;c#a8", "$T05watch:00010102;#c9"),
    ("$p20#d2", "$18000100#8a"),
    ("$bs#d5", "$T05watch:00010102;#c9"),
    ("$bc#c5", "$T05replaylog:begin;#02"),
    ("$z2,10102,1#29", "$OK#9a"),
    ("$Z0,10014,4#0c", "$OK#9a"),
    ("$vCont;r10000,10014:-1#62", "$T05#b9"),
    ("$vCont;c#a8", "$T05replaylog:end;#34"),
    ("$s#73", "$T05replaylog:end;#34"),
    ("$bc#c5", "$T05#b9"),
    ("$qRcmd,74696d65#02", "$O350a#48$OK#9a"),
    ("$M10000,1:00#35", "$E01#a6"),
    ("$m0,4#fd", "$E01#a6"),
    ("$D#44", "$OK#9a"),
];

/// How many bytes come in all.
const COMES: usize = 217;

/// A file of this name and these bytes.
fn push_file(rt: &impl Runtime, files: &mut Vec<MemoryFile>, name: &str, bytes: Vec<u8>) {
    let name = String::from_str(rt.alloc(), name).expect(rt, "memory");
    files.push(MemoryFile { name, bytes }).expect(rt, "memory");
}

/// The log of the run of this program.
fn log_of(rt: &impl Runtime, program: &[u8]) -> Vec<u8> {
    let mut log = Vec::new(rt.alloc());
    log.extend_from_slice(b"JETLOG2\n").expect(rt, "memory");
    log.extend_from_slice(&Sha256::digest(program))
        .expect(rt, "memory");
    for part in RUN {
        log.extend_from_slice(part).expect(rt, "memory");
    }
    log
}

/// The files `prog` and `log`.
fn store(rt: &impl Runtime) -> MemoryStore {
    let alloc = rt.alloc();
    let prog = program(alloc, &COPY).expect(rt, "memory");
    let log = log_of(rt, &prog);
    let mut files = Vec::new(alloc);
    push_file(rt, &mut files, "prog", prog);
    push_file(rt, &mut files, "log", log);
    MemoryStore::new(alloc, files, Vec::new(alloc), ALL, 0).expect(rt, "memory")
}

/// The words of a line, owned.
fn words(rt: &impl Runtime, line: &str) -> Vec<String> {
    let alloc = rt.alloc();
    let mut words = Vec::new(alloc);
    for word in line.split_whitespace() {
        let word = String::from_str(alloc, word).expect(rt, "memory");
        words.push(word).expect(rt, "memory");
    }
    words
}

/// The status of a session over a wire.
fn status_of(rt: &impl Runtime, line: &str, wire: &mut MemoryWire, err: &mut MemorySink) -> u8 {
    let mut store = store(rt);
    jet_gdb(rt.alloc(), &words(rt, line), &mut store, wire, err)
}

/// A session over a wire ends with this status, and with this line on the standard error.
fn assert_ends(rt: &impl Runtime, line: &str, wire: &mut MemoryWire, status: u8, said: &str) {
    let alloc = rt.alloc();
    let mut err = MemorySink::new(alloc, Vec::new(alloc), ALL, ALL).expect(rt, "memory");
    assert!(rt; status_of(rt, line, wire, &mut err) == status);
    assert!(rt; err.bytes() == said.as_bytes());
}

/// The words of a session with the recorded run.
const SESSION: &str = "jet-gdb prog log";

/// The wire after the whole dialogue, by pieces of so many bytes.
fn whole(rt: &impl Runtime, piece: usize) -> MemoryWire
    requires { 0 < piece }
{
    let mut wire = wire(rt, &all_that_comes(rt, DIALOGUE), NEVER, piece);
    assert_ends(rt, SESSION, &mut wire, 0, "");
    wire
}

/// By pieces of so many bytes all is said in turn, and all came.
fn assert_dialogue(rt: &impl Runtime, piece: usize)
    requires { 0 < piece }
{
    let wire = whole(rt, piece);
    assert_said(rt, DIALOGUE, &wire);
    assert!(rt; assert_in_turn(rt, DIALOGUE, &wire) == COMES);
}

#[test]
fn a_dialogue_is_the_same_by_any_pieces(rt: HostRuntime) {
    assert_dialogue(&rt, 1);
    assert_dialogue(&rt, 7);
    assert_dialogue(&rt, COMES);
    assert_dialogue(&rt, ALL);
}

/// A session by pieces of so many bytes whose call of this number fails ends there, with the status that says how.
fn assert_broken(rt: &impl Runtime, whole: &MemoryWire, piece: usize, failing: usize)
    requires { 0 < piece }
{
    let mut wire = wire(rt, &all_that_comes(rt, DIALOGUE), failing, piece);
    match ending_at(whole.steps(), failing) {
        Ending::Whole => assert_ends(rt, SESSION, &mut wire, 0, ""),
        Ending::Receiving => assert_ends(rt, SESSION, &mut wire, 7, "jet: read fault\n"),
        Ending::Sending => assert_ends(rt, SESSION, &mut wire, 8, "jet: write fault\n"),
    }
    assert_same_before(rt, &wire, whole, failing);
}

/// So does each session by pieces of so many bytes, whichever call fails.
fn assert_each_broken(rt: &impl Runtime, piece: usize)
    requires { 0 < piece }
{
    let whole = whole(rt, piece);
    for failing in 0..100 {
        assert_broken(rt, &whole, piece, failing);
    }
}

#[test]
fn each_call_that_fails_ends_a_session(rt: HostRuntime) {
    assert_each_broken(&rt, 7);
    assert_each_broken(&rt, ALL);
}

/// Where so many bytes come and then the wire is at its end, all is said that is owed to them.
fn assert_cut_off(rt: &impl Runtime, bytes: &[u8], said: &[u8]) {
    let mut wire = wire(rt, bytes, NEVER, ALL);
    assert_ends(rt, SESSION, &mut wire, 0, "");
    let owed = owed(DIALOGUE, bytes.len());
    assert!(rt; wire.gone().len() == owed);
    assert!(rt; said.starts_with(wire.gone()));
}

#[test]
fn a_wire_may_end_in_the_middle_of_a_frame(rt: HostRuntime) {
    let bytes = all_that_comes(&rt, DIALOGUE);
    let said = all_that_goes(&rt, DIALOGUE);
    assert!(rt; bytes.len() == COMES);
    for length in 0..COMES {
        assert_cut_off(&rt, &bytes[..length], &said);
    }
}

/// These words are refused with a status and a line, and nothing passes.
fn assert_refused(rt: &impl Runtime, line: &str, status: u8, said: &str) {
    let mut wire = wire(rt, b"$?#3f", NEVER, ALL);
    assert_ends(rt, line, &mut wire, status, said);
    assert!(rt; wire.steps().is_empty());
}

#[test]
fn words_and_files_are_refused_before_anything_passes(rt: HostRuntime) {
    assert_refused(&rt, "jet-gdb", 2, "jet: usage\n");
    assert_refused(&rt, "jet-gdb prog", 2, "jet: usage\n");
    assert_refused(&rt, "jet-gdb prog log x", 2, "jet: usage\n");
    assert_refused(&rt, "jet-gdb prog log 0 0", 2, "jet: usage\n");
    assert_refused(&rt, "jet-gdb prog missing", 7, "jet: read fault\n");
    assert_refused(&rt, "jet-gdb log log", 3, "jet: image 2 Magic\n");
}
