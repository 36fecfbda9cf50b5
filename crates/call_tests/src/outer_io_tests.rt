//! The forms in memory where they go through and where they fail in mid-stream, and the machine's.

mod disk;

use crate::asserts::Runtime;
use disk::{Disk, Told};
use memory_outside::*;
use no_memory::Fault;
use outer_io::*;
use std::alloc::Global;
use std::time::Duration;
use std::{fs, io};

/// No call has this number.
const NEVER: u64 = 99;

/// What a machine's file begins with that may be replaced.
const MARK: &[u8] = b"MARK";

/// One file of five bytes.
fn files(rt: &impl Runtime) -> Vec<MemoryFile> {
    let alloc = rt.alloc();
    let mut files = Vec::new(alloc);
    let file = MemoryFile {
        name: String::from_str(alloc, "a").expect(rt, "memory"),
        bytes: "abcde".as_bytes().to_vec(alloc).expect(rt, "memory"),
    };
    files.push(file).expect(rt, "memory");
    files
}

/// That file, moved two bytes at a time, where the call of this number fails.
fn memory(rt: &impl Runtime, failing: u64) -> MemoryStore {
    let alloc = rt.alloc();
    let failing = [failing].as_slice().to_vec(alloc).expect(rt, "memory");
    MemoryStore::new(alloc, files(rt), failing, 2, 5).expect(rt, "memory")
}

/// The text of the file, or why it is not read whole.
fn is_read<S: Store>(alloc: Global, store: &mut S, name: &str, max: u16, want: &str) -> bool {
    match read_whole(alloc, store, name, usize::from(max)) {
        Ok(bytes) => bytes.as_slice() == want.as_bytes(),
        Err(Fault::At(Unread::ReadFault)) => want == "read fault",
        Err(Fault::At(Unread::TooLong(_))) => want == "too long",
        Err(Fault::NoMemory(_)) => false,
    }
}

/// Whether the file is read so where the call of this number fails.
fn is_read_in_memory(rt: &impl Runtime, failing: u64, max: u16, want: &str) -> bool {
    is_read(rt.alloc(), &mut memory(rt, failing), "a", max, want)
}

/// Whether the file has this content after it was written, where the call of this number fails.
fn is_written(rt: &impl Runtime, failing: u64, want: &str) -> bool {
    let mut store = memory(rt, failing);
    let written = write_file(&mut store, "a", b"vwxyz");
    written.is_ok() == (failing == NEVER) && is_read(rt.alloc(), &mut store, "a", 5, want)
}

#[test]
fn files_in_memory(rt: HostRuntime) {
    for (failing, max, want) in [
        (NEVER, 5, "abcde"),
        (NEVER, 4, "too long"),
        (2, 5, "read fault"),
    ] {
        assert!(rt; is_read_in_memory(&rt, failing, max, want), "{want}");
    }
    for (failing, want) in [(NEVER, "vwxyz"), (2, "abcde"), (4, "abcde")] {
        assert!(rt; is_written(&rt, failing, want), "call {failing}");
    }
}

/// Whether so much of a text is written, ten bytes a put, where the put of this number fails.
fn is_text_written(rt: &impl Runtime, failing: u64, want: &str) -> bool {
    let alloc = rt.alloc();
    let failing = [failing].as_slice().to_vec(alloc).expect(rt, "memory");
    let mut sink = MemorySink::new(alloc, failing, 10, 16).expect(rt, "memory");
    let written = write_whole(&mut sink, b"1:0 0:0\n1:1 0:1\n");
    written.is_ok() == (want.len() == 16) && sink.bytes() == want.as_bytes()
}

/// Whether a sure store and a sure sink take a text.
fn are_sure(rt: &impl Runtime, text: &str) -> bool {
    let alloc = rt.alloc();
    let mut store = SureStore::new(alloc, files(rt), 3).expect(rt, "memory");
    let mut sink = SureSink::new(alloc, 3).expect(rt, "memory");
    let written = write_file(&mut store, "c", text.as_bytes());
    let shown = write_whole(&mut sink, text.as_bytes());
    written.is_ok()
        && shown.is_ok()
        && is_read(alloc, &mut store, "c", 5, text)
        && sink.bytes() == text.as_bytes()
}

#[test]
fn texts_in_memory(rt: HostRuntime) {
    for (failing, want) in [(NEVER, "1:0 0:0\n1:1 0:1\n"), (1, "1:0 0:0\n1:")] {
        assert!(rt; is_text_written(&rt, failing, want), "put {failing}");
    }
    assert!(rt; are_sure(&rt, "xyz"));
}

/// Whether the machine's files are read and written so: one is made, read and too long, another is missing, and a
/// folder opens, and can't be read.
fn are_files(rt: HostRuntime) -> bool {
    let alloc = rt.alloc();
    let mut store = FileStore::new(rt, MARK);
    write_file(&mut store, "made", b"xyz").is_ok()
        && is_read(alloc, &mut store, "made", 3, "xyz")
        && is_read(alloc, &mut store, "made", 2, "too long")
        && is_read(alloc, &mut store, "missing", 2, "read fault")
        && store.begin_read(".").is_ok()
        && is_read(alloc, &mut store, ".", 2, "read fault")
}

#[test]
fn files_and_clock_of_the_machine(rt: HostRuntime) {
    assert!(rt; are_files(rt));
    let mut reader = OutSink::new(fs::open(&rt, "made").expect(&rt, "a file"));
    assert!(rt; write_whole(&mut reader, b"xyz").is_err());
    fs::remove_file(&rt, "made").expect(&rt, "a file");
    let mut clock = ListClock::new(rt.alloc(), [5].as_slice()).expect(&rt, "memory");
    assert!(rt; clock.now() == 5);
}

/// Whether this name opens, and then its reading fails.
fn only_reading_fails<S: Store>(store: &mut S, name: &str) -> bool {
    let mut buffer = [0u8; 8];
    let Ok(()) = store.begin_read(name) else {
        return false;
    };
    store.read(&mut buffer).is_err()
}

/// Whether a file is made and takes three bytes, and then its end fails.
fn only_the_end_fails<S: Store>(store: &mut S) -> bool {
    let Ok(()) = store.create("a") else {
        return false;
    };
    let Ok(_) = store.put(b"xyz") else {
        return false;
    };
    store.finish().is_err()
}

/// A disk that has no file until one is made, of which nothing can be read.
const BROKEN: Disk = Disk {
    told: Told::Missing,
    bytes: None,
    wanted: b"xyz!",
};

#[test]
fn a_failing_disk_is_a_fault(rt: HostRuntime) {
    assert!(rt; only_reading_fails(&mut FileStore::new(BROKEN, MARK), "a"));
    assert!(rt; only_the_end_fails(&mut FileStore::new(BROKEN, MARK)));
}

/// What is told of a name, what is read there, and whether it may be replaced.
const REPLACED: [(Told, Option<&[u8]>, bool); 11] = [
    (Told::Missing, None, true),
    (Told::Device, None, true),
    (Told::Unknown, Some(b"MARK"), false),
    (Told::Regular, None, false),
    (Told::Locked, Some(b"MARK"), false),
    (Told::Regular, Some(b""), true),
    (Told::Regular, Some(b"MARK"), true),
    (Told::Regular, Some(b"MARKED"), true),
    (Told::Regular, Some(b"MAR"), false),
    (Told::Regular, Some(b"MARX"), false),
    (Told::Regular, Some(b" MARK"), false),
];

/// Whether the file of a disk is made just these bytes.
fn is_made(told: Told, bytes: Option<&'static [u8]>) -> bool {
    let wanted = b"vwxyz";
    let disk = Disk {
        told,
        bytes,
        wanted,
    };
    write_file(&mut FileStore::new(disk, MARK), "a", wanted).is_ok()
}

/// A file that takes a byte at a time has all bytes, where it may be replaced.
#[test]
fn a_file_without_the_mark_is_not_replaced(rt: HostRuntime) {
    for (told, bytes, may) in REPLACED {
        assert!(rt; is_made(told, bytes) == may);
    }
}

/// Whether a text goes out whole to a writer with this room.
fn goes_out(room: &mut [u8], text: &[u8]) -> bool {
    let mut sink = OutSink::new(room);
    write_whole(&mut sink, text).is_ok()
}

/// A writer that has room for less than is written.
#[test]
fn a_full_writer_is_a_fault(rt: HostRuntime) {
    let mut room = [0u8; 4];
    assert!(rt; !goes_out(room.as_mut_slice(), b"abcdef"));
}

/// A text that is longer than most pieces goes out, each byte to its place.
#[test]
fn a_long_text_goes_out(rt: HostRuntime) {
    let mut text = Vec::new(rt.alloc());
    for i in 0..70_000u32 {
        text.push((i % 251) as u8).expect(&rt, "memory");
    }
    let mut room = vec![in rt.alloc(); 0u8; 70_000].expect(&rt, "memory");
    assert!(rt; goes_out(&mut room, &text));
    assert!(rt; room.as_slice() == text.as_slice());
}

/// A clock that stands still, or can't be read.
#[derive(Drop)]
struct Stopped(Option<u64>);

impl std::rt::Clock for Stopped {
    fn monotonic(&self) -> io::Result<Duration> {
        Ok(Duration::from_secs(0))
    }

    fn since_1970(&self) -> io::Result<Duration> {
        match self.0 {
            Some(seconds) => Ok(Duration::from_secs(seconds)),
            None => Err(io::Error::from(io::ErrorKind::Other)),
        }
    }
}

#[test]
fn nanoseconds_since_1970(rt: HostRuntime) {
    for (seconds, want) in [
        (Some(0), 0),
        (Some(2), 2_000_000_000),
        (Some(18_446_744_073), 18_446_744_073_000_000_000),
        (Some(18_446_744_074), u64::MAX),
        (None, 0),
    ] {
        assert!(rt; MachineClock::new(Stopped(seconds)).now() == want);
    }
    assert!(rt; MachineClock::new(rt).now() > 1_577_836_800_000_000_000);
}
