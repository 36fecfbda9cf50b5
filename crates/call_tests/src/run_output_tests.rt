//! What is told of a run without a query: the text of its calls, and the bytes that were moved on a channel.

use crate::asserts::{Runtime, assert_same};
use log_model::CallRecord;
use replay_log::{Log, read_log};
use run_output::{calls_text, input_on, output_on};

/// A log in version 1, which begins here with the window's pages, of a program whose digest is zero.
fn log_of(rt: &impl Runtime, parts: &[u8]) -> Log {
    let alloc = rt.alloc();
    let mut bytes = Vec::new(alloc);
    bytes.extend_from_slice(b"JETLOG1\n").expect(rt, "memory");
    bytes.extend_from_slice(&[0; 32]).expect(rt, "memory");
    bytes.extend_from_slice(parts).expect(rt, "memory");
    assert!(rt; bytes.len() <= 67_108_864);
    read_log(alloc, &bytes).expect(rt, "a log")
}

/// Two channels are read, one of them up to its end; a read of a buffer outside the window and a write on a channel that
/// isn't there are refused; two writes, the clock, another call, and an exit.
const ALL_CALLS: &[u8] = b"\x01\0\0\0\x02\0\0\0\
    \x01\x05\0\0\0\0\0\0\0\0\x01\x01\0\x1e\0\0\0\x1a\0\0\0ABCDEFGHIJKLMNOPQRSTUVWXYZ\
    \x01\x09\0\0\0\x01\0\0\0\0\x02\x01\0\x08\0\0\0\x02\0\0\0\"\\\
    \x01\x0b\0\0\0\0\0\0\0\0\x10\0\0\x04\0\0\0\xf2\xff\xff\xff\
    \x01\x0d\0\0\0\0\0\0\0\0\x01\x01\0\x04\0\0\0\0\0\0\0\
    \x03\x0f\0\0\0\xff\xff\xff\xff\xff\xff\xff\xff\
    \x04\x11\0\0\0\x07\0\0\0\
    \x02\x13\0\0\0\x0f\0\0\0\0\x01\x01\0\x03\0\0\0\x03\0\0\0ABC\
    \x02\x15\0\0\0\x0f\0\0\0\0\x02\x01\0\x01\0\0\0\x01\0\0\0\n\
    \x02\x17\0\0\0\x10\0\0\0\0\x01\x01\0\x03\0\0\0\xf7\xff\xff\xff\
    \x05\x19\0\0\0\x2c\x01\0\0";

/// A read on a channel that isn't among the inputs, in a log that fits no program.
const FITS_NONE: &[u8] = b"\x01\0\0\0\0\0\0\0\
    \x01\x05\0\0\0\x07\0\0\0\0\x01\x01\0\x04\0\0\0\x01\0\0\0x\
    \x01\x06\0\0\0\x07\0\0\0\0\x01\x01\0\x04\0\0\0\x02\0\0\0y \
    \x06\x07\0\0\0\x05\0\0\0\x14\x0a\x01\x80";

/// Logs, and the text of their calls.
const TEXTS: [(&[u8], &str); 3] = [
    (
        ALL_CALLS,
        "5 read 0:0 26 m:65792 \"ABCDEFGHIJKLMNOPQRSTUVWX\"..\n\
        9 read 1:0 2 m:66048 \"\\x22\\x5c\"\n\
        11 read 0 -14 4 m:4096\n\
        13 read 0:26 0 m:65792 \"\"\n\
        15 clock 18446744073709551615\n\
        17 other 7\n\
        19 write 15:0 3 m:65792 \"ABC\"\n\
        21 write 15:3 1 m:66048 \"\\x0a\"\n\
        23 write 16 -9 3 m:65792\n\
        25 exit 300\n\
        end 10\n",
    ),
    (
        FITS_NONE,
        "5 read 7:0 1 m:65792 \"x\"\n\
        6 read 7:1 2 m:65792 \"y \"\n\
        7 trap 5 0x80010a14\n\
        end 3\n",
    ),
    (b"\x01\0\0\0\0\0\0\0\x07\x05\0\0\0", "5 limit\nend 1\n"),
];

#[test]
fn each_call_is_a_line(rt: HostRuntime) {
    for (parts, text) in TEXTS {
        let log = log_of(&rt, parts);
        let told = calls_text(rt.alloc(), &log).expect(&rt, "memory");
        assert_same(&rt, told.as_slice(), text.as_bytes());
    }
}

/// What was read on a channel, and what was written on it.
fn assert_moved(
    rt: &impl Runtime,
    calls: &[CallRecord],
    channel: u32,
    read: &[u8],
    written: &[u8],
) {
    let alloc = rt.alloc();
    let input = input_on(alloc, calls, channel).expect(rt, "memory");
    assert_same(rt, input.as_slice(), read);
    let output = output_on(alloc, calls, channel).expect(rt, "memory");
    assert_same(rt, output.as_slice(), written);
}

#[test]
fn what_was_read_is_apart_from_what_was_written(rt: HostRuntime) {
    let log = log_of(&rt, ALL_CALLS);
    assert_moved(&rt, log.records(), 0, b"ABCDEFGHIJKLMNOPQRSTUVWXYZ", b"");
    assert_moved(&rt, log.records(), 1, b"\"\\", b"");
    assert_moved(&rt, log.records(), 2, b"", b"");
    assert_moved(&rt, log.records(), 15, b"", b"ABC\n");
}
