//! Logs by example: what is read from bytes, where they are faulty, and what is written again.

mod texts;

use crate::asserts::{Runtime, assert_same};
use replay_log::{
    CallRecord, HEADER_LENGTH, Log, RunEnd, can_write, end_length, read_log, share, write_log,
};
use std::process::Abort;
use texts::{
    AFTER_CHANNEL, CALLS, FIVE, LATE_CALL, LATE_LIMIT, LOG_1, LOG_2, OTHER, THREE, TOO_LATE_CALL,
    TOO_LATE_LIMIT, TRAP, UNMOVED,
};

/// What bytes are read as.
#[derive(Clone, Copy)]
enum Want {
    /// A log: how many calls it has, how it ends, how many bytes its parts take in version 2, and, if that can hold it, whether
    /// these are the bytes that were read.
    Log(usize, RunEnd, u64, Option<bool>),
    /// Their first fault.
    Fault(&'static str),
}

use Want::Fault;

/// The length of a log's text, counted by its parts.
fn length_of(log: &Log) -> u64 {
    let mut length = 4 * u64::from(log.inputs()) + HEADER_LENGTH as u64;
    log.form();
    for record in log.records() {
        length = length.saturating_add(share(log.inputs(), record));
    }
    length.saturating_add(end_length(log.end()))
}

/// In version 2 the log is written in so many bytes, and these are the same as the others or not; or that can't hold it.
fn assert_written(rt: &impl Runtime, bytes: &[u8], log: &Log, length: u64, same: Option<bool>) {
    assert!(rt; can_write(log) == same.is_some());
    if can_write(log) {
        let text = write_log(rt.alloc(), log).expect(rt, "memory");
        assert_same(rt, text.len() as u64, length);
        assert!(rt; Some(text.as_slice() == bytes) == same);
    }
}

/// These bytes are read so.
fn assert_read(rt: &impl Runtime, bytes: &[u8], want: Want) {
    let alloc = rt.alloc();
    assert!(rt; bytes.len() <= 1 << 26);
    match (read_log(alloc, bytes), want) {
        (Ok(log), Want::Log(calls, end, length, same)) => {
            assert_same(rt, log.records().len(), calls);
            assert_same(rt, log.end(), end);
            assert_same(rt, length_of(&log), length);
            assert_written(rt, bytes, &log, length, same);
        }
        (Err(fault), Fault(text)) => {
            let said = format!(in alloc; "{fault}").expect(rt, "memory");
            assert_same(rt, said.as_str(), text);
        }
        _ => rt.abort(),
    }
}

/// The first bytes of a log, others in place of as many, and its last ones.
fn changed(rt: &impl Runtime, log: &[u8], at: usize, by: &[u8]) -> Vec<u8> {
    let mut bytes = Vec::from_slice(rt.alloc(), &log[..at.min(log.len())]).expect(rt, "memory");
    bytes.extend_from_slice(by).expect(rt, "memory");
    let after = at.saturating_add(by.len()).min(log.len());
    bytes.extend_from_slice(&log[after..]).expect(rt, "memory");
    bytes
}

/// The header of a log, and other bytes after it.
fn headed(rt: &impl Runtime, log: &[u8], parts: &[&[u8]]) -> Vec<u8> {
    let mut bytes = Vec::from_slice(rt.alloc(), &log[..log.len().min(48)]).expect(rt, "memory");
    for part in parts {
        bytes.extend_from_slice(part).expect(rt, "memory");
    }
    bytes
}

/// The log's prefixes of these lengths are read so.
fn assert_prefixes(rt: &impl Runtime, log: &[u8], prefixes: &[(usize, Want)]) {
    for (length, want) in prefixes {
        let length = *length;
        assert_read(rt, &log[..length.min(log.len())], *want);
    }
}

/// Where bytes of a log are changed, what stands there then, and what is read.
type Change = (usize, &'static [u8], Want);

/// So changed the log is read so.
fn assert_changes(rt: &impl Runtime, log: &[u8], changes: &[Change]) {
    for (at, by, want) in changes {
        let bytes = changed(rt, log, *at, by);
        assert_read(rt, &bytes, *want);
    }
}

/// What stands after a log's header, and what is read.
type Rest = (&'static [&'static [u8]], Want);

/// With this after its header the log is read so.
fn assert_rests(rt: &impl Runtime, log: &[u8], rests: &[Rest]) {
    for (parts, want) in rests {
        let bytes = headed(rt, log, parts);
        assert_read(rt, &bytes, *want);
    }
}

/// How the run of the two logs ends.
const EXIT: RunEnd = RunEnd::Exit { at: 11, code: 0 };

/// The shortest and the longest prefix with each fault, and the whole.
const PREFIXES_1: &[(usize, Want)] = &[
    (0, Fault("no log: Magic at byte 0")),
    (7, Fault("no log: Magic at byte 0")),
    (8, Fault("no log: Header at byte 8")),
    (47, Fault("no log: Header at byte 8")),
    (48, Fault("no log: Short at byte 48")),
    (72, Fault("no log: Short at byte 48")),
    (73, Fault("no log: Short at byte 73")),
    (97, Fault("no log: Short at byte 73")),
    (98, Fault("no log: Short at byte 98")),
    (106, Fault("no log: Short at byte 98")),
    (107, Want::Log(2, EXIT, 123, Some(false))),
];

/// The last reads on a channel that there isn't, which version 2 can't hold.
const CHANGES_1: &[Change] = &[
    (40, &[0, 0], Fault("no log: Header at byte 40")),
    (40, &[1, 16], Fault("no log: Header at byte 40")),
    (44, &[17], Fault("no log: Header at byte 44")),
    (
        61,
        &[255, 255, 255, 255, 255, 255, 255, 127],
        Fault("no log: Short at byte 48"),
    ),
    (61, &[4, 0, 0, 0, 5], Fault("no log: Result at byte 48")),
    (73, &[9], Fault("no log: Tag at byte 73")),
    (74, &[5], Fault("no log: Order at byte 73")),
    (90, &[3], Fault("no log: Result at byte 73")),
    (107, &[0], Fault("no log: Trailing at byte 107")),
    (53, &[1], Want::Log(2, EXIT, 119, None)),
];

/// Each other kind of call and of end.
const RESTS_1: &[Rest] = &[
    (
        &[&CALLS, &TRAP],
        Want::Log(
            2,
            RunEnd::Trap {
                at: 5,
                kind: 2,
                pc: 65536,
            },
            99,
            Some(false),
        ),
    ),
    (
        &[&UNMOVED, &[7, 10, 0, 0, 0]],
        Want::Log(3, RunEnd::Limit { at: 10 }, 136, Some(false)),
    ),
];

#[test]
fn logs_of_version_1_are_read(rt: HostRuntime) {
    assert_prefixes(&rt, &LOG_1, PREFIXES_1);
    assert_changes(&rt, &LOG_1, CHANGES_1);
    assert_rests(&rt, &LOG_1, RESTS_1);
}

const PREFIXES_2: &[(usize, Want)] = &[
    (48, Fault("no log: Header at byte 48")),
    (50, Fault("no log: Header at byte 48")),
    (51, Fault("no log: Header at byte 48")),
    (55, Fault("no log: Header at byte 48")),
    (56, Fault("no log: Short at byte 56")),
    (80, Fault("no log: Short at byte 56")),
    (81, Fault("no log: Short at byte 81")),
    (109, Fault("no log: Short at byte 81")),
    (110, Fault("no log: Short at byte 110")),
    (122, Fault("no log: Short at byte 110")),
    (123, Want::Log(2, EXIT, 123, Some(true))),
];

const CHANGES_2: &[Change] = &[
    (6, &[0x33], Fault("no log: Magic at byte 0")),
    (40, &[0, 0], Fault("no log: Header at byte 40")),
    (44, &[17], Fault("no log: Header at byte 44")),
    (44, &[2], Fault("no log: Header at byte 56")),
    (65, &[1], Fault("no log: Bytes at byte 56")),
    (77, &[5], Fault("no log: Result at byte 56")),
    (81, &[9], Fault("no log: Tag at byte 81")),
    (82, &[5], Fault("no log: Order at byte 81")),
    (102, &[3], Fault("no log: Result at byte 81")),
    (111, &[0, 0, 0, 0, 0, 1], Fault("no log: Order at byte 110")),
    (123, &[0], Fault("no log: Trailing at byte 123")),
];

const NO_BYTE: &[u8] = &[0, 0, 0, 0];

/// Less and more on the channel than is read, and late steps.
const RESTS_2: &[Rest] = &[
    (&[&THREE, &AFTER_CHANNEL], Fault("no log: Bytes at byte 55")),
    (&[&FIVE, &AFTER_CHANNEL], Fault("no log: Bytes at byte 111")),
    (
        &[NO_BYTE, &LATE_CALL, &LATE_LIMIT],
        Want::Log(1, RunEnd::Limit { at: 1 << 40 }, 78, Some(true)),
    ),
    (
        &[NO_BYTE, &LATE_CALL, &TOO_LATE_LIMIT],
        Fault("no log: Order at byte 69"),
    ),
    (
        &[NO_BYTE, &TOO_LATE_CALL, &TOO_LATE_LIMIT],
        Fault("no log: Order at byte 52"),
    ),
];

#[test]
fn logs_of_version_2_are_read(rt: HostRuntime) {
    assert_prefixes(&rt, &LOG_2, PREFIXES_2);
    assert_changes(&rt, &LOG_2, CHANGES_2);
    assert_rests(&rt, &LOG_2, RESTS_2);
}

/// A log of version 1 is written as the same log of version 2.
#[test]
fn a_log_is_converted(rt: HostRuntime) {
    let log = read_log(rt.alloc(), &LOG_1).expect(&rt, "a log");
    assert_written(&rt, &LOG_2, &log, 123, Some(true));
}

/// A log that is put together of its parts, and its text.
#[test]
fn a_log_has_its_parts(rt: HostRuntime) {
    let records = vec![in rt.alloc(); CallRecord::Other { at: 4, number: 42 }].expect(
        &rt, "memory",
    );
    let log = Log::from_parts(1, 0, [7; 32], records, RunEnd::Limit { at: 9 }, 70);
    assert_same(&rt, log.pages(), 1);
    assert_same(&rt, log.inputs(), 0);
    assert_same(&rt, log.size(), 70);
    assert!(rt; log.digest() == [7; 32]);
    assert_written(&rt, &OTHER, &log, 70, Some(true));
}

/// How many calls the longest log has.
const MANY: u64 = 1_000_001;

/// A log in version 2 with a call of the clock at each step.
fn many(rt: &impl Runtime) -> Vec<u8> {
    let mut bytes = headed(rt, &LOG_2, &[NO_BYTE]);
    for step in 0..MANY {
        let step = step.to_le_bytes();
        bytes.push(3).expect(rt, "memory");
        bytes.extend_from_slice(&step).expect(rt, "memory");
        bytes.extend_from_slice(&step).expect(rt, "memory");
    }
    bytes.push(7).expect(rt, "memory");
    bytes
        .extend_from_slice(&MANY.to_le_bytes())
        .expect(rt, "memory");
    bytes
}

/// A log of more than a million calls.
#[test]
fn a_log_may_have_many_calls(rt: HostRuntime) {
    let end = RunEnd::Limit { at: MANY };
    let want = Want::Log(1_000_001, end, 17_000_078, Some(true));
    assert_read(&rt, &many(&rt), want);
}
