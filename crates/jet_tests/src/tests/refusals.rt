//! Files that are refused, each with its status and its line.

use super::guests::COPY_CODE;
use super::record::FOUR;
use super::runs::COPIES;
use super::{
    COPIED, COPY, Channels, Ending, Entry, Patch, Runtime, assert_copy, assert_query, copied,
    log_of, owned, patched, program, push, push_words, wide_log_of,
};

/// A prefix of up to so many bytes ends with this status, and this report or line.
type Prefix = (usize, u8, &'static str);

/// Prefixes of the program.
const PROGRAMS: &[Prefix] = &[
    (51, 3, "jet: image 1 Short\n"),
    (83, 3, "jet: image 6 Header\n"),
    (131, 3, "jet: image 8 Segment\n"),
    (132, 0, COPIED),
];

/// Prefixes of the log.
const LOGS: &[Prefix] = &[
    (7, 4, "jet: log 1 Magic at 0\n"),
    (47, 4, "jet: log 2 Header at 8\n"),
    (72, 4, "jet: log 3 Short at 48\n"),
    (97, 4, "jet: log 3 Short at 73\n"),
    (106, 4, "jet: log 3 Short at 98\n"),
    (107, 0, COPIED),
];

/// Prefixes of the log in version 2.
const WIDE_LOGS: &[Prefix] = &[
    (7, 4, "jet: log 1 Magic at 0\n"),
    (47, 4, "jet: log 2 Header at 8\n"),
    (55, 4, "jet: log 2 Header at 48\n"),
    (80, 4, "jet: log 3 Short at 56\n"),
    (109, 4, "jet: log 3 Short at 81\n"),
    (122, 4, "jet: log 3 Short at 110\n"),
    (123, 0, COPIED),
];

/// Prefixes of the query.
const QUERIES: &[Prefix] = &[
    (0, 6, "jet: query line 0 NoRule\n"),
    (3, 6, "jet: query line 1 Word\n"),
    (5, 6, "jet: query line 1 Count\n"),
    (8, 6, "jet: query line 1 Word\n"),
    (10, 0, "end 0\n"),
    (15, 6, "jet: query line 2 Word\n"),
    (17, 6, "jet: query line 2 Count\n"),
    (19, 6, "jet: query line 2 Number\n"),
    (21, 0, "end 0\n"),
    (24, 6, "jet: query line 3 Word\n"),
    (26, 6, "jet: query line 3 Count\n"),
    (28, 6, "jet: query line 3 Number\n"),
    (30, 0, COPIED),
];

/// How the file ends of which so many bytes are there.
fn ending_of(length: usize, prefixes: &'static [Prefix]) -> Ending<'static> {
    for &(last, status, text) in prefixes {
        if length <= last {
            return Ending::of(status, text);
        }
    }
    Ending::of(0, "longer than the whole file")
}

#[test]
fn each_prefix_of_a_file_has_its_ending(rt: HostRuntime) {
    let (program, log) = copied(&rt);
    let query = COPY.as_bytes();
    for length in 0..=program.len() {
        assert_copy(&rt, &program[..length], &log, ending_of(length, PROGRAMS));
    }
    assert_prefixes(&rt, &program, &log, LOGS);
    for length in 0..=query.len() {
        let ending = ending_of(length, QUERIES);
        assert_query(&rt, &program, &log, &query[..length], ending);
    }
}

/// Each prefix of a log ends as the table says.
fn assert_prefixes(rt: &impl Runtime, program: &[u8], log: &[u8], prefixes: &'static [Prefix]) {
    for length in 0..=log.len() {
        assert_copy(rt, program, &log[..length], ending_of(length, prefixes));
    }
}

#[test]
fn each_prefix_of_a_log_in_version_2_has_its_ending(rt: HostRuntime) {
    let program = program(&rt, COPY_CODE);
    let log = wide_log_of(&rt, &program, 1, FOUR, COPIES);
    assert_prefixes(&rt, &program, &log, WIDE_LOGS);
}

/// The channels of the four-byte copy, its records, bytes in place of others, and the status and the line.
type WideCase = (Channels, &'static [Entry], Patch, u8, &'static str);

/// No byte is changed.
const AS_IT_IS: Patch = (0, b"");

/// The same records with a channel of another length, and other faults that version 2 alone has.
const WIDE_CASES: &[WideCase] = &[
    (&[b"ABC"], COPIES, AS_IT_IS, 4, "jet: log 8 Bytes at 55\n"),
    (
        &[b"ABCDE"],
        COPIES,
        AS_IT_IS,
        4,
        "jet: log 8 Bytes at 111\n",
    ),
    // The read is on a channel that there is none of.
    (FOUR, COPIES, (65, b"\x01"), 4, "jet: log 8 Bytes at 56\n"),
    // The channel's length is more than the file.
    (
        FOUR,
        COPIES,
        (48, b"\xff\xff\xff\xff"),
        4,
        "jet: log 2 Header at 48\n",
    ),
    // Another byte was read than is written.
    (
        FOUR,
        COPIES,
        (54, b"X"),
        5,
        "jet: diverged at 8 byte 2 kept 67 seen 88\n",
    ),
    // The upper half of a step counts.
    (FOUR, COPIES, (61, b"\x01"), 4, "jet: log 5 Order at 81\n"),
    (
        &[],
        &[Entry::Limit(5)],
        (49, b"\x01\0\0\0\0\x01\0\0"),
        4,
        "jet: log 5 Order at 48\n",
    ),
    (
        &[],
        &[Entry::Limit(5)],
        (49, b"\0\0\0\0\0\x01\0\0"),
        5,
        "jet: diverged at 5 event kept 0 seen 1\n",
    ),
    // A call stands below that.
    (
        &[],
        &[Entry::Other(5, 7), Entry::Limit(6)],
        (49, b"\0\0\0\0\0\x01\0\0"),
        4,
        "jet: log 5 Order at 48\n",
    ),
];

/// The log of these records, patched, ends so.
fn assert_wide(rt: &impl Runtime, program: &[u8], case: &WideCase) {
    let (channels, entries, patch, status, line) = *case;
    let log = wide_log_of(rt, program, 1, channels, entries);
    let log = patched(rt, &log, patch);
    assert_copy(rt, program, &log, Ending::of(status, line));
}

#[test]
fn faults_of_version_2_are_told(rt: HostRuntime) {
    let program = program(&rt, COPY_CODE);
    for case in WIDE_CASES {
        assert_wide(&rt, &program, case);
    }
}

/// Other bytes in the program, and the line of its status 3.
const CHANGED_PROGRAMS: &[(Patch, &str)] = &[
    ((28, b"\xff\xff\xff\xff"), "jet: image 6 Header\n"),
    ((56, b"\xff\xff\xff\xff"), "jet: image 8 Segment\n"),
    ((60, b"\xf0\xff\xff\xff"), "jet: image 8 Segment\n"),
    ((24, b"\x02\0\x01\0"), "jet: image 10 Entry\n"),
    ((24, b"\x30\0\x01\0"), "jet: image 10 Entry\n"),
    ((52, b"\x02"), "jet: image 7 Dynamic\n"),
    ((52, b"\x04"), "jet: image 9 NoSegment\n"),
];

/// Other bytes in the log, its status and its line: faults of the form, and divergences.
pub const CHANGED_LOGS: &[(Patch, u8, &str)] = &[
    (
        (61, b"\xff\xff\xff\xff\xff\xff\xff\x7f"),
        4,
        "jet: log 3 Short at 48\n",
    ),
    ((65, b"\x05"), 4, "jet: log 6 Result at 48\n"),
    ((74, b"\x05"), 4, "jet: log 5 Order at 73\n"),
    ((73, b"\x09"), 4, "jet: log 4 Tag at 73\n"),
    ((96, b"X"), 5, "jet: diverged at 8 byte 2 kept 88 seen 67\n"),
    ((53, b"\x01"), 5, "jet: diverged at 5 a0 kept 1 seen 0\n"),
    ((49, b"\x04"), 5, "jet: diverged at 4 event kept 1 seen 0\n"),
    (
        (103, b"\x07"),
        5,
        "jet: diverged at 11 code kept 7 seen 0\n",
    ),
    (
        (99, b"\x0c"),
        5,
        "jet: diverged at 11 event kept 0 seen 5\n",
    ),
];

/// With these bytes changed in the program the query is refused so.
fn assert_changed_program(rt: &impl Runtime, program: &[u8], log: &[u8], patch: Patch, line: &str) {
    let changed = patched(rt, program, patch);
    let ending = Ending::of(3, line);
    assert_copy(rt, &changed, log, ending);
}

#[test]
fn changed_programs_are_refused(rt: HostRuntime) {
    let (program, log) = copied(&rt);
    for &(patch, line) in CHANGED_PROGRAMS {
        assert_changed_program(&rt, &program, &log, patch, line);
    }
}

/// The log and one byte more is refused with this line.
fn assert_trailing(rt: &impl Runtime, program: &[u8], log: &[u8], line: &str) {
    let mut longer = owned(rt, log);
    push(rt, &mut longer, &[0]);
    assert_copy(rt, program, &longer, Ending::of(4, line));
}

#[test]
fn a_byte_after_a_log_is_refused(rt: HostRuntime) {
    let (program, log) = copied(&rt);
    assert_trailing(&rt, &program, &log, "jet: log 7 Trailing at 107\n");
    let wide = wide_log_of(&rt, &program, 1, FOUR, COPIES);
    assert_trailing(&rt, &program, &wide, "jet: log 7 Trailing at 123\n");
}

/// Queries, one for each kind of fault, and the line of their status 6.
const FAULTY_QUERIES: &[(&[u8], &str)] = &[
    (b"rule copy\nsink 1 3 2\n", "jet: query line 2 Range\n"),
    (b"sink 16", "jet: query line 1 Channel\n"),
    (b"source 0 5", "jet: query line 1 Count\n"),
    (b"rule cop", "jet: query line 1 Word\n"),
    (b"source al", "jet: query line 1 Number\n"),
    (b"rule copy\nrule copy\n", "jet: query line 2 SecondRule\n"),
    (b"#\xff\nsink all", "jet: query line 0 NoRule\n"),
    (b"\x07", "jet: query line 1 BadByte\n"),
];

#[test]
fn faulty_queries_are_told(rt: HostRuntime) {
    let (program, log) = copied(&rt);
    for &(query, line) in FAULTY_QUERIES {
        assert_query(&rt, &program, &log, query, Ending::of(6, line));
    }
}

/// The program with a second program header after the first, of a type that isn't loaded.
fn with_two_headers(rt: &impl Runtime, program: &[u8]) -> Vec<u8> {
    let (first, code) = program.split_at(program.len().min(84));
    let mut two = owned(rt, first);
    push_words(rt, &mut two, [0x7000_0003, 0, 0, 0, 0, 0, 0, 0].as_slice());
    push(rt, &mut two, code);
    let counted = patched(rt, &two, (44, b"\x02"));
    patched(rt, &counted, (56, b"\x74"))
}

#[test]
fn a_header_of_another_type_is_skipped(rt: HostRuntime) {
    let program = program(&rt, COPY_CODE);
    let two = with_two_headers(&rt, &program);
    let log = log_of(&rt, &two, 1, 1, COPIES);
    assert_copy(&rt, &two, &log, Ending::report(COPIED));
}
