//! Names, and bytes in quotes.

use crate::asserts::assert_same;
use flow_model::{InnerSink, Loc, SinkByte, SinkPoint, SourceByte};
use printed_names::{
    RowText, SourceName, push_byte, push_lines_end, push_location, push_pc, push_point,
    push_quoted, push_wide_byte,
};
use std::process::Abort;

/// An output byte, a lane, an address, a point and a pc, a blank after each.
fn push_names(rt: &impl Abort, out: &mut Vec<u8>) {
    let loc = lane!(31, 3);
    push_byte(out, 15, 4294967295).expect(rt, "memory");
    out.push(b' ').expect(rt, "memory");
    push_location(out, loc).expect(rt, "memory");
    out.push(b' ').expect(rt, "memory");
    push_location(out, Loc::Mem { place: 65792 }).expect(rt, "memory");
    out.push(b' ').expect(rt, "memory");
    push_point(out, SinkPoint::At(InnerSink { time: 6, loc })).expect(rt, "memory");
    out.push(b' ').expect(rt, "memory");
    push_point(out, output!(1, 0)).expect(rt, "memory");
    out.push(b' ').expect(rt, "memory");
    push_pc(out, 0x8001_0a0c).expect(rt, "memory");
}

#[test]
fn names_are_those_of_reports(rt: HostRuntime) {
    let mut out = Vec::new(rt.alloc());
    push_names(&rt, &mut out);
    assert_same(
        &rt,
        out.as_slice(),
        b"15:4294967295 r:31.3 m:65792 r:31.3@6 1:0 0x80010a0c".as_slice(),
    );
}

/// Source bytes, one after another, and their names.
const BYTES: &[(u8, u32, &str)] = &[
    (0, 8, " 0:8"),
    (0, 9, " 0:9"),
    (0, 10, " 0:10"),
    (0, 11, " 0:11"),
    (0, 13, " 0:13"),
    (0, 13, " 0:13"),
    (0, 12, " 0:12"),
    (1, 13, " 1:13"),
    (1, 99, " 1:99"),
    (1, 100, " 1:100"),
    (1, 101, " 1:101"),
    (15, 102, " 15:102"),
    (15, 4294967294, " 15:4294967294"),
    (15, 4294967295, " 15:4294967295"),
    (15, 0, " 15:0"),
    (15, 1, " 15:1"),
];

#[test]
fn a_name_goes_to_the_next_byte(rt: HostRuntime) {
    let mut name = SourceName::new(source!(0, 7));
    assert_same(&rt, name.as_bytes(), b" 0:7".as_slice());
    for &(channel, offset, text) in BYTES {
        name.go_to(SourceByte { channel, offset });
        assert_same(&rt, name.as_bytes(), text.as_bytes());
    }
}

/// Tens of offsets, and the names of their ten source bytes.
const TENS: &[(u8, u32, &str)] = &[
    (0, 1, " 0:10 0:11 0:12 0:13 0:14 0:15 0:16 0:17 0:18 0:19"),
    (0, 9, " 0:90 0:91 0:92 0:93 0:94 0:95 0:96 0:97 0:98 0:99"),
    (
        0,
        10,
        " 0:100 0:101 0:102 0:103 0:104 0:105 0:106 0:107 0:108 0:109",
    ),
    (
        255,
        429496728,
        " 255:4294967280 255:4294967281 255:4294967282 255:4294967283 255:4294967284 255:4294967285 255:4294967286 255:4294967287 255:4294967288 255:4294967289",
    ),
    (7, 2, " 7:20 7:21 7:22 7:23 7:24 7:25 7:26 7:27 7:28 7:29"),
];

#[test]
fn ten_names_are_written_at_once(rt: HostRuntime) {
    let mut row = RowText::new();
    for &(channel, tens, text) in TENS {
        row.clear();
        row.push_ten(channel, tens);
        assert_same(&rt, row.as_bytes(), text.as_bytes());
    }
}

/// Output bytes, one after another, and their rows with the source bytes 0:9 to 0:11.
const ROWS: &[(u8, u32, &str)] = &[
    (1, 8, "1:8 0:9 0:10 0:11\n"),
    (1, 9, "1:9 0:9 0:10 0:11\n"),
    (1, 10, "1:10 0:9 0:10 0:11\n"),
    (2, 11, "2:11 0:9 0:10 0:11\n"),
    (15, 4294967295, "15:4294967295 0:9 0:10 0:11\n"),
];

#[test]
fn a_row_has_its_output_byte_and_source_bytes(rt: HostRuntime) {
    let mut row = RowText::new();
    for &(channel, offset, text) in ROWS {
        row.clear();
        row.push_point(SinkPoint::Out(SinkByte { channel, offset }));
        if row.has_room() {
            row.push_names(0, 9, 12);
        }
        if row.has_room() {
            row.push_line_feed();
        }
        assert_same(&rt, row.as_bytes(), text.as_bytes());
    }
}

/// Bytes, and their quoted texts.
const QUOTED: [(&[u8], &str); 5] = [
    (b"", "\"\""),
    (b" !~C00027", "\" !~C00027\""),
    (b"\0\x1f\x7f\xff\"\\", "\"\\x00\\x1f\\x7f\\xff\\x22\\x5c\""),
    (b"abcdefghijklmnopqrstuvwx", "\"abcdefghijklmnopqrstuvwx\""),
    (
        b"abcdefghijklmnopqrstuvwxy",
        "\"abcdefghijklmnopqrstuvwx\"..",
    ),
];

#[test]
fn bytes_are_quoted(rt: HostRuntime) {
    for (bytes, text) in QUOTED {
        let mut out = Vec::new(rt.alloc());
        push_quoted(&mut out, bytes).expect(&rt, "memory");
        assert_same(&rt, out.as_slice(), text.as_bytes());
    }
}

#[test]
fn a_byte_of_any_channel_has_a_name(rt: HostRuntime) {
    let mut out = Vec::new(rt.alloc());
    push_wide_byte(&mut out, 4294967295, 18446744073709551615).expect(&rt, "memory");
    out.push(b'\n').expect(&rt, "memory");
    push_lines_end(&mut out, 1).expect(&rt, "memory");
    assert_same(
        &rt,
        out.as_slice(),
        b"4294967295:18446744073709551615\nend 1\n".as_slice(),
    );
}
