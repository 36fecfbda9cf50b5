//! Frames, written and read.

use crate::asserts::{Runtime, assert_same};
use remote_frames::{Framed, Framer, LONGEST_PACKET, push_frame};

/// Appends what a framer tells of bytes: packets in brackets, `!` for a frame that is bad, and `^` where the last
/// answer is wanted again.
fn push_told(rt: &impl Runtime, out: &mut Vec<u8>, framer: &mut Framer, bytes: &[u8]) {
    for byte in bytes {
        match framer.read(*byte).expect(rt, "memory") {
            Framed::Nothing => {}
            Framed::Packet => {
                out.push(b'[').expect(rt, "memory");
                out.extend_from_slice(framer.packet()).expect(rt, "memory");
                out.push(b']').expect(rt, "memory");
            }
            Framed::Bad => out.push(b'!').expect(rt, "memory"),
            Framed::Again => out.push(b'^').expect(rt, "memory"),
        }
    }
}

/// Bytes, and what is told of them.
const HEARD: &[(&[u8], &[u8])] = &[
    (b"", b""),
    (b"$?#3f", b"[?]"),
    (b"$#00", b"[]"),
    (b"+$p20#d2+$bc#C5+", b"[p20][bc]"),
    (
        b"$\xff\xff\xff\xff\xff\xff#fA",
        b"[\xff\xff\xff\xff\xff\xff]",
    ),
    (b"$}*#a7", b"[}*]"),
    (b"\x03-+-$?#3f", b"^^[?]"),
    (b"?#3f#-", b"^"),
    // A `$` begins anew, among the digits too.
    (b"$$$?#3f", b"[?]"),
    (b"$m1$?#3f", b"[?]"),
    (b"$?#$?#3f", b"[?]"),
    (b"$?#3$?#3f", b"[?]"),
    // The two bytes behind `#` are the digits.
    (b"$?#3e-", b"!^"),
    (b"$?#3g-", b"!^"),
    (b"$?#g3-", b"!^"),
    (b"$?##f-", b"!^"),
    (b"$?#----", b"!^^"),
    (b"$?#00$?#3f", b"![?]"),
    (b"$-#2d", b"[-]"),
    // A frame that isn't whole says nothing.
    (b"-$?", b"^"),
    (b"-$?#", b"^"),
    (b"-$?#3", b"^"),
];

/// What is told of bytes that come in two pieces.
fn assert_heard(rt: &impl Runtime, bytes: &[u8], place: usize, want: &[u8]) {
    let mut framer = Framer::new(rt.alloc());
    let mut told = Vec::new(rt.alloc());
    let (first, rest) = bytes.split_at(place.min(bytes.len()));
    push_told(rt, &mut told, &mut framer, first);
    push_told(rt, &mut told, &mut framer, rest);
    assert_same(rt, told.as_slice(), want);
}

#[test]
fn frames_are_read_in_any_pieces(rt: HostRuntime) {
    for (bytes, want) in HEARD {
        for place in 0..=bytes.len() {
            assert_heard(&rt, bytes, place, want);
        }
    }
}

/// Packets and their frames.
const FRAMES: &[(&[u8], &[u8])] = &[
    (b"", b"$#00"),
    (b"OK", b"$OK#9a"),
    (b"T05watch:00010102;", b"$T05watch:00010102;#c9"),
    (b"\xff\xff\xff\xff\xff\xff", b"$\xff\xff\xff\xff\xff\xff#fa"),
];

#[test]
fn frames_are_written(rt: HostRuntime) {
    for (packet, frame) in FRAMES {
        let mut out = Vec::new(rt.alloc());
        out.push(b'+').expect(&rt, "memory");
        push_frame(&mut out, packet).expect(&rt, "memory");
        assert_same(&rt, &out.as_slice()[1..], *frame);
    }
}

/// What a framer tells of a long packet in its frame, and of another.
fn told_of_long(rt: &impl Runtime, length: usize) -> usize {
    let mut packet = Vec::new(rt.alloc());
    for _ in 0..length {
        packet.push(b'a').expect(rt, "memory");
    }
    let mut bytes = Vec::new(rt.alloc());
    push_frame(&mut bytes, packet.as_slice()).expect(rt, "memory");
    push_frame(&mut bytes, b"?").expect(rt, "memory");
    let mut framer = Framer::new(rt.alloc());
    let mut told = Vec::new(rt.alloc());
    push_told(rt, &mut told, &mut framer, bytes.as_slice());
    assert!(rt; told.as_slice().ends_with(b"[?]"));
    told.len()
}

#[test]
fn a_packet_has_so_many_bytes_at_most(rt: HostRuntime) {
    assert_same(&rt, told_of_long(&rt, LONGEST_PACKET), LONGEST_PACKET + 5);
    assert_same(&rt, told_of_long(&rt, LONGEST_PACKET + 1), 4);
    assert_same(&rt, told_of_long(&rt, 3 * LONGEST_PACKET), 4);
}
