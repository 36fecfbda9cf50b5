//! Reports in runs with the bytes on both sides.

ghost use Rattle.std.specs.Prelude.{◌≡◌};

use crate::asserts::{Runtime, assert_same};
use crate::source_ranges_tests::BYTES;
use flow_model::{Loc, SinkPoint, SourceByte};
use range_report::shown;
use replay_log::{Log, read_log};
use sink_collect::{Report, SinkSet, SinkSets, gather};
use source_ranges::SourceSet;

/// A log in version 1, of a program whose digest is zero: "Ab1,Ab2" is read on channel 0 in two reads and "xyz" on channel
/// 3, and "Ab3 x" is written on channel 1 in two writes and "b" on channel 2.
const LOG: &[u8] = b"JETLOG1\n\0\0\0\0\0\0\0\0\0\0\0\0\0\0\0\0\0\0\0\0\0\0\0\0\0\0\0\0\0\0\0\0\
    \x01\0\0\0\x04\0\0\0\
    \x01\x05\0\0\0\0\0\0\0\0\x01\x01\0\x04\0\0\0\x04\0\0\0Ab1,\
    \x01\x09\0\0\0\x03\0\0\0\0\x02\x01\0\x08\0\0\0\x03\0\0\0xyz\
    \x01\x0b\0\0\0\0\0\0\0\0\x01\x01\0\x04\0\0\0\x03\0\0\0Ab2\
    \x02\x13\0\0\0\x01\0\0\0\0\x01\x01\0\x02\0\0\0\x02\0\0\0Ab\
    \x02\x15\0\0\0\x02\0\0\0\0\x02\x01\0\x01\0\0\0\x01\0\0\0b\
    \x02\x17\0\0\0\x01\0\0\0\0\x01\x01\0\x03\0\0\0\x03\0\0\03 x\
    \x05\x19\0\0\0\x2c\x01\0\0";

/// The first byte of channel 3.
const OTHER: SourceByte = source!(3, 0);

/// Where a row came from.
#[derive(Clone, Copy)]
enum From {
    Nothing,
    /// The byte of this offset of channel 0.
    One(u32),
    /// Offsets 2, 3 and 6 of channel 0.
    Three,
    /// That of channel 3.
    Other,
}

/// The source bytes that a row came from.
fn sources(rt: &impl Runtime, from: From) -> SourceSet {
    let alloc = rt.alloc();
    let set = match from {
        From::Nothing => SourceSet::of(alloc, &[]),
        From::One(offset) => SourceSet::of(alloc, &[SourceByte { channel: 0, offset }]),
        From::Three => SourceSet::of(alloc, &BYTES[..3]),
        From::Other => SourceSet::of(alloc, &[OTHER]),
    };
    set.expect(rt, "memory")
}

/// The set of an output byte or a point.
fn set(rt: &impl Runtime, sink: SinkPoint, from: From) -> SinkSet
    ensures { result.sink ≡ sink }
{
    SinkSet::new(sink, sources(rt, from))
}

/// The output bytes of channel 1, and the first of channel 2.
const OUT: [SinkPoint; 6] = [
    output!(1, 0),
    output!(1, 1),
    output!(1, 2),
    output!(1, 3),
    output!(1, 4),
    output!(2, 0),
];

/// The last byte of x10 after six steps.
const LANE: SinkPoint = inside!(lane!(10, 3), 6);

/// A byte of memory at the same time.
const PLACE: SinkPoint = inside!(Loc::Mem { place: 65792 }, 6);

/// Moved bytes, one from three, one without a source, one from another channel, one on another channel, and points.
fn all_kinds(rt: &impl Runtime) -> Report {
    let alloc = rt.alloc();
    let sets = vec![in alloc;
        set(rt, OUT[0], From::One(4)),
        set(rt, OUT[1], From::One(5)),
        set(rt, OUT[2], From::Three),
        set(rt, OUT[3], From::Nothing),
        set(rt, OUT[4], From::Other),
        set(rt, OUT[5], From::One(5)),
        set(rt, LANE, From::Three),
        set(rt, PLACE, From::Nothing),
    ];
    gather(alloc, SinkSets::from_vec(sets.expect(rt, "memory"))).expect(rt, "memory")
}

/// Two bytes from the same three, and one that was changed on the way.
fn shared_and_changed(rt: &impl Runtime) -> Report {
    let alloc = rt.alloc();
    let sets = vec![in alloc;
        set(rt, OUT[0], From::Three),
        set(rt, OUT[1], From::Three),
        set(rt, OUT[2], From::One(6)),
    ];
    gather(alloc, SinkSets::from_vec(sets.expect(rt, "memory"))).expect(rt, "memory")
}

/// A report in runs has this text.
fn assert_shown(rt: &impl Runtime, log: &Log, report: &Report, lines: &str) {
    let text = shown(rt.alloc(), report, log).expect(rt, "memory");
    assert_same(rt, text.as_slice(), lines.as_bytes());
}

#[test]
fn rows_are_told_in_runs(rt: HostRuntime) {
    let log = read_log(rt.alloc(), LOG).expect(&rt, "a log");
    let lines = "1:0-2 \"Ab\" = 0:4-6 \"Ab\"\n\
        1:2-3 \"3\" < 0:2-4 \"1,\" 0:6-7 \"2\"\n\
        1:4-5 \"x\" = 3:0-1 \"x\"\n\
        2:0-1 \"b\" = 0:5-6 \"b\"\n\
        r:10.3@6 < 0:2-4 \"1,\" 0:6-7 \"2\"\n\
        end 5 2\n";
    assert_shown(&rt, &log, &all_kinds(&rt), lines);
    let lines = "1:0-2 \"Ab\" < 0:2-4 \"1,\" 0:6-7 \"2\"\n1:2-3 \"3\" ~ 0:6-7 \"2\"\nend 2 0\n";
    assert_shown(&rt, &log, &shared_and_changed(&rt), lines);
}
