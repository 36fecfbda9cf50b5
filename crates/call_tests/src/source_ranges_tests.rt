//! Ranges of source bytes, and sets that are kept as such.

use crate::asserts::assert_same;
use flow_model::SourceByte;
use source_ranges::{SourceSet, push_range, ranges_of};

/// Offsets 2 and 3, 6 and the last that there is, of channel 0, and offset 7 of channel 1.
pub const BYTES: [SourceByte; 5] = [
    source!(0, 2),
    source!(0, 3),
    source!(0, 6),
    source!(0, 4294967295),
    source!(1, 7),
];

#[test]
fn ranges_are_as_long_as_can_be(rt: HostRuntime) {
    let ranges = ranges_of(rt.alloc(), &BYTES).expect(&rt, "memory");
    let mut names = Vec::new(rt.alloc());
    for range in &ranges {
        push_range(&mut names, *range).expect(&rt, "memory");
        names.push(b' ').expect(&rt, "memory");
    }
    assert_same(
        &rt,
        names.as_slice(),
        b"0:2-4 0:6-7 0:4294967295-4294967296 1:7-8 ".as_slice(),
    );
}

#[test]
fn a_set_keeps_its_source_bytes(rt: HostRuntime) {
    let set = SourceSet::of(rt.alloc(), &BYTES).expect(&rt, "memory");
    let copy = set.copied(rt.alloc()).expect(&rt, "memory");
    assert!(rt; copy.equals(&set));
    assert!(rt; copy.count() == 5);
    assert!(rt; copy.first() == Some(BYTES[0]));
    assert!(rt; copy.single().is_none());
    let bytes = copy.bytes(rt.alloc()).expect(&rt, "memory");
    assert!(rt; bytes.as_slice() == BYTES.as_slice());
}
