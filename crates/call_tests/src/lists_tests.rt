//! Sets of numbers, against what is written out.

use crate::asserts::assert_same;
use lists::{contains, is_subset, merged};

#[test]
fn unions_have_the_members_of_both(rt: HostRuntime) {
    let alloc = rt.alloc();
    let disjoint = merged(alloc, &[1_u32, 4, 9], &[2, 3]).expect(&rt, "memory");
    assert_same(&rt, disjoint.as_slice(), [1, 2, 3, 4, 9].as_slice());
    let shared = merged(alloc, &[0_u32, 5, 4294967295], &[1, 5]).expect(&rt, "memory");
    assert_same(&rt, shared.as_slice(), [0, 1, 5, 4294967295].as_slice());
    let of_none = merged(alloc, &[7_u32], &[]).expect(&rt, "memory");
    assert_same(&rt, of_none.as_slice(), [7].as_slice());
}

#[test]
fn members_are_found(rt: HostRuntime) {
    assert!(rt; contains(&[2_u32, 3, 5, 7], &7));
    assert!(rt; !contains(&[2_u32, 3, 5, 7], &4));
    assert!(rt; is_subset(&[2_u32, 7], &[2, 3, 5, 7]));
    assert!(rt; !is_subset(&[2_u32, 8], &[2, 3, 5, 7]));
    assert!(rt; !is_subset(&[0_u32], &[]));
}
