//! Sets in slices.

ghost use Rattle.std.specs.Prelude.{◌≡◌, ◌++◌, IfOk};
ghost use Rattle.lists.specs.Sets.{union, has, is_within, Ascends};

use std::alloc::{AllocError, Global};
use std::cmp::Ordering;

/// The union of two sets, by one pass over both. Where the order has two members equal, that of `right`
/// stands.
///
/// It fails where there is no memory for the members of both.
pub fn merged<T: Ord + Copy>(alloc: Global, left: &[T], right: &[T]) -> Result<Vec<T>, AllocError>
    requires left { Ascends T.cmp left.now }
    requires right { Ascends T.cmp right.now }
    ensures { IfOk result (λ all. all.items ≡ union T.cmp left.now right.now) }
{
    let mut all = Vec::with_capacity(alloc, left.len().saturating_add(right.len()))?;
    push_union(&mut all, left, right)?;
    Ok(all)
}

/// Appends the union of two sets, by one pass over both.
#[inline(always)]
fn push_union<T: Ord + Copy>(all: &mut Vec<T>, left: &[T], right: &[T]) -> Result<(), AllocError>
    requires left { Ascends T.cmp left.now }
    requires right { Ascends T.cmp right.now }
    ensures { IfOk result (λ done. all.new.items ≡ all.old.items ++ union T.cmp left.now right.now) }
{
    let (mut i, mut j) = (0, 0);
    while i < left.len() && j < right.len() {
        match left[i].cmp(&right[j]) {
            Ordering::Less => {
                all.push(left[i])?;
                i += 1;
            }
            Ordering::Equal => {
                all.push(right[j])?;
                i += 1;
                j += 1;
            }
            Ordering::Greater => {
                all.push(right[j])?;
                j += 1;
            }
        }
    }
    all.extend_from_slice(&left[i..])?;
    all.extend_from_slice(&right[j..])?;
    Ok(())
}

/// Whether each member of the first set is a member of the second, by one pass over the second.
pub fn is_subset<T: Ord>(few: &[T], many: &[T]) -> bool
    requires few { Ascends T.cmp few.now }
    requires many { Ascends T.cmp many.now }
    ensures { result ≡ is_within T.cmp few.now many.now }
{
    let mut found = 0;
    for member in many {
        if found == few.len() {
            return true;
        }
        match few[found].cmp(member) {
            Ordering::Less => return false,
            Ordering::Equal => found += 1,
            Ordering::Greater => {}
        }
    }
    found == few.len()
}

/// Whether `x` is a member of a set, by binary search.
pub fn contains<T: Ord>(set: &[T], x: &T) -> bool
    requires { Ascends T.cmp set.now }
    ensures { result ≡ has T.cmp x.now set.now }
{
    set.binary_search(x).is_ok()
}
