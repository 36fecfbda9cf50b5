//! Sets that grow by one member.

ghost use Rattle.std.specs.Prelude.{◌≡◌, ◌∷◌, ◌++◌, [], true, OnOk, OnErr};
ghost use Rattle.lists.specs.Sets.{Ascends, inserted};

use no_memory::NoMemory;
use std::cmp::Ordering;

/// Adds a member to a set, unless it is there. One that is above all others takes no search. When out of memory nothing
/// changes.
pub(crate) fn insert<T: Ord + Copy>(set: &mut Vec<T>, member: T) -> Result<(), NoMemory>
    requires { Ascends T.cmp set.old.items }
    ensures added { OnOk result (set.new.items ≡ inserted T.cmp member set.old.items) }
    ensures err { OnErr result (set.new.items ≡ set.old.items) }
{
    if is_above(&member, set.as_slice()) {
        set.push(member)?;
        return Ok(());
    }
    match set.as_slice().binary_search(&member) {
        Ok(_) => {}
        Err(place) => set.insert(place, member)?,
    }
    Ok(())
}

/// Whether a member comes after all of a set.
fn is_above<T: Ord>(member: &T, set: &[T]) -> bool
    requires { Ascends T.cmp set.now }
    ensures { result ≡ true → inserted T.cmp member.now set.now ≡ set.now ++ member.now ∷ [] }
{
    match set.last() {
        None => true,
        Some(last) => match last.cmp(member) {
            Ordering::Less => true,
            Ordering::Equal => false,
            Ordering::Greater => false,
        },
    }
}
