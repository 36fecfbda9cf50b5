//! Comparing what a log keeps with what its program shows.

ghost use Rattle.std.specs.Prelude.{◌≡◌, ◌≤◌, ◌^◌, length, ◌∷◌, []};
ghost use Rattle.replay_model.specs.Comparison.{compared, allowed, bytes_compared, result as result_compared, at_step};
ghost use Rattle.replayer.specs.Differences.{IsFirst, arguments_compared, compared_of};

use replay_model::{Divergence, Field};

/// A field that the log keeps otherwise than its program shows it.
#[derive(Clone, Copy)]
pub(crate) struct Difference {
    pub field: Field,
    pub kept: i64,
    pub seen: i64,
}

impl Difference {
    /// The difference, with the number of steps done before it.
    pub(crate) fn at_step(self, step: u64) -> Divergence
        ensures { result ≡ at_step step (compared_of self) }
    {
        Divergence {
            step,
            field: self.field,
            kept: self.kept,
            seen: self.seen,
        }
    }
}

/// Compares a field.
pub(crate) fn compare(field: Field, kept: i64, seen: i64) -> Result<(), Difference>
    ensures { IsFirst (record { field = field; kept = kept; seen = seen } ∷ []) result }
{
    if kept == seen {
        Ok(())
    } else {
        Err(Difference { field, kept, seen })
    }
}

/// Compares a field of 32 bits.
pub(crate) fn compare_words(field: Field, kept: u32, seen: u32) -> Result<(), Difference>
    ensures { IsFirst (compared field kept seen ∷ []) result }
{
    compare(field, i64::from(kept), i64::from(seen))
}

/// Compares the three arguments of a read or a write.
pub(crate) fn compare_arguments(kept: &[u32; 3], seen: &[u32; 3]) -> Result<(), Difference>
    ensures { IsFirst (arguments_compared kept.now seen.now) result }
{
    compare_words(Field::A0, kept[0], seen[0])?;
    compare_words(Field::A1, kept[1], seen[1])?;
    compare_words(Field::A2, kept[2], seen[2])
}

/// Compares the result of a read or a write. A call that is refused has the refusal as its result; any
/// other may have any that isn't negative, and in place of a negative one it shows `whole`.
pub(crate) fn compare_result(kept: i32, refusal: i32, whole: u32) -> Result<(), Difference>
    ensures { IsFirst (result_compared kept (allowed refusal kept whole) ∷ []) result }
{
    let seen = if refusal < 0 {
        i64::from(refusal)
    } else if kept < 0 {
        i64::from(whole)
    } else {
        i64::from(kept)
    };
    compare(Field::Result, i64::from(kept), seen)
}

/// Compares the bytes of a write with as many in memory.
pub(crate) fn compare_bytes(kept: &[u8], seen: &[u8]) -> Result<(), Difference>
    requires same { length seen.now ≡ length kept.now }
    requires small { length kept.now ≤ 2 ^ 31 }
    ensures { IsFirst (bytes_compared 0 kept.now seen.now) result }
{
    for (i, byte) in kept.iter().enumerate() {
        compare_words(Field::Byte(i as u32), u32::from(*byte), u32::from(seen[i]))?;
    }
    Ok(())
}
