//! Ranges of source bytes that are added one after another.

ghost use Rattle.std.specs.Prelude.{◌≡◌, ◌++◌, [], ◌∷◌, false, All, IsTrue, OnOk};
ghost use Rattle.std.specs.List.{flat_map};
ghost use Rattle.lists.specs.Sets.{Ascends};
ghost use Rattle.flow_model.specs.Orders.{source_cmp};
ghost use Rattle.source_ranges.specs.Kept.{IsRange};
ghost use Rattle.source_ranges.specs.RangeLaws.{AreApart};
ghost use Rattle.source_ranges.specs.Ranges.{bytes_of};

use crate::SourceRange;
use crate::set::SourceSet;
use no_memory::NoMemory;
use std::alloc::Global;
use std::marker::Model;

/// Ranges of source bytes, each as long as can be, in the order in which they were added. Contracts see their bytes.
#[derive(Drop)]
pub struct JoinedRanges {
    ranges: Vec<SourceRange>,
}

impl Model for JoinedRanges {
    ghost use Rattle.std.specs.Prelude.{List, All};
    ghost use Rattle.std.specs.List.{flat_map};
    ghost use Rattle.flow_model.specs.declared.SourceByte.{SourceByte};
    ghost use Rattle.source_ranges.specs.Kept.{IsRange};
    ghost use Rattle.source_ranges.specs.RangeLaws.{AreApart};
    ghost use Rattle.source_ranges.specs.Ranges.{bytes_of};

    ghost Value = { List SourceByte };

    ghost view = { λ r. flat_map bytes_of r.ranges.items };

    ghost invariant = { λ r. AreApart r.ranges.items × All IsRange r.ranges.items };
}

impl JoinedRanges {
    /// None. It takes no memory.
    pub fn new(alloc: Global) -> JoinedRanges
        ensures { result ≡ [] }
    {
        JoinedRanges {
            ranges: Vec::new(alloc),
        }
    }

    /// Adds the bytes of a range: to the last one, where they go on from it. It fails only where there is no memory.
    pub fn push(&mut self, range: SourceRange) -> Result<(), NoMemory>
        requires { IsRange range }
        ensures { OnOk result (self.new ≡ self.old ++ bytes_of range) }
    {
        push_joined(&mut self.ranges, range)
    }

    /// The set of the bytes, where they ascend by channel and then offset. It takes no memory.
    pub fn into_set(self) -> SourceSet
        requires { Ascends source_cmp self }
        ensures { result ≡ self }
    {
        SourceSet::of_ranges(self.ranges)
    }
}

/// Adds a range to others: to the last of them, where it goes on from that one.
fn push_joined(ranges: &mut Vec<SourceRange>, range: SourceRange) -> Result<(), NoMemory>
    requires range { IsRange range }
    requires apart { AreApart ranges.old.items }
    requires fits { All IsRange ranges.old.items }
    ensures bytes { OnOk result
        (flat_map bytes_of ranges.new.items ≡ flat_map bytes_of ranges.old.items ++ bytes_of range) }
    ensures apart { AreApart ranges.new.items }
    ensures fits { All IsRange ranges.new.items }
{
    if join_last(ranges, range) {
        return Ok(());
    }
    ranges.push(range)?;
    Ok(())
}

/// Adds the bytes of a range to the last of others, where it goes on from that one. It answers whether it does.
fn join_last(ranges: &mut Vec<SourceRange>, range: SourceRange) -> bool
    requires range { IsRange range }
    requires apart { AreApart ranges.old.items }
    requires fits { All IsRange ranges.old.items }
    ensures bytes { IsTrue result
        → flat_map bytes_of ranges.new.items ≡ flat_map bytes_of ranges.old.items ++ bytes_of range }
    ensures apart { IsTrue result → AreApart ranges.new.items }
    ensures fits { IsTrue result → All IsRange ranges.new.items }
    ensures kept { result ≡ false → ranges.new.items ≡ ranges.old.items }
    ensures pushed { result ≡ false → AreApart (ranges.old.items ++ range ∷ []) }
{
    if let Some(last) = ranges.last_mut() {
        if last.channel == range.channel && last.past == range.from {
            last.past = range.past;
            return true;
        }
    }
    false
}
