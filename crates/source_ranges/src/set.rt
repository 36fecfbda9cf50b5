//! Sets of source bytes, kept as ranges.

ghost use Rattle.std.specs.Prelude.{◌≡◌, ◌==◌, ◌↔◌, ◌-◌, ◌^◌, ◌<◌, [], ◌∷◌, ◌++◌, length, min, slice_get, All, IfOk, IsTrue, MatchOption, OnOk};
ghost use Rattle.lists.specs.Sets.{Ascends};
ghost use Rattle.flow_model.specs.Orders.{source_cmp};
ghost use Rattle.source_ranges.specs.Ranges.{byte_on, bytes_of, ranges_of as ranges};
ghost use Rattle.std.specs.List.{flat_map};
ghost use Rattle.source_ranges.specs.Kept.{AreKept, IsRange};

use crate::SourceRange;
use crate::ranges::{push_ranges, split_first_range};
use flow_model::SourceByte;
use no_memory::NoMemory;
use std::alloc::Global;
use std::marker::Model;

/// The ranges of a set. One alone stands in the set itself.
#[derive(Drop)]
enum Kept {
    One([SourceRange; 1]),
    Many(Vec<SourceRange>),
}

/// A set of source bytes, kept as ranges, each as long as can be. Contracts see it as its bytes, which ascend by channel
/// and then offset, each once.
#[derive(Drop)]
pub struct SourceSet {
    kept: Kept,
}

impl Model for SourceSet {
    ghost use Rattle.std.specs.Prelude.{List};
    ghost use Rattle.std.specs.List.{flat_map};
    ghost use Rattle.flow_model.specs.declared.SourceByte.{SourceByte};

    ghost Value = { List SourceByte };

    ghost use Rattle.source_ranges.specs.Ranges.{bytes_of};
    ghost use Rattle.source_ranges.specs.Kept.{ranges_in, AreKept};

    ghost view = { λ s. flat_map bytes_of (ranges_in s.kept) };

    ghost invariant = { λ s. AreKept (ranges_in s.kept) };
}

impl SourceSet {
    /// The set of no source byte. It takes no memory.
    pub fn new(alloc: Global) -> SourceSet
        ensures { result ≡ [] }
    {
        SourceSet {
            kept: Kept::Many(Vec::new(alloc)),
        }
    }

    /// The set of source bytes that ascend by channel and then offset. It takes the room of its ranges, and none where
    /// there is one at most. It fails only where there is no memory.
    pub fn of(alloc: Global, sources: &[SourceByte]) -> Result<SourceSet, NoMemory>
        requires { Ascends source_cmp sources.now }
        ensures { IfOk result (λ set. set ≡ sources.now) }
    {
        let Some((first, rest)) = split_first_range(sources) else {
            return Ok(SourceSet::new(alloc));
        };
        if rest.is_empty() {
            return Ok(SourceSet::of_range(first));
        }
        let mut ranges = Vec::new(alloc);
        push_ranges(&mut ranges, sources)?;
        Ok(SourceSet::of_ranges(ranges))
    }

    /// The set of the bytes of a range.
    pub(crate) fn of_range(range: SourceRange) -> SourceSet
        requires { IsRange range }
        ensures { result ≡ bytes_of range }
    {
        SourceSet {
            kept: Kept::One([range]),
        }
    }

    /// The set of the bytes of ranges. It takes no more room than these need.
    pub(crate) fn of_ranges(mut ranges: Vec<SourceRange>) -> SourceSet
        requires { AreKept ranges.items }
        ensures { result ≡ flat_map bytes_of ranges.items }
    {
        if let [range] = ranges.as_slice() {
            return SourceSet::of_range(*range);
        }
        ranges.shrink_to_fit();
        SourceSet {
            kept: Kept::Many(ranges),
        }
    }

    /// Its ranges, each as long as can be.
    pub fn ranges(&self) -> &[SourceRange]
        ensures value { result.now ≡ ranges self.now }
        ensures fits { All IsRange result.now }
    {
        match &self.kept {
            Kept::One(range) => range.as_slice(),
            Kept::Many(ranges) => ranges.as_slice(),
        }
    }

    /// What is true of all sets: the source bytes ascend.
    pub fn form(&self)
        ensures { Ascends source_cmp self.now }
    {
        // what is known of the field is known from its first use on
        let _kept = &self.kept;
    }

    /// Whether it has no source byte.
    pub fn is_empty(&self) -> bool
        ensures { result ≡ (length self.now == 0) }
    {
        self.ranges().is_empty()
    }

    /// How many source bytes it has, or 2^64 - 1 where they are more.
    pub fn count(&self) -> u64
        ensures { result ≡ min (length self.now) (2 ^ 64 - 1) }
    {
        let mut count = 0u64;
        for range in self.ranges() {
            count = count.saturating_add(range.past.saturating_sub(range.from));
        }
        count
    }

    /// The first source byte; none where there is none.
    pub fn first(&self) -> Option<SourceByte>
        ensures { result ≡ slice_get self.now 0 }
    {
        let first = self.ranges().first()?;
        Some(first_byte(*first))
    }

    /// The source byte of a set of one.
    pub fn single(&self) -> Option<SourceByte>
        ensures { MatchOption result (length self.now ≡ 1 → ⊥) (λ byte. self.now ≡ byte ∷ []) }
    {
        match self.ranges() {
            [range] if range.past.saturating_sub(range.from) == 1 => Some(first_byte(*range)),
            _ => None,
        }
    }

    /// Whether both have the same source bytes.
    pub fn equals(&self, other: &SourceSet) -> bool
        ensures { IsTrue result ↔ (self.now ≡ other.now) }
    {
        self.ranges() == other.ranges()
    }

    /// Its source bytes one by one. It fails only where there is no memory.
    pub fn bytes(&self, alloc: Global) -> Result<Vec<SourceByte>, NoMemory>
        ensures { IfOk result (λ bytes. bytes.items ≡ self.now) }
    {
        let mut bytes = Vec::new(alloc);
        for range in self.ranges() {
            push_bytes(&mut bytes, *range)?;
        }
        Ok(bytes)
    }

    /// The same source bytes. It takes the room of its ranges, and none where there is one at most. It fails only where
    /// there is no memory.
    pub fn copied(&self, alloc: Global) -> Result<SourceSet, NoMemory>
        ensures { IfOk result (λ copy. copy ≡ self.now) }
    {
        let kept = match &self.kept {
            Kept::One(range) => Kept::One(*range),
            Kept::Many(ranges) => Kept::Many(copied(alloc, ranges.as_slice())?),
        };
        Ok(SourceSet { kept })
    }
}

/// The same ranges, in no more room than they need.
fn copied(alloc: Global, ranges: &[SourceRange]) -> Result<Vec<SourceRange>, NoMemory>
    ensures { IfOk result (λ copy. copy.items ≡ ranges.now) }
{
    let mut copy = Vec::with_capacity(alloc, ranges.len())?;
    copy.extend_from_slice(ranges)?;
    Ok(copy)
}

/// Appends the source bytes of a range.
fn push_bytes(bytes: &mut Vec<SourceByte>, range: SourceRange) -> Result<(), NoMemory>
    requires { IsRange range }
    ensures { OnOk result (bytes.new.items ≡ bytes.old.items ++ bytes_of range) }
{
    for offset in range.from..range.past {
        bytes.push(SourceByte {
            channel: range.channel,
            offset: offset as u32,
        })?;
    }
    Ok(())
}

/// The first source byte of a range.
fn first_byte(range: SourceRange) -> SourceByte
    requires { range.from < 2 ^ 32 }
    ensures { result ≡ byte_on range.channel range.from }
{
    SourceByte {
        channel: range.channel,
        offset: range.from as u32,
    }
}
