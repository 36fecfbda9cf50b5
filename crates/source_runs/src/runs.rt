//! A run of source bytes.

ghost use Rattle.std.specs.Prelude.{◌≡◌, ◌+◌, ◌&&◌, ◌||◌, ◌∷◌, [], nat_le, min, max, None, IfSome};
ghost use Rattle.lists.specs.Sets.{union};
ghost use Rattle.flow_model.specs.Orders.{source_cmp};
ghost use Rattle.source_runs.specs.Runs.{bytes_of, goes_on, AreApart};

use flow_model::SourceByte;

/// The source bytes of a channel from the offset `first` on, up to and with `last`: none where `last` is below `first`.
#[derive(Clone, Copy, Debug, PartialEq, Eq, PartialOrd, Ord)]
pub struct SourceRun {
    pub channel: u8,
    pub first: u32,
    pub last: u32,
}

impl SourceRun {
    /// The run of one byte.
    #[inline(always)]
    pub fn of_byte(byte: SourceByte) -> SourceRun
        ensures { bytes_of result ≡ byte ∷ [] }
    {
        SourceRun {
            channel: byte.channel,
            first: byte.offset,
            last: byte.offset,
        }
    }

    /// The run of the bytes of both, where they are of one channel, and overlap or touch.
    #[inline(always)]
    pub fn joined(self, other: SourceRun) -> Option<SourceRun>
        ensures joined { IfSome result (λ run. bytes_of run ≡ union source_cmp (bytes_of self) (bytes_of other)) }
        ensures none { result ≡ None → AreApart self other }
    {
        if self.touches(other) {
            Some(self.hull(other))
        } else {
            None
        }
    }

    /// Whether both are of one channel, and overlap or touch.
    #[inline(always)]
    pub(crate) fn touches(self, other: SourceRun) -> bool
        ensures { result ≡ (goes_on self other && (nat_le self.first other.first || nat_le self.first (other.last + 1))) }
    {
        self.channel == other.channel
            && other.first as u64 <= self.last as u64 + 1
            && (self.first <= other.first || self.first as u64 <= other.last as u64 + 1)
    }

    /// From where the first of both begins to where the last of them ends.
    #[inline(always)]
    pub(crate) fn hull(self, other: SourceRun) -> SourceRun
        ensures { result ≡ record { channel = self.channel; first = min self.first other.first; last = max self.last other.last } }
    {
        SourceRun {
            channel: self.channel,
            first: self.first.min(other.first),
            last: self.last.max(other.last),
        }
    }
}
