//! Places of source bytes: where each stands among the bytes of all channels.

ghost use Rattle.std.specs.Prelude.{◌≡◌, ◌≤◌, ◌<◌, ◌^◌, ℕ, length, slice_index};
ghost use Rattle.std.specs.List.Sorted.{IsNonDecreasing};
ghost use Rattle.sink_collect.specs.Places.{place_on};

/// A channel has so many places, one for each offset.
const OFFSETS: u64 = 1 << 32;

/// The place of the byte of a channel at an offset; at an offset of 2^32 the first place after the channel.
pub(crate) fn place_of(channel: u8, offset: u64) -> u64
    requires { offset ≤ 2 ^ 32 }
    ensures { result ≡ place_on channel offset }
{
    u64::from(channel) * OFFSETS + offset
}

/// How many of the places come before one.
pub(crate) fn count_before(places: &[u64], place: u64) -> usize
    requires { IsNonDecreasing places.now }
    ensures bound { result ≤ length places.now }
    ensures before { (k : ℕ) → k < result → slice_index places.now k < place }
    ensures after { (k : ℕ) → result ≤ k → k < length places.now → place ≤ slice_index places.now k }
{
    places.partition_point(|other| *other < place)
}
