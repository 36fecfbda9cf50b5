//! Ranges of source bytes: a set of them as intervals of offsets, by channel.
//!
//! The definitions stand in specs/Ranges.antt: the bytes of a range, the ranges of a list of bytes, each as long as
//! can be, and a range's name.
//!
//! Crates above rest on this: `ranges_of` is the ranges, `split_first_range` the first of them and the bytes that are
//! left, which takes no memory, `push_range` appends a range's name; a `SourceSet` is a set that is kept as its ranges,
//! and `SourceSet::of_runs` makes one of runs with no list of their bytes.
//! Proved (`laws`): the bytes of the ranges are, in order, the bytes that they are of; no range is empty, and none
//! begins where the one before it ends; and these ranges alone are so.
#![tactic(auto)]

mod joined;
pub mod laws;
mod ranges;
mod runs;
mod set;
mod writing;

pub use joined::JoinedRanges;
pub use ranges::{ranges_of, split_first_range};
pub use set::SourceSet;
pub use writing::{push_range, push_span};

/// The source bytes of a channel from the offset `from` on, up to `past`, which isn't one of them. `past` is at most
/// 2^32 where the range is one of source bytes.
#[derive(Clone, Copy, PartialEq, Eq)]
pub struct SourceRange {
    pub channel: u8,
    pub from: u64,
    pub past: u64,
}
