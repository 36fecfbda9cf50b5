//! The answers to what an epoch asked, and what they make of the epoch's terms: sets of source bytes, and rows.
//!
//! Crates above rest on this: `Answers` are the answers so far, in the order of asking, of which equal large ones are
//! kept once; `resolved` is the set of terms whose start locations are all answered, their source bytes together with
//! those answers; `rows` are the rows of an epoch, and `rows_of_sinks` those of any sinks that have labels.
#![tactic(auto)]

mod answers;
mod resolving;
mod sink_rows;

pub use answers::Answers;
pub use resolving::resolved;
pub use sink_rows::{rows, rows_of_sinks};
