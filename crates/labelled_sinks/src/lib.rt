//! The sinks of a run, each with a label of source bytes in one log, and the rows that they come to.
//!
//! Crates above rest on this: `LabelledSinks` are sinks whose labels stand, seen as their rows. `rows` makes these one after
//! another, and `rows_at_once` by several threads, each of a part of the sinks: the rows are the same, in the order of the sinks.
#![tactic(auto)]

mod at_once;
mod sinks;

pub use sinks::LabelledSinks;
