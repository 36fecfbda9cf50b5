//! What a taint replay collects: the source bytes of each output byte and of each point inside the run; the report of
//! them, and the same turned round.
//!
//! Crates above rest on this: `gather` is the rows by output byte and point, `put_text` puts their text in pieces, and `text` is
//! the same whole; `put_rows` puts the lines of rows, `texts_at_once` are these lines as texts that several threads make at once, and
//! `rows_of_round` is how many rows take little memory there; `only` those that a query chooses, `add_chosen` the chosen source bytes
//! of a range; `turn_round` the rows turned round, by ranges of source bytes, `put_influence` and `influence_text` their text; `lines`
//! and `pairs` are counts of them.
#![tactic(auto)]

mod at_once;
mod choosing;
mod influence;
mod pieces;
mod places;
mod report;
mod sets;
mod streams;
mod writing;

pub use at_once::{rows_of_round, texts_at_once};
pub use choosing::add_chosen;
pub use influence::{Influence, RangeReach, turn_round};
pub use report::{Report, gather};
pub use sets::{SinkSet, SinkSets};
pub use writing::{influence_text, put_influence, put_numbered, put_rows, put_text, text};
