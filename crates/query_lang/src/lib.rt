//! The query language: which source bytes taint, which sink bytes and points inside the run are reported, and the rule
//! by which taint propagates.
//!
//! Crates above rest on this: `parse` gives a query that the text stands for, by `report_model`'s definitions, or the
//! number of the first faulty line and the first of its faults; `source_has`, `sink_has` and `points` are what the
//! query chooses, and what `only_source` and `only_sink` give is all that it chooses; `together` makes several queries one,
//! or tells where their rules differ.
#![tactic(auto)]

mod choice;
mod chosen;
mod draft;
mod fault;
mod lines;
mod number;
mod parser;
mod points;
mod query;
mod several;
mod statement;
mod words;

pub use fault::{QueryFault, TogetherFault};
pub use parser::parse;
pub use query::Query;
pub use report_model::{FaultInQuery, OtherRule, QueryKind};
pub use several::together;
