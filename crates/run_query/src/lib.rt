//! A query over a run that is cut into epochs: of one epoch its rows alone; of several what an engine collects from their
//! checkpoints; and the report. It works on the part of the run that is analysed, and on what is found of it while the log is
//! checked; it tells what crosses the cuts beside the rows.
//!
//! Crates above rest on this: `query` gives the rows of the run, what crosses each inner cut, and how many events moved.
//! `check_and_query` is `replayer::Job::check`, and gives the rows of the run too, of which it analyses all or the first
//! steps alone, where they are enough. Of the whole run it finds what it needs in the replay that checks the log: its sinks
//! (`seq_taint::check_whole`), the checkpoints at its cuts (`check_parts`), or its rows, by an engine that analyses its epochs
//! meanwhile. `number` gives what was asked at the cuts their numbers.
#![tactic(auto)]

mod answer;
mod beginning;
mod checked;
mod checking;
mod crossed;
mod part;
mod whole;

pub use answer::{QueryAnswer, answer_with};
pub use checked::check_and_query;
pub use checking::check_parts;
pub use crossed::{Crossed, number};
pub use part::Part;
pub use whole::query;
