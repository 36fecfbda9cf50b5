//! The commands: what each gives, over any store, output and clock, and by any engine that analyses epochs.
//!
//! Crates above rest on this: `obey` does what words stand for, and ends with its text delivered whole, or with a refusal
//! that has its cause; `mark_for` gives what a file begins with that the command of the words may replace.
//!
//! What there is to read stands in specs/: Plans.antt has for each command what it reads, what its files come to, and where
//! that goes; Answers.antt the texts; Ending.antt how a command ends, and Obeying.antt all that is said of it. What the
//! outcome of calls that read files says of the files is told by specs/Outcome.antt of `command_parts`. What is told of a
//! query's rows, and what is made of a run without a query, has a row in `given_by` or `made_by` of Answers.antt and in
//! src/tellings.rt. A command of another kind has a row in `plan_of` and in src/answer.rt, which says what it opens, what it
//! tells, and where that goes.
#![tactic(auto)]

mod analysis;
mod answer;
mod bench;
mod command;
mod delivery;
mod inputs;
mod mark;
mod parts;
mod path;
mod pieces;
mod queries;
mod recorded;
mod reports;
mod resources;
mod tellings;

pub use command::obey;
pub use mark::mark_for;
