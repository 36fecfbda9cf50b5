//! What is told of a run without a query, as texts: its numbers, what it wrote and read, its calls, and its stack at a time.
//!
//! Crates above rest on this: `summary_text` is the five lines of a run's numbers; `output_on` is the bytes that a log's
//! writes wrote on a channel, and `input_on` those that its reads read on it; `calls_text` has a line for each call, one for
//! the end, and the number of those lines. All these are functions of the log alone. `stack_text` is the calls in progress at a
//! time: the pc, the address of each call's JAL or JALR, the innermost first, and the number of those lines, a function of
//! the state that the run begins in, its log and the time; `stacks_text` is that of many times, by one pass over the run;
//! `hint_of` says which instructions call and which return.
//!
//! Proved (`laws`): on each channel the pieces that the lines of reads tell are, one after another, the bytes that the run
//! read, those of writes the bytes that it wrote, and each piece's offset is the length of those before it; of the stacks of
//! several times each part is the text that its time has alone.
#![tactic(auto)]

mod counts;
mod hints;
pub mod laws;
mod progress;
mod stack;
mod stacks;
mod summary;
mod walk;
mod ways;
mod writing;

pub use hints::{Hint, hint_of};
pub use stack::stack_text;
pub use stacks::stacks_text;
pub use summary::{push_number, summary_text};
pub use ways::{Way, input_on, output_on};
pub use writing::calls_text;
