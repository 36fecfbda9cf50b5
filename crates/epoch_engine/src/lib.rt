//! Who analyses the epochs of a run: what is asked of an engine, and what it collects.
//!
//! Crates above rest on this: an [`Engine`] that is ready gives the rows of a run that is cut; and also what is asked at its
//! inner cuts, and how many events moved; and the texts of rows. It may hold a runtime, start threads and wait; whoever asks it
//! names none of these. A [`ClosureEngine`] is an engine that is made of four closures, and ready where these give what is asked.
//! `put_text_at_once` puts the text of a report, whose lines an engine makes by several workers at once.
#![tactic(auto)]

mod collected;
mod engine;
mod parallelism;
mod putting;

pub use collected::Collected;
pub use engine::{ClosureEngine, Engine};
pub use parallelism::{Joining, Parallelism};
pub use putting::put_text_at_once;
