//! The pass forwards: a node answers what the next node asked, and resolves the sinks of its epoch.
//!
//! Crates above rest on this: `Fore::event` is the event of the definitions (`answering_event` of `stream_model`) for
//! some links, over the ends of two links. It is NotYet only where the one link that it needs refused in this call, and
//! Over exactly where the End is sent. What was sent is a beginning of what is due, and all of it once the pass is over
//! and whole.
#![tactic(auto)]

mod fore;
mod inserting;
mod received;
mod rows;
mod sending;
mod state;

pub use state::Fore;
