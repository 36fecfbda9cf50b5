//! What both passes of a node share: the answer of an event, messages through links that may be missing, the requests
//! that one pass hands to the other, and what both know of the epoch.
//!
//! Crates above rest on this: `push_message` and `pop_message` are one message through a link, or nothing where there
//! is none; `read_end_terms` are the terms of the epoch's summary at any location.
#![tactic(auto)]

mod end_terms;
mod ends;
pub mod laws;
mod next;
mod pass_summary;
mod pass_turn;
mod requests;

pub use end_terms::{is_location, read_end_terms, share_end_terms};
pub use ends::{pop_message, push_message};
pub use next::PassStep;
pub use pass_summary::PassSummary;
pub use pass_turn::PassTurn;
pub use requests::{Request, Requests};
