//! The summaries of a run's epochs, joined in one log of source labels to the labelled sinks of the run, without messages.
//!
//! Crates above rest on this: `join` gives the sinks of a run, in its order, of the summaries of all its epochs, and
//! they come to the rows of the run. `join_after` gives them of the summaries of all epochs but the first, and of what is
//! known of that (`FirstEpoch`): before it there was nothing, so its labels are source bytes from the beginning, and the
//! one log goes on from its log.
//! Backward, each epoch is looked through once for the start locations that its sinks, and what the next epoch asks
//! for, come from: so what is asked at a cut is exactly what is needed there, each location once (`laws`). Forward,
//! each node that they come from gets a label in one log, once: source bytes are themselves, a start location is the
//! label that it has at the cut, and a union is a union.
#![tactic(auto)]

mod cut;
mod epoch;
mod first;
mod joining;
pub mod laws;
mod needs;
mod nodes;
mod piece;

pub use first::FirstEpoch;
pub use joining::{join, join_after};
