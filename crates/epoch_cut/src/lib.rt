//! Where a run is cut into epochs, and one ticket for each epoch.
//!
//! Crates above rest on this: `cuts` gives a cutting of the run into epochs of one length, and `long_first_cuts` one whose first
//! epoch has several lengths, or TooMany exactly where there would be more than 4,096 lengths; `shrinking_cuts` one whose epochs get
//! shorter; `tickets` are the epochs of a cutting, in order, each once, and a ticket can't be copied.
#![tactic(auto)]

mod by_length;
mod cutting;
mod fault;
pub mod laws;
mod ticket;

pub use by_length::{MOST_EPOCHS, MOST_SHRINKING, cuts, long_first_cuts, shrinking_cuts};
pub use cutting::Cuts;
pub use fault::CutFault;
pub use ticket::EpochTicket;
