//! The analyses of a run's epochs, each by itself, by several workers.
//!
//! Crates above rest on this: `analyse_all` gives the summaries of all epochs of a run that is cut, in order, for every number
//! of workers and however their steps fall. Each epoch enters the gate as its analysis begins. `found` is the analysis of one.
#![tactic(auto)]

mod analysis;
mod working;

pub use analysis::{Analysis, found};
pub use working::analyse_all;
