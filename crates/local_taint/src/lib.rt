//! One epoch by itself: what the content of each location came from, where the content at the epoch's start is unknown.
//!
//! Crates above rest on this: `analyse` and `analyse_from`, over any cursor at an epoch's first step, give the summary
//! of the epoch (`epoch_summary`): for each location at its end, and each of its chosen output bytes and points, the source
//! bytes read in it and the start locations that it came from. `analyse_ahead` and `analyse_last` give it while the epoch is
//! checked, for each job whose run stands where the epoch begins.
#![tactic(auto)]

mod ahead;
mod analysis;

pub use ahead::{analyse_ahead, analyse_last};
pub use analysis::{analyse, analyse_from};
