//! A log that is checked while the epochs of its run are analysed: the check goes ahead of the analyses.
//!
//! Crates above rest on this: `check_and_analyse` gives the job of a log that fits, what is found of the first epoch of its run, and
//! the summaries of the later ones, in order, however the steps of its threads fall; else the first misfit, as `Job::check` does.
//! Nothing came from before the first epoch: so its locations and sinks are labelled with source bytes, and only those of the later
//! ones with what their epoch starts with. Where the check comes to the beginning of an epoch, a thread of its own analyses the
//! epoch from a copy of the state that the check has there, while the check goes on to the next one. The run's last epoch is checked
//! and analysed in one. So there are as many threads as epochs, and no state comes from anywhere but the check.
#![tactic(auto)]

mod ahead;
mod analysing;
mod first;
mod rest;
mod working;

pub use working::check_and_analyse;
