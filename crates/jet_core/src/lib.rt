//! The analyses of a run that is cut into epochs, under one roof: `query`, which the program makes; `round_robin`, by the
//! cores of the epochs, one for each, which have their events in turn on one thread; and `joined`, every epoch analysed at once
//! by `rayon`, and joined by one log.
//!
//! Crates above rest on this: each gives the rows of the run, for every cutting; `query` and `round_robin` also what is
//! asked at each inner cut and how many events moved, for every number of workers, link capacity and schedule; and
//! `round_robin` never waits, and returns whatever growths are refused.
#![tactic(auto)]

mod analysing;
mod collecting;
mod joints;
mod line;
mod rounds;
mod turning;
mod whole;

pub use run_query::Crossed;
pub use whole::{joined, query, round_robin};
