//! The beginning of a run: the first of its steps, as a run of their own; and how many of them the rows of a query need.
//!
//! Crates above rest on this: `cut_off` gives the job of the first steps of a job's run, and the tail of its log, with which
//! `put_back` makes the job again; `needed_steps` is `needed_by_log` of the definitions here, as the log tells it before any
//! replay. Proved (`laws`): where nothing differs between a run and its log, nothing differs between the run and a beginning
//! of the log, its steps are the first of the run, and where these are as many as a query needs, it has the rows of the whole;
//! where the log fits its program, `needed_by_log` is `needed_steps` of `report_model` over the run.
#![tactic(auto)]

mod calls;
mod jobs;
pub mod laws;
mod need;
mod parts;
mod tail;

pub use jobs::{cut_off, put_back};
pub use need::needed_steps;
pub use tail::Tail;
