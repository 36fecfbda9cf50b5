//! The decisions of a job's run that come from the source bytes that a query chooses, counted at each place, and their text.
//!
//! What there is to read stands in specs/: the locations on which it hangs what a run does next (Decides.antt), those of them
//! that come from chosen source bytes (Decisions.antt), and the text that lists them by place (Places.antt, Text.antt). A
//! decision is a location that a moment of a run looks at before it goes on, with the source bytes that it came from. What the
//! text tells of the decisions is proved (`laws`).
//!
//! Crates above rest on this: `decisions` is `decisions_report` of the definitions, a function of the state that the run
//! begins in, its log and the query. It goes through the run once, with a label for each location, and keeps an entry for
//! each place that has such a decision. `check_and_decide` is `replayer::Job::check`, and gives the same of the run that it checks,
//! in the same replay. `decisions_of` is the table of `decides` as code, over the 48 instructions and the five
//! kinds of guest call, without a list in memory: its locations ascend, and are at most sixteen.
#![tactic(auto)]

mod deciding;
mod finding;
mod groups;
pub mod laws;
mod looks;
mod rule;
mod tracking;
mod watching;
mod writing;

pub use finding::{check_and_decide, decisions};
use flow_model::Loc;

/// Where decisions are counted together: the address of an instruction, and a location that it looks at. The order is by
/// address and then location.
#[derive(Clone, Copy, PartialEq, Eq, PartialOrd, Ord)]
pub struct Place {
    pub pc: u32,
    pub loc: Loc,
}
