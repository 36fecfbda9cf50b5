//! Why a command gives up: the status that it ends with, and the line that it prints on standard error. Nothing here
//! takes memory or can fail.
//!
//! Crates above rest on this: `Refusal::status` and `Refusal::line` are the one table of statuses and lines
//! (specs/Refusals.antt), which every definition above names; `rule_name` is the name of a rule, as queries have it.
#![tactic(auto)]

mod faults;
mod line;
mod names;
mod refusal;

pub use line::Line;
pub use names::rule_name;
pub use refusal::Refusal;
