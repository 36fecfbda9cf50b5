//! What the commands share with other programs over recorded runs: files are read whole, programs and logs opened, and a
//! refusal is said.
//!
//! Crates above rest on this: `open_run`, `open_program`, `open_log` and `read_file` give what files hold, or a refusal
//! that has its cause; `conclude` gives the status of what came of a command, and says its line. proofs/Composing.antt
//! has the outcomes of calls made one after another, proofs/Fitting.antt why a log doesn't fit its program, and
//! proofs/Statuses.antt refusals by their status.
#![tactic(auto)]

mod ending;
mod opening;
mod reading;

pub use ending::conclude;
pub use opening::{Run, open_log, open_program, open_run};
pub use reading::{LONGEST_FILE, read_file};
