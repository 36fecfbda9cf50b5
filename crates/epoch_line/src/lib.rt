//! The epochs of a run, analysed in threads and joined: what an engine of `epoch_engine` does.
//!
//! Crates above rest on this: `rows` gives the rows of a run that is cut, for every number of workers, capacity and schedule,
//! whether its epochs are joined by links or by one log. `work` gives also what was asked at each inner cut, and the number
//! of events that moved: it lays the run's nodes out, one for each epoch, joined by links, gives them their turns, and
//! collects what they come to. The nodes are laid out and collected by `epoch_layout`, and `epoch_turns` gives them their
//! turns. `epoch_analysis` and `checked_epochs` have the analyses without nodes, and `summary_join` joins what they found in one log.
#![tactic(auto)]

mod working;

pub use working::{checked_rows, rows, work};
