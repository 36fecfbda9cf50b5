//! The public call: all that the program `jet` does, over any store, outputs, clock and gate. The contract is that of
//! [`jet`]; what each status says is told by the definitions of specs/Statuses.antt, which that contract cites.
//!
//! The commands are those of `jet_commands`. Their epochs are analysed, and joined by links or by one log, by `epoch_line`.
#![tactic(auto)]

mod run;

pub use run::jet;
