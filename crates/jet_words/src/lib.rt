//! The words of the program, read with `clap` as one simple command.
//!
//! The command line is a definition, `jet_app` of specs/CommandLine.antt; the command that words stand for is
//! `command_of` of specs/Commands.antt. proofs/Examples.antt has worked examples, which the checker computes.
//!
//! A new subcommand has its arguments in specs/CommandLine.antt and src/subcommands.rt, what it stands for in
//! specs/Commands.antt and src/read.rt (one row, where it tells of a query's rows or makes something of a run), and its line
//! in proofs/Ranges.antt.
//!
//! Crates above rest on this: `read_words` is what the words stand for, in its ranges, or Usage where `clap` doesn't
//! take them for `jet_app`.
#![tactic(auto)]

mod command;
mod command_line;
pub mod laws;
mod read;
mod subcommands;

pub use clap_command::{Usage, WordsFault};
pub use command::{Command, Listing, Pipeline, Product};
pub use read::read_words;
