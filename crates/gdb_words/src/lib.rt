//! The words of the program `jet-gdb`, read with `clap` as one simple command.
//!
//! The command line is a definition, `gdb_app` of specs/Requests.antt, and so is what words stand for, `request_of`.
//! proofs/Examples.antt has worked examples, which the checker computes.
//!
//! Crates above rest on this: `read_words` is what the words stand for, with its time in its range, or Usage where
//! `clap` doesn't take them for `gdb_app`.
#![tactic(auto)]

mod command_line;
mod read;
mod request;

pub use clap_command::{Usage, WordsFault};
pub use read::read_words;
pub use request::Request;
