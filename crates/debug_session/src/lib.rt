//! A session of a debugger over a recorded run: what it answers to each packet, and where it stands then, as
//! `debug_model` defines them.
//!
//! Crates above rest on this: a `Session` is seen as its job and where it stands (`SessionOf` of specs/Sessions.antt).
//! It begins as `begun_at` of the definitions says. For what a framer tells of the bytes that are read, `Session::hear`
//! appends the bytes that are written (`told_all`), stands then where the definitions say (`next_all`), and answers
//! whether the session is over. Out of memory is the only other answer, and then the session is of no more use.
#![tactic(auto)]

mod command;
mod command_text;
mod constants;
mod hexadecimal;
mod memory;
mod moved;
mod moves;
mod number;
mod packets;
mod part;
mod points;
mod registers;
mod session;
mod slices;
mod stop;

pub use session::Session;
