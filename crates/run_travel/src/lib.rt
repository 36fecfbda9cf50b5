//! A place in a recorded run that a debugger moves: to a time, on to the next stop, and back to the last one.
//!
//! What there is to read stands in specs/: the bytes that a step reads and writes (Accesses.antt), breakpoints and
//! watchpoints, and which steps meet them (Stops.antt), where a move stops and why (Moves.antt). Proved (`laws`): a
//! watchpoint looks at what a step accesses exactly where some byte is of both; between the ends of a move there is
//! no stop, forward and back; a move by one step makes one; and a move on from a breakpoint is taken back by a move
//! back.
//!
//! Crates above rest on this: `Travel` stands at a time of its job's run, as a `replayer::Cursor` there; `go_to`,
//! `go_on`, `step_back` and `go_back` move it as the definitions say, tell why they stopped, and leave it as it was
//! where memory runs out; `Points` are set and cleared as the definitions say.
//!
//! Going back starts at the last checkpoint before, so it makes the steps of the epochs that are searched, once, and
//! those of the one in which it stops once more.
#![tactic(auto)]

mod access;
mod aim;
mod cause;
mod earlier;
mod kind;
pub mod laws;
mod looking;
mod points;
mod search;
mod travel;
mod watch;

pub use aim::Aim;
pub use cause::Cause;
pub use kind::WatchKind;
pub use points::Points;
pub use travel::Travel;
pub use watch::Watch;
