//! The tracking of an epoch: what each location is labelled with after each of its steps, and the epoch's output bytes and
//! points, each with the label of its location at its time. Whatever labels mean.
//!
//! Crates above rest on this: `Watching` is begun before an epoch's first step and is told of each step, of plain ones in a row as a
//! follower of the machine's loop, and of those of a whole run while its log is checked. What its labels mean is said of a course
//! of meanings, which begins with what untouched locations mean and takes the turns of the flow table: each location means what
//! the course gives there, and each sink what the course gives for its location at its time.
#![tactic(auto)]

mod points;
mod sinks;
mod tracking;
mod watching;

pub use tracking::Tracked;
pub use watching::Watching;
