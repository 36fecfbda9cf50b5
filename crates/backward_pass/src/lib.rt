//! The pass backwards: an epoch's node asks the previous node for what its epoch needs.
//!
//! Crates above rest on this: `Back::event` is the event of the definitions (`asking_event` of `stream_model`) for some
//! links. It is NotYet only where the one link that it needs refused in this call, and Over exactly where the End is
//! sent. What was sent is a beginning of what is due, and all of it once the pass is over and whole. A node of the
//! epoch's log is walked once: all start locations under it are asked then.
#![tactic(auto)]

mod asking;
mod back;
mod node_needs;

pub use back::Back;
