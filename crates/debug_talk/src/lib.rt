//! A debugger's session over a wire: frames are read from the bytes that come, and each packet is answered before more
//! is asked for.
//!
//! Crates above rest on this: what `debug` makes pass over a wire is a talk in which `dialogue` of `debug_model` is said;
//! it is over at a packet that ends the session, or where the wire is found at its end.
#![tactic(auto)]

mod debug;
mod listener;

pub use debug::debug_over;
