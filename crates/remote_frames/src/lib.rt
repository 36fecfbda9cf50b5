//! Frames of the GDB Remote Serial Protocol: how packets stand among bytes, and how they are read from them (GDB manual,
//! appendix E "Remote Protocol", "Overview").
//!
//! A frame is `$`, a packet, `#`, and two hexadecimal digits in either case, which are the sum of the packet's bytes
//! modulo 256. A `$` anywhere behind the first begins anew, and what it breaks off says nothing. A packet has at most
//! 16384 bytes, and nothing in it is escaped or abbreviated: its bytes stand for themselves.
//!
//! Crates above rest on this: `push_frame` appends `frame` of the definitions (specs/Frames.antt); what a `Framer`
//! tells of bytes, one after another, is `heard` of them, in whatever pieces they come. Proved (`laws`): a packet in
//! its frame is heard, whatever bytes came before it; the frames of packets are heard as these packets; what a
//! beginning says is the beginning of what all says.
#![tactic(auto)]

mod digit;
mod frame;
mod framer;
pub mod laws;

pub use frame::push_frame;
pub use framer::{Framed, Framer, LONGEST_PACKET};
