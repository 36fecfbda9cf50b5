//! Packets of the GDB Remote Serial Protocol: what each asks, by its bytes, as far as a debugger of a recorded run asks
//! (GDB manual, appendix E "Remote Protocol").
//!
//! Numbers in packets are one to eight hexadecimal digits, in either case. A packet that begins as one that is known,
//! and has not its form, is every other packet, as is one that isn't known.
//!
//! Crates above rest on this: `parse` gives `packet_of` of the definitions (specs/Packets.antt) for all bytes, and
//! takes no memory; `command` gives the bytes of a command in words.
#![tactic(auto)]

mod commands;
mod number;
mod operands;
mod packet;
mod parser;
mod text;

pub use commands::command;
pub use packet::{Move, Packet, Point, WatchKind};
pub use parser::parse;
