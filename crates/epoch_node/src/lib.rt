//! The node of an epoch: a core, which goes through the passes of its epoch event by event, and its ends of the links
//! to the previous node and the next one.
//!
//! Crates above rest on this: `Core::event` is the definition's event of a node (`node_event` of `stream_model`), and
//! counts those that move; `Node` is a task of `run_board`, led from its start by events of its core and nothing else,
//! which is Moved only where one happened, and one that broke stays so; `Node::finish`, which makes rows that are
//! still due and may answer out of memory: one that is whole and done has asked what its epoch needs, sent all that is
//! due, has the rows of its sinks, and as many events moved as that takes.
#![tactic(auto)]

mod beginning;
mod ends;
pub mod laws;
mod node;
mod node_core;
mod settling;
mod stage;

pub use ends::Ends;
pub use node::{Finished, MOST_EVENTS, Node};
pub use node_core::{Broken, Core};
pub use outer_io::{Gate, OpenGate};
pub use stage::Phase;
