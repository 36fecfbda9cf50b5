//! A wire: bytes come and go over one object, such as the standard input and output together.
//!
//! What a [`Wire`] tells is one history of what came and what went, so a contract can say in which order: that each
//! answer was sent whole before more was asked for. It is a trait in the style of `outer_io`'s: it tells or not, its
//! faults are counted, and a form in memory says all by a relation.
//!
//! [`MachineWire`] is the machine's. It is trusted, and tells nothing. The form in memory is that of `memory_wire`.
//!
//! Crates above rest on this: the trait's clauses, which hold of every form; `send_whole` sends all bytes, or says why
//! not, with its cause; `talk` answers over a wire what comes over it, as an [`Answerer`] does, each answer whole before
//! more is asked for.
#![tactic(auto)]

mod answerer;
mod broken;
mod machine;
mod talking;
mod whole;
mod wire;

pub use answerer::Answerer;
pub use broken::Broken;
pub use machine::MachineWire;
pub use talking::talk;
pub use whole::send_whole;
pub use wire::Wire;
