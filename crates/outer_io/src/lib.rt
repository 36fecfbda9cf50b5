//! The outside of a program: files by name, a place to write to, a clock and a gate.
//!
//! A program that reaches the outside through the four traits [`Store`], [`Sink`], [`Clock`] and [`Gate`] can be proved
//! over what these tell, run over memory, and run on the machine.
//!
//! - **Told or not.** What an object of the outside holds is a ghost member that it may not tell. A
//!   clause over it says: where it is still told after the call, it was told before, and the two are
//!   so related. What isn't told before a call isn't told after it.
//! - **Faults.** A store and a sink have a count of faults, which never falls and stands still at its
//!   last value, 2^64 - 1. A call fails only where the count rose in that call, or stood there, and is well only where the
//!   count didn't rise.
//! - **What a form gives.** Each call of a store and a sink has a relation of its arguments, its answer and
//!   the object before and after it, by which a form in memory says all. The machine's say nothing by it.
//!
//! [`FileStore`], [`OutSink`] and [`MachineClock`] are the machine's. They are trusted, and tell nothing. Which files a
//! `FileStore` may replace is a function of what it knows of them (`may_replace`). The forms in memory are those of
//! `memory_outside`.
//!
//! A text that is made a piece at a time ([`InPieces`]) goes to any place that takes [`Pieces`]: to the end of a vector, or
//! by [`write_in_pieces`] through a [`Buffer`] to a sink, which takes no memory.
//!
//! Crates above rest on this: the traits' clauses, which hold of every form; `read_whole`, `write_whole`,
//! `write_in_pieces` and `write_file` take and put all bytes, or say why not, with their causes.
#![tactic(auto)]

mod buffer;
mod clock;
mod faults;
mod gate;
mod machine;
mod pieces;
mod replacing;
mod sink;
mod store;
mod whole;

pub use buffer::Buffer;
pub use clock::Clock;
pub use faults::Faults;
pub use gate::{Gate, OpenGate};
pub use machine::{FileStore, MachineClock, OutSink};
pub use pieces::{InPieces, Pieces, write_in_pieces};
pub use replacing::{FileKind, may_replace};
pub use sink::Sink;
pub use store::{Failed, Store};
pub use whole::{ReadWhole, Unread, WriteFault, read_whole, write_file, write_whole};
