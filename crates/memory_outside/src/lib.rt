//! The outside in memory, for tests and for laws: files, places to write to, a clock, and gates.
//!
//! [`MemoryStore`] and [`MemorySink`] fail at calls of chosen numbers; [`SureStore`] and [`SureSink`] never fail, and go on
//! taking past their room, but then tell no more. [`ListClock`] answers a list. They reserve their room when they are made,
//! so their calls take no memory. [`CountingGate`] counts who enters, and in a [`MeetingGate`] two epochs wait for each
//! other.
//!
//! Crates above rest on this: what each call answers, and the room left, by the relations of the traits; `laws`: a sure
//! store and output stay told while no call wants more than the room, and are never disturbed.
#![tactic(auto)]

mod calls;
mod clock;
mod file;
mod files;
mod gates;
pub mod laws;
mod names;
mod sink;
mod store;
mod sure_sink;
mod sure_store;

pub use clock::ListClock;
pub use file::MemoryFile;
pub use gates::{CountingGate, MeetingGate};
pub use sink::MemorySink;
pub use store::MemoryStore;
pub use sure_sink::SureSink;
pub use sure_store::SureStore;
