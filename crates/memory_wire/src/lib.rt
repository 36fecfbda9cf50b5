//! A wire in memory, for tests and for laws.
//!
//! A [`MemoryWire`] has the bytes that come over it, keeps those that go, and tells the whole history of both. Its calls of
//! chosen numbers fail. It reserves its room when it is made, so its calls take no memory.
//!
//! Crates above rest on this: what each call answers, and the wire after it, by the relations of the trait; what went, and
//! in which order the calls came.
#![tactic(auto)]

mod passing;
mod step;
mod wire;

pub use step::Step;
pub use wire::MemoryWire;
