//! Links between epochs: bounded queues whose two ends may lie in two threads.
//!
//! Crates above rest on this: what was got is a beginning of what was sent. `ListLink`, on one thread, is Full and
//! Empty exactly where its list is full or empty. Of a `ring`, Full and Empty come only by what this call's one look
//! saw; `close` gives what is left: what was sent is what was got and then that. `laws`: by the ring's rule each
//! message is delivered, and just one seat has each part.
#![tactic(auto)]

mod capacity;
pub mod laws;
mod link;
mod list_link;
mod ring_link;

pub use capacity::{Capacity, MOST_ITEMS};
pub use link::{Inlet, Outlet, Popped, Pushed};
pub use list_link::ListLink;
pub use ring_link::{Consumer, Left, Producer, close, ring};
