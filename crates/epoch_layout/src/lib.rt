//! The nodes of a run, one for each epoch, joined by links: new ones, and what they come to once they are done.
//!
//! Crates above rest on this: `lay_out` gives a fresh node for each epoch of a run, in order, and two new links between
//! neighbours; `collect`, from done nodes alone that are led from those of one layout, gives the rows of the run, what
//! was asked at each inner cut, and the number of events that moved. `laws` say what a line of done nodes comes to,
//! whatever its links are.
#![tactic(auto)]

mod collecting;
mod ends;
pub mod laws;
mod layout;

pub use collecting::collect;
pub use layout::lay_out;
