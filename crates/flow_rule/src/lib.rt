//! Which locations' content flows where in one step of a run: the flow table of RV32IM and of the guest calls.
//!
//! Crates above rest on this: `shape_of`, `flow` and `cleared` are the flow table of `flow_model`; so are the short
//! lists of locations of a `Flow`.
#![tactic(auto)]

mod flows;
mod locations;
mod shape;
mod shuffle;
mod table;

pub use flow_model::{InnerSink, Loc, Rule, SinkByte, SinkPoint, SourceByte};
pub use flows::Flow;
pub use locations::Locations;
pub use shape::{Mixing, Shape, counted_base, fills_above, shape_of};
pub use shuffle::Shuffle;
pub use table::{cleared, flow};
