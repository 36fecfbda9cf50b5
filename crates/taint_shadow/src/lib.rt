//! The shadow of registers and memory: what each location is labelled with, and how one step of a run turns the labels.
//!
//! A label is one word, and a location that no step touched has one too. `Labels` says what they mean, and makes them.
//!
//! Crates above rest on this: `step`, and where the step is no call `plain_step`, `load_step` and `store_step`: whatever the locations' labels meant before
//! a step, they mean what the flow table makes of it after, for whatever labels mean.
#![tactic(auto)]

mod labels;
mod lanes;
mod marks;
mod memory;
mod mixing;
mod places;
mod shapes;
mod steps;

pub use labels::{Label, LabelKind, Labels, SinkLabel};
pub use places::Places;
pub use steps::{load_step, plain_step, step, store_step};
