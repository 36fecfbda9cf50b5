//! Labels that mean terms, and labels that mean source bytes alone.
//!
//! Crates above rest on this: `Nodes` are labels for whoever tracks an epoch: a label stands for source bytes and for start
//! locations (`node_words`). `SourceLabels` are labels for whoever tracks a whole run: the same labels, of which each stands
//! for its source bytes alone (`label_words`), since what was anywhere at the run's start came from none. Both make and unite
//! labels by what they mean, as the trait `Labels` says, and `read` reads that; `has_source` tells whether a label means any
//! source byte. A label that is a node stands for one of the nodes of a log.
#![tactic(auto)]

mod labels;
mod nodes;

pub use labels::SourceLabels;
pub use nodes::Nodes;
