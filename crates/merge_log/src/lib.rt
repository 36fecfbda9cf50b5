//! A log of leaves and of their unions in which equal nodes are one: whatever a location's content came from is one
//! number.
//!
//! Crates above rest on this: `leaf_source`, `leaf_symbol` and `union` give the one node of what they ask for, keep
//! every node and its leaves, and when refused change nothing; `terms` and `TermsReader::read` give exactly the leaves
//! under a node, each once, and `ManyTerms::read` those of up to 64 nodes; a reader gives source bytes as runs. With
//! `absorbing_union`, by which the analysis unites, a union with one of its operands is that union itself, and so it is
//! with a start location that is noted as under it.
//! specs/Log.antt says which leaves are under a node.
#![tactic(auto)]

mod finding;
mod many;
mod masks;
mod nodes;
mod reader;
mod recent;
mod spread;
mod under;
mod walk;

pub use finding::ascend;
pub use many::{MOST_ROOTS, ManyTerms};
pub use nodes::{Entry, MergeLog, Node};
pub use reader::{Leaf, TermsReader};
