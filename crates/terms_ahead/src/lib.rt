//! Terms that are read ahead of their use: of a log's nodes whose terms are asked for one after another, those that are to be
//! expected next are read with the one that is asked for, by one walk.
//!
//! Crates above rest on this: `read_sink` and `read_end` give exactly the terms of the label that they are asked for,
//! whatever was read before of the same log.
#![tactic(auto)]

mod ahead;

pub use ahead::TermsAhead;
