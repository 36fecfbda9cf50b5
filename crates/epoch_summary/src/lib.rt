//! The summary of an epoch whose start is unknown: the terms of each location at its end and of each of its sinks, by
//! labels of its own; and the locations that it asks the epoch before it for.
//!
//! Crates above rest on this: `Summary::new` is the summary that labels of locations and of sinks make. `Summary::end_terms`,
//! `sink` and `sink_terms` read it, and so do `end_terms_ahead` and `sink_terms_ahead`, which read the terms of many by
//! one walk and hold them in a `TermsAhead`. Where `shares_terms` answers yes, a sink has the terms of the one before it,
//! and where `share_end_terms` does, two locations have the same terms.
#![tactic(auto)]

mod asked;
mod place_table;
mod summary;

pub use asked::Asked;
pub use source_labels::Nodes;
pub use summary::Summary;
pub use terms_ahead::TermsAhead;
