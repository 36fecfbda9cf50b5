//! Lists, and what the definitions say by them.
//!
//! - Sets as ascending lists without repeats, generic over the element type and its order (specs/Sets.antt): a set with
//!   one more, a union, the set of a list, membership, and that a list ascends.
//! - The numbers at a place of some bytes, which the definitions of file formats share (specs/Fields.antt).
//! - The first fault that a table of tests finds (specs/FirstTrue.antt).
//!
//! Crates above rest on this: `merged` is the union of two sets, `is_subset` and `contains` are the tests. `laws`:
//! unions, insertions and the set of a list ascend; what their members are; two ascending lists with the same members
//! are equal; a union commutes and associates.
//!
//! Crates above may cite the lemmas of proofs/: on sets in Algebra.antt and Sorting.antt, on tables of tests in
//! FirstTrue.antt, and what several crates need of lists, tests and numbers in Lists.antt, Tests.antt and Numbers.antt.
#![tactic(auto)]

pub mod laws;
mod sets;

pub use sets::{contains, is_subset, merged};
