//! What tests ask of the machine, and what many of them compare.

use std::fmt::Debug;
use std::process::Abort;

/// To abort, and to allocate.
pub trait Runtime: AllocGlobal + Abort {}

impl<R: AllocGlobal + Abort> Runtime for R {}

/// What was found is what is wanted.
pub fn assert_same<T: PartialEq + Debug + Copy>(rt: &impl Abort, found: T, want: T) {
    assert_eq!(rt; found, want);
}
