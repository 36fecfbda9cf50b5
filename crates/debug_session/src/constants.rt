//! Packets that are always the same.

/// What is asked isn't there, or can't be done.
pub(crate) const ERROR: &[u8] = b"E01";
