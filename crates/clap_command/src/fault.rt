//! Why words are refused.

use no_memory::Fault;
use thiserror::Error;

/// The command line doesn't take the words.
#[derive(Clone, Copy, Debug, Error)]
#[error("usage")]
pub struct Usage;

/// Why words were not read: they are not taken, or out of memory.
pub type WordsFault = Fault<Usage>;
