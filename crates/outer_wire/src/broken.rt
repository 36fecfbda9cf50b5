//! What broke off a talk.

use thiserror::Error;

/// What broke off a talk.
#[derive(Clone, Copy, Debug, Error)]
pub enum Broken {
    /// No bytes could be received.
    #[error("no bytes could be received")]
    Receiving,
    /// What was said could not be sent whole.
    #[error("what was said could not be sent whole")]
    Sending,
}
