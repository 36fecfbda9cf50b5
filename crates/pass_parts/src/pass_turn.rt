//! What an event of a pass comes to.

/// What an event of a pass comes to.
#[derive(Clone, Copy, Debug, PartialEq, Eq)]
pub enum PassTurn {
    /// It happened.
    Moved,
    /// The link that it needs refused, and nothing happened.
    NotYet,
    /// The last End is sent.
    Over,
}
