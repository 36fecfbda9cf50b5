//! What passed at one call.

/// How many bytes passed over a wire at one call, and which way.
#[derive(Clone, Copy, Debug, PartialEq)]
pub enum Step {
    /// So many bytes came; 0 where the wire was found at its end.
    Received(usize),
    /// So many bytes went, at least 1.
    Sent(usize),
}
