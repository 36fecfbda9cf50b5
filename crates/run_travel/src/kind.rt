//! Kinds of watchpoints.

/// Which accesses a watchpoint looks for.
#[derive(Clone, Copy, PartialEq, Eq)]
pub enum WatchKind {
    Writes,
    Reads,
    /// Writes and reads.
    Both,
}
