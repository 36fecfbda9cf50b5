//! A file in memory.

/// A file in memory.
#[derive(Drop)]
pub struct MemoryFile {
    /// Its name.
    pub name: String,
    /// Its content.
    pub bytes: Vec<u8>,
}
