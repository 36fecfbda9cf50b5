//! Why a run isn't cut.

use thiserror::Error;

/// Why a run isn't cut by a length.
#[derive(Debug, Drop, Error)]
pub enum CutFault {
    /// There would be so many epochs, which are more than [`crate::MOST_EPOCHS`].
    #[error("{0} epochs are more than 4096")]
    TooMany(u64),
}
