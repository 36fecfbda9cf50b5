//! What of a run is analysed.

use epoch_cut::Cuts;

/// What of a run is analysed for a query, and where it is cut into epochs.
#[derive(Drop)]
pub enum Part {
    /// All steps.
    Whole(Cuts),
    /// The first `steps` steps alone.
    Beginning { steps: u64, cuts: Cuts },
}
