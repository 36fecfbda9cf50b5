//! What the nodes of a run come to.

use epoch_summary::Asked;
use sink_collect::SinkSets;

/// What the nodes of a run come to.
#[derive(Drop)]
pub struct Collected {
    /// The rows of the run, in its order.
    pub sets: SinkSets,
    /// What was asked at each inner cut, from the first to the last.
    pub crossed: Vec<Asked>,
    /// How many events of the nodes moved, or 2^64 - 1 where they are more.
    pub events: u64,
}
