//! By how many workers epochs are analysed, and how what they found is joined.

ghost use Rattle.std.specs.Prelude.{◌≤◌};

use epoch_link::Capacity;

/// How what the epochs of a run come to is joined to its rows.
#[derive(Clone, Copy)]
pub enum Joining {
    /// Neighbours ask and answer each other by links, which all workers drive.
    ByLinks,
    /// One worker joins what all of them found, in one log.
    ByOneLog,
}

/// How many workers analyse the epochs of a run, 1 to 64, how what they found is joined, and how many messages a link between
/// two epochs holds at most.
#[derive(Clone, Copy)]
pub struct Parallelism {
    pub workers: u32,
    pub joining: Joining,
    pub link: Capacity,
    pub ghost in_range: { (1 ≤ workers) × (workers ≤ 64) },
}
