//! One checkpoint.

use replayer::Rest;
use std::marker::Model;

/// Where a run stood: the numbers of its window's pages, and all else of its cursor's state.
#[derive(Drop)]
pub struct Checkpoint {
    pub(crate) numbers: Vec<u32>,
    pub(crate) rest: Rest,
}

impl Model for Checkpoint {
    ghost use Rattle.checkpoints.specs.Points.{CheckpointAt};

    ghost Value = { CheckpointAt };

    ghost view = { λ c. record { numbers = c.numbers.items; rest = c.rest } };
}
