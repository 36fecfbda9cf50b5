//! The cuts of a run.

ghost use Rattle.std.specs.Prelude.{◌≡◌, ◌≤◌, Some, ◌∷◌, length, slice_get, IfOk};
ghost use Rattle.epoch_model.specs.Cutting.{epochs};
ghost use Rattle.epoch_cut.specs.Numbered.{numbered};

use crate::by_length::{MOST_EPOCHS, epoch_count, lengths_of_last};
use crate::ticket::EpochTicket;
use no_memory::NoMemory;
use std::alloc::Global;
use std::marker::Model;

/// How long the epochs of a run are, in lengths of so many steps.
#[derive(Clone, Copy)]
pub(crate) enum Shape {
    /// The first epoch has so many lengths, and each later one has one.
    LongFirst { lengths: u32 },
    /// So many epochs get shorter: the last one has 1 length, and the ones before it 3, 6, 10 and so on.
    Shrinking { epochs: u32 },
}

/// A run that is cut into epochs. All have the same number of steps, the last maybe fewer, and the first maybe as many as several;
/// or each has fewer than the one before it. A run of no step is one epoch.
///
/// Contracts see it as the list of the times at which the epochs end.
#[derive(Drop)]
pub struct Cuts {
    pub(crate) steps: u64,
    pub(crate) length: u64,
    pub(crate) shape: Shape,
}

impl Model for Cuts {
    ghost use Rattle.std.specs.Prelude.{List, ℕ, ◌≤◌};
    ghost use Rattle.epoch_cut.specs.Shapes.{times_of, IsShapeOf};

    ghost Value = { List ℕ };

    ghost view = { λ c. times_of c.shape c.steps c.length };

    ghost invariant = { λ c. (1 ≤ c.length) × IsShapeOf c.shape c.steps c.length };
}

impl Cuts {
    /// How many epochs there are: 1 to [`MOST_EPOCHS`].
    pub fn count(&self) -> u32
        ensures is { result ≡ length self.now }
        ensures in_range { (1 ≤ result) × (result ≤ MOST_EPOCHS) }
    {
        match self.shape {
            Shape::LongFirst { lengths } => epoch_count(self.steps, self.length) as u32 + 1
                - lengths,
            Shape::Shrinking { epochs } => epochs,
        }
    }

    /// The time at which the first `k` epochs end: 0 for none, and the number of steps for all.
    pub fn at(&self, k: u32) -> u64
        requires { k ≤ length self.now }
        ensures { slice_get (0 ∷ self.now) k ≡ Some result }
    {
        if k == 0 {
            return 0;
        }
        let lengths = match self.shape {
            Shape::LongFirst { lengths } => u64::from(k) + u64::from(lengths) - 1,
            Shape::Shrinking { epochs } => lengths_of_last(epochs) - lengths_of_last(epochs - k),
        };
        lengths.saturating_mul(self.length).min(self.steps)
    }

    /// One ticket for each epoch, in order, numbered from 0. It gives up with NoMemory alone.
    pub fn tickets(self, alloc: Global) -> Result<Vec<EpochTicket>, NoMemory>
        ensures { IfOk result (λ tickets. tickets.items ≡ numbered 0 (epochs 0 self)) }
    {
        let count = self.count();
        let mut tickets = Vec::with_capacity(alloc, count as usize)?;
        for number in 0..count {
            tickets.push_reserved(EpochTicket::new(number, self.at(number), self.at(number + 1)));
        }
        Ok(tickets)
    }
}
