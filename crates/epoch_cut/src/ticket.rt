//! The ticket of an epoch.

ghost use Rattle.std.specs.Prelude.{◌≡◌, ◌≤◌};

use std::marker::Model;

/// The right to run one epoch: its number, and its steps from `first` up to, and without, `past_last`.
///
/// It can be neither copied nor cloned, and only [`crate::Cuts::tickets`] makes one.
#[derive(Drop)]
pub struct EpochTicket {
    number: u32,
    first: u64,
    past_last: u64,
}

impl Model for EpochTicket {
    ghost use Rattle.epoch_cut.specs.Numbered.{NumberedEpoch};

    ghost Value = { NumberedEpoch };

    ghost view = { λ t. record { number = t.number; first = t.first; past_last = t.past_last } };
}

impl EpochTicket {
    pub(crate) fn new(number: u32, first: u64, past_last: u64) -> EpochTicket
        ensures { result ≡ record { number = number; first = first; past_last = past_last } }
    {
        EpochTicket {
            number,
            first,
            past_last,
        }
    }

    /// The number of the epoch: 0 for the first.
    pub fn number(&self) -> u32
        ensures { result ≡ self.now.number }
    {
        self.number
    }

    /// The time before the first step of the epoch.
    pub fn first(&self) -> u64
        ensures { result ≡ self.now.first }
    {
        self.first
    }

    /// The time after the last step of the epoch.
    pub fn past_last(&self) -> u64
        ensures { result ≡ self.now.past_last }
    {
        self.past_last
    }
}
