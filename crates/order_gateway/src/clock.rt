//! The clock of the workload's run.

ghost use Rattle.std.specs.Prelude.{◌≡◌, ◌<◌, ◌-◌, ◌^◌, OnOk};
ghost use Rattle.order_gateway.specs.StoppedClock.{told_zeros};

use no_memory::{Limit, NoMemory};
use outer_io::Clock;

/// A clock that answers 0 each time. It counts its first 2^64 - 2 answers, which it tells.
#[derive(Drop)]
pub struct StoppedClock {
    asked: u64,
}

impl StoppedClock {
    /// A clock that was not asked yet.
    pub fn new() -> StoppedClock
        ensures { result ≡ record { asked = 0 } }
    {
        StoppedClock { asked: 0 }
    }

    /// Whether it tells all its answers: else there is no room to count them.
    pub fn counted(&self) -> Result<(), NoMemory>
        ensures { OnOk result (self.now.asked < 2 ^ 64 - 1) }
    {
        if self.asked == u64::MAX {
            return Err(NoMemory::past_count(Limit::ClockAnswers, self.asked));
        }
        Ok(())
    }
}

impl Clock for StoppedClock {
    ghost answers = { told_zeros };

    fn now(&mut self) -> u64 {
        if self.asked == u64::MAX {
            return 0;
        }
        self.asked += 1;
        0
    }
}
