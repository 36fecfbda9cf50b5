//! A count of faults.

ghost use Rattle.std.specs.Prelude.{◌≡◌};
ghost use Rattle.outer_io.specs.Faults.{count_on};

use crate::store::Failed;

/// A count of faults, for a store or a sink, which stands still at its last value.
#[derive(Clone, Copy)]
pub struct Faults {
    /// How many there were, at most 2^64 - 1.
    pub count: u64,
}

impl Faults {
    /// No fault.
    pub fn none() -> Faults
        ensures { result.count ≡ 0 }
    {
        Faults { count: 0 }
    }

    /// Counts a fault.
    pub fn fault(&mut self) -> Failed
        ensures { self.new.count ≡ count_on self.old.count }
    {
        self.count = self.count.saturating_add(1);
        Failed
    }
}
