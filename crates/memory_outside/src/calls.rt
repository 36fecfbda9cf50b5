//! Calls of which some fail.

ghost use Rattle.std.specs.Prelude.{◌≡◌, is_ok};
ghost use Rattle.memory_outside.specs.Calls.{goes_through, after_call};

use outer_io::{Failed, Faults};
use std::marker::Model;

/// Calls numbered from 0, of which those of some numbers fail, and their faults.
#[derive(Drop)]
pub struct Calls {
    failing: Vec<u64>,
    number: u64,
    faults: Faults,
}

impl Model for Calls {
    ghost use Rattle.memory_outside.specs.Calls.{Calling};

    ghost Value = { Calling };

    ghost view = { λ c. record { failing = c.failing.items; next = c.number; faults = c.faults.count } };
}

impl Calls {
    pub fn new(failing: Vec<u64>) -> Calls
        ensures { result ≡ record { failing = failing.items; next = 0; faults = 0 } }
    {
        Calls {
            failing,
            number: 0,
            faults: Faults::none(),
        }
    }

    /// Counts a call, which can go through or can't. It fails where it can't, or where its number is one of those.
    pub fn count(&mut self, can: bool) -> Result<(), Failed>
        ensures went { is_ok result ≡ goes_through can self.old }
        ensures calls { self.new ≡ after_call (is_ok result) self.old }
    {
        let number = self.number;
        self.number = number.saturating_add(1);
        if !can || self.failing.contains(&number) {
            return Err(self.faults.fault());
        }
        Ok(())
    }
}
