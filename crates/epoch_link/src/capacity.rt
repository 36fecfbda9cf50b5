//! How many items a link holds at most.
ghost use Rattle.std.specs.Prelude.{◌≡◌, IfNone, IfSome};
ghost use Rattle.epoch_link.specs.Capacity.{IsCapacity};

use std::marker::Model;

/// The most items that a link may hold.
pub const MOST_ITEMS: u32 = 65536;

/// How many items a link holds at most: 1 to [`MOST_ITEMS`]. Contracts see it as that number.
#[derive(Clone, Copy, Drop)]
pub struct Capacity {
    number: u32,
}

impl Model for Capacity {
    ghost use Rattle.std.specs.Prelude.{ℕ};
    ghost use Rattle.epoch_link.specs.Capacity.{IsCapacity};

    ghost Value = { ℕ };

    ghost view = { λ c. c.number };

    ghost invariant = { λ c. IsCapacity c.number };

    ghost inverse = { λ n. record { number = n } };
}

impl Capacity {
    /// The capacity of this number, which is one.
    pub fn of(number: u32) -> Capacity
        requires { IsCapacity number }
        ensures { result ≡ number }
    {
        Capacity { number }
    }

    /// The capacity of this number, if it is one.
    pub fn new(number: u32) -> Option<Capacity>
        ensures some { IfSome result (λ capacity. (capacity ≡ number) × IsCapacity number) }
        ensures none { IfNone result (¬ IsCapacity number) }
    {
        if (1..=MOST_ITEMS).contains(&number) {
            Some(Capacity { number })
        } else {
            None
        }
    }

    /// Its number.
    pub fn get(self) -> u32
        ensures number { result ≡ self }
        ensures range { IsCapacity result }
    {
        self.number
    }
}
