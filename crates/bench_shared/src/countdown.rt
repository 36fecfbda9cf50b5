//! A task whose turn does next to nothing.

ghost use Rattle.std.specs.Prelude.{◌≡◌};

use run_board::{Numbered, Task, Turn};

/// A task that is ended after so many turns.
#[derive(Drop)]
pub struct Countdown {
    number: u32,
    left: u32,
    taken: u32,
}

impl Countdown {
    /// A task with all its turns to come.
    pub fn new(number: u32, turns: u32) -> Countdown
        ensures { result.number ≡ number }
    {
        Countdown {
            number,
            left: turns,
            taken: 0,
        }
    }

    /// How many turns it took.
    pub fn taken(&self) -> u32 {
        self.taken
    }
}

impl Numbered for Countdown {
    ghost use Rattle.std.specs.Prelude.{◌≡◌, ◌≤◌};

    ghost words = { record {
      number = λ task. task.number;
      led_from = λ new old. (new.left ≤ old.left) × (old.taken ≤ new.taken);
      ended = λ task. task.left ≡ 0;
    } };

    fn number(&self) -> u32 {
        self.number
    }
}

impl Task for Countdown {
    ghost use Rattle.std.proofs.Common.{rules};

    fn turn(&mut self) -> Turn {
        self.left = self.left.saturating_sub(1);
        self.taken = self.taken.saturating_add(1);
        if self.left == 0 {
            return Turn::Done;
        }
        Turn::Moved
    }

    ghost reflexive = { Prim.search rules };

    ghost transitive = { Prim.search rules };
}
