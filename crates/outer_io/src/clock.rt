//! A clock that can't fail.

ghost use Rattle.std.specs.Prelude.{◌∷◌, [], List, ℕ, Option};
ghost use Rattle.outer_io.specs.Tells.{Tells, Gains};

/// A clock, which can't fail.
pub trait Clock {
    /// The answers given so far, if they are told.
    ghost answers: { Self → Option (List ℕ) };

    /// The time, in a unit that the clock chooses.
    fn now(&mut self) -> u64
        ensures { Tells (answers self.old) (answers self.new) (Gains (result ∷ [])) };
}
