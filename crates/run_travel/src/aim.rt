//! What a move forward aims at.

ghost use Rattle.std.specs.Prelude.{◌≡◌};
ghost use Rattle.run_travel.specs.Stops.{is_reached};

/// Where a move forward stops, besides at points and at the end of the run.
#[derive(Clone, Copy)]
pub enum Aim {
    /// After one step.
    Step,
    /// Nowhere else.
    Points,
    /// At the first pc that is below `from`, or is `past` or above.
    Leave { from: u32, past: u32 },
}

impl Aim {
    /// Whether a move with this aim stops at a pc.
    #[inline(always)]
    pub(crate) fn is_reached(self, pc: u32) -> bool
        ensures { result ≡ is_reached self pc }
    {
        match self {
            Aim::Step => true,
            Aim::Points => false,
            Aim::Leave { from, past } => pc < from || past <= pc,
        }
    }
}
