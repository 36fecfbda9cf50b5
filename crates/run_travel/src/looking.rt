//! A look at plain steps in a row.

ghost use Rattle.std.specs.Prelude.{◌≡◌};
ghost use Rattle.std.specs.List.{find};
ghost use Rattle.std.specs.Option.{option_or};
ghost use Rattle.run_travel.specs.Looks.{looking, meets_bytes};

use crate::access::Span;
use crate::aim::Aim;
use crate::points::Points;
use crate::watch::Watch;
use replayer::{Follower, Instr, InstructionAddress, Load, Store};
use std::marker::Model;

/// One who looks at plain steps in a row, up to one that meets a watchpoint, or after which the pc is one at which a move
/// stops.
///
/// Contracts see it as the points and the aim of the move, and the watchpoint that the last step met, if it met one.
#[derive(Drop)]
pub(crate) struct Looking<'p> {
    points: &'p Points,
    aim: Aim,
    met: Option<Watch>,
}

impl<'p> Model for Looking<'p> {
    ghost use Rattle.run_travel.specs.Looks.{LookingAt};

    ghost Value = { LookingAt };

    ghost view = { λ l. record { points = l.points.now; aim = l.aim; met = l.met } };
}

impl<'p> Looking<'p> {
    /// After a step that met this watchpoint, if it met one.
    pub(crate) fn after(points: &'p Points, aim: Aim, met: Option<Watch>) -> Looking<'p>
        ensures { result ≡ looking points.now aim met }
    {
        Looking { points, aim, met }
    }

    /// The watchpoint that the last step met, if it met one.
    pub(crate) fn met(&self) -> Option<Watch>
        ensures { result ≡ self.now.met }
    {
        self.met
    }

    /// Looks at the bytes that a step writes and reads.
    #[inline(always)]
    fn look(&mut self, written: Span, read: Span)
        ensures { self.new ≡ looking self.old.points self.old.aim
            (option_or self.old.met (find (meets_bytes written read) self.old.points.watches)) }
    {
        if let Some(watch) = self.points.met_by_bytes(written, read) {
            self.met = self.met.or(Some(watch));
        }
    }
}

impl<'p> Follower for Looking<'p> {
    ghost use Rattle.run_travel.specs.Looks.{Looks, IsWanted};

    ghost told = { Looks };

    ghost wants = { IsWanted };

    #[inline(always)]
    fn wants_step(&self, at: &InstructionAddress) -> bool {
        let pc = at.pc();
        self.met.is_none() && !self.points.has_break(pc) && !self.aim.is_reached(pc)
    }

    /// Watchpoints are met by loads and stores alone.
    #[tactic(auto, using(crate::proofs::Accessing::passed_by))]
    #[inline(always)]
    fn passes_by(&self, _registers: u32) -> bool {
        true
    }

    #[tactic(auto, using(crate::proofs::Accessing::passed_by))]
    #[inline(always)]
    fn follow(&mut self, _instr: &Instr) {}

    #[tactic(auto, using(crate::proofs::Accessing::looks_load))]
    #[inline(always)]
    fn follow_load(&mut self, load: Load, place: u32) {
        let size = u32::from(load.size);
        self.look(Span { place, size: 0 }, Span { place, size });
    }

    #[tactic(auto, using(crate::proofs::Accessing::looks_store))]
    #[inline(always)]
    fn follow_store(&mut self, store: Store, place: u32) {
        let size = u32::from(store.size);
        self.look(Span { place, size }, Span { place, size: 0 });
    }
}
