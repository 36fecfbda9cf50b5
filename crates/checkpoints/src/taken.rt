//! Checkpoints that are taken one after another.

ghost use Rattle.std.specs.Prelude.{◌≡◌, ◌+◌, [], length, OnOk};
ghost use Rattle.checkpoints.specs.Points.{last_numbers};
ghost use Rattle.checkpoints.specs.Taking.{IsOneTaken};

use crate::checkpoint::Checkpoint;
use crate::pages::Pages;
use crate::paging::split;
use crate::touched::Touched;
use no_memory::NoMemory;
use replayer::Position;
use std::alloc::Global;
use std::marker::Model;

/// The checkpoints that are taken so far, and their pages.
#[derive(Drop)]
pub(crate) struct Taken {
    pub(crate) pages: Pages,
    pub(crate) points: Vec<Checkpoint>,
}

impl Model for Taken {
    ghost use Rattle.std.specs.Prelude.{◌<◌, [], length};
    ghost use Rattle.std.specs.List.{All};
    ghost use Rattle.checkpoints.specs.Points.{last_numbers};
    ghost use Rattle.checkpoints.specs.Taking.{TakenAt};

    ghost Value = { TakenAt };

    ghost view = { λ t. record { pages = t.pages; points = t.points.items } };

    ghost invariant = { λ t. All (λ number. number < length t.pages) (last_numbers [] t.points.items) };
}

/// The numbers of the last checkpoint's pages: none where there is no checkpoint.
fn last_numbers(points: &[Checkpoint]) -> &[u32]
    ensures { result.now ≡ last_numbers [] points.now }
{
    match points.last() {
        Some(last) => last.numbers.as_slice(),
        None => &[],
    }
}

impl Taken {
    /// No checkpoint.
    pub fn none(alloc: Global) -> Taken
        ensures { result ≡ record { pages = []; points = [] } }
    {
        Taken {
            pages: Pages::new(alloc),
            points: Vec::new(alloc),
        }
    }

    /// How many checkpoints there are.
    pub fn count(&self) -> usize
        ensures { result ≡ length self.now.points }
    {
        self.points.len()
    }

    /// Takes one more checkpoint, where the run stands. Pages that were touched since the last are compared. It gives up with
    /// NoMemory alone.
    pub fn add(
        &mut self,
        alloc: Global,
        at: &Position<'_, '_>,
        touched: &Touched,
    ) -> Result<(), NoMemory>
        ensures count { OnOk result (length self.new.points ≡ length self.old.points + 1) }
        ensures taken { OnOk result (IsOneTaken at.now touched.now.flags self.old self.new) }
    {
        let (window, rest) = at.parts();
        let before = last_numbers(self.points.as_slice());
        let numbers = split(alloc, &mut self.pages, before, touched, window)?;
        self.points.push(Checkpoint { numbers, rest })?;
        Ok(())
    }
}
