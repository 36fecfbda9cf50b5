//! Where the analysis of an epoch starts.

ghost use Rattle.std.specs.Prelude.{◌≡◌, ◌<◌, Some, length, slice_get, IfOk, IfSome};

use crate::checkpoints::Checkpoints;
use no_memory::NoMemory;
use replayer::Cursor;
use std::alloc::Global;
use std::marker::Model;

/// The checkpoints of a job, and perhaps a cursor of it that was handed on: where one stands at an epoch's beginning already,
/// its window need not be put together. Contracts see it as the checkpoints.
#[derive(Drop)]
pub struct StartPoint<'a> {
    checkpoints: &'a Checkpoints<'a>,
    cursor: Option<Cursor<'a>>,
    // The cursor of an analysis is kept, since someone takes it.
    hands_on: bool,
}

impl<'a> Model for StartPoint<'a> {
    ghost use Rattle.std.specs.Prelude.{◌≡◌, IfSome};
    ghost use Rattle.checkpoints.specs.Points.{CheckpointsAt};

    ghost Value = { CheckpointsAt };

    ghost view = { λ s. s.checkpoints.now };

    ghost invariant = { λ s. IfSome s.cursor (λ c. c.job ≡ s.checkpoints.now.job) };
}

impl<'a> StartPoint<'a> {
    /// The checkpoints, and no cursor. None is kept until one is handed in.
    pub fn new(checkpoints: &'a Checkpoints<'a>) -> StartPoint<'a>
        ensures { result ≡ checkpoints.now }
    {
        StartPoint {
            checkpoints,
            cursor: None,
            hands_on: false,
        }
    }

    /// Takes a cursor, if there is one, in place of the one that it has. From then on it keeps what [`StartPoint::put_back`]
    /// gives it.
    pub fn hand(&mut self, cursor: Option<Cursor<'a>>)
        requires { IfSome cursor (λ c. c.job ≡ self.old.job) }
        ensures { self.new ≡ self.old }
    {
        self.cursor = cursor;
        self.hands_on = true;
    }

    /// Gives the cursor that it has.
    pub fn take(&mut self) -> Option<Cursor<'a>>
        ensures job { IfSome result (λ c. c.job ≡ self.old.job) }
        ensures same { self.new ≡ self.old }
    {
        self.cursor.take()
    }

    /// Keeps the cursor of an analysis that ended, where someone takes it.
    pub fn put_back(&mut self, cursor: Cursor<'a>)
        requires { cursor.job ≡ self.old.job }
        ensures { self.new ≡ self.old }
    {
        if self.hands_on {
            self.cursor = Some(cursor);
        }
    }

    /// A cursor at the beginning of epoch `k`: the one that it has, if that stands there. It gives up with NoMemory alone.
    pub fn start(&mut self, alloc: Global, k: u32) -> Result<Cursor<'a>, NoMemory>
        requires { k < length self.old.times }
        ensures same { self.new ≡ self.old }
        ensures job { IfOk result (λ cursor. cursor.job ≡ self.old.job) }
        ensures time { IfOk result (λ cursor. slice_get self.old.times k ≡ Some cursor.time) }
    {
        match self.cursor.take() {
            Some(cursor) if cursor.time() == self.checkpoints.time(k) => Ok(cursor),
            _ => self.checkpoints.start(alloc, k),
        }
    }
}
