//! The checkpoints of a job's run.

ghost use Rattle.std.specs.Prelude.{◌≡◌, ◌<◌, Some, length, map, slice_get, IfOk};
ghost use Rattle.log_model.specs.Logs.{steps};
ghost use Rattle.epoch_model.specs.Cutting.{IsCutting};
ghost use Rattle.checkpoints.specs.Points.{beginnings, held, time_of, AreCheckpoints};

use crate::checkpoint::Checkpoint;
use crate::pages::Pages;
use crate::paging::join;
use crate::taken::Taken;
use crate::taker::CheckpointTaker;
use epoch_cut::Cuts;
use no_memory::NoMemory;
use replayer::{Cursor, CursorState, Job};
use std::alloc::Global;
use std::marker::Model;

/// Where the run of a job stands at the beginning of each epoch.
#[derive(Drop)]
pub struct Checkpoints<'a> {
    job: &'a Job,
    pages: Pages,
    points: Vec<Checkpoint>,
}

impl<'a> Model for Checkpoints<'a> {
    ghost use Rattle.std.specs.Prelude.{map};
    ghost use Rattle.checkpoints.specs.Points.{CheckpointsAt, time_of, AreCheckpoints};

    ghost Value = { CheckpointsAt };

    ghost view = { λ c. record { job = c.job.now; times = map time_of c.points.items } };

    ghost invariant = { λ c. AreCheckpoints c.job.now c.pages c.points.items };
}

impl<'a> Checkpoints<'a> {
    /// The checkpoints of a job that were taken in its run.
    pub(crate) fn of(job: &'a Job, taken: Taken) -> Checkpoints<'a>
        requires { AreCheckpoints job.now taken.pages taken.points }
        ensures { result ≡ record { job = job.now; times = map time_of taken.points } }
    {
        let Taken { pages, points } = taken;
        Checkpoints { job, pages, points }
    }

    /// Takes a checkpoint at the beginning of each epoch of a run that is cut so, in one replay. It gives up with
    /// NoMemory alone.
    pub fn take(alloc: Global, job: &'a Job, cuts: &Cuts) -> Result<Checkpoints<'a>, NoMemory>
        requires { IsCutting (steps job.now.log) cuts.now }
        ensures { IfOk result (λ points. points ≡ record { job = job.now; times = beginnings cuts.now }) }
    {
        let mut taker = CheckpointTaker::new(alloc, cuts)?;
        job.watch(alloc, &mut taker)?;
        taker.finish(job)
    }

    /// How many steps of the run are done where epoch `k` begins.
    pub fn time(&self, k: u32) -> u64
        requires { k < length self.now.times }
        ensures { slice_get self.now.times k ≡ Some result }
    {
        self.points[k as usize].rest.time()
    }

    /// A cursor at the beginning of epoch `k`. It gives up with NoMemory alone.
    pub fn start(&self, alloc: Global, k: u32) -> Result<Cursor<'a>, NoMemory>
        requires { k < length self.now.times }
        ensures job { IfOk result (λ cursor. cursor.job ≡ self.now.job) }
        ensures time { IfOk result (λ cursor. slice_get self.now.times k ≡ Some cursor.time) }
    {
        let point = &self.points[k as usize];
        let bytes = join(alloc, &self.pages, point.numbers.as_slice())?;
        let rest = point.rest;
        let mut cursor = Cursor::from(self.job, CursorState::whole(bytes, rest));
        cursor.keep_decoded(alloc)?;
        Ok(cursor)
    }

    /// How many pages of 4096 bytes are held: those of the window, and those that changed from one checkpoint to the
    /// next.
    pub fn held(&self) -> u64
        ensures { result ≡ held self.now }
    {
        self.pages.count()
    }
}
