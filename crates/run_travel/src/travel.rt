//! A place in a run, and its moves.

ghost use Rattle.std.specs.Prelude.{◌≡◌, ◌-◌, ◌≤◌, IfOk, OnOk, OnErr};
ghost use Rattle.log_model.specs.Logs.{steps as steps_of};
ghost use Rattle.checkpoints.specs.Points.{beginnings};
ghost use Rattle.run_travel.specs.Moves.{stop_on, stop_back, time_after, time_before, cause_on, cause_back, cause_of_step_back};

use crate::aim::Aim;
use crate::cause::{Cause, cause_at_end, cause_of};
use crate::earlier::{advance, checkpoint_before, cursor_at, look_ahead, stop_before};
use crate::points::Points;
use crate::search::next_stop;
use checkpoints::Checkpoints;
use epoch_cut::Cuts;
use no_memory::NoMemory;
use replayer::{Cursor, Job};
use std::alloc::Global;
use std::marker::Model;

/// A place in the run of a job, with the run's checkpoints, from which earlier places are reached.
///
/// Contracts see it as where its cursor stands. A move that gives up leaves it there.
#[derive(Drop)]
pub struct Travel<'a> {
    alloc: Global,
    job: &'a Job,
    checkpoints: &'a Checkpoints<'a>,
    // How many checkpoints there are.
    count: u32,
    cursor: Cursor<'a>,
}

impl<'a> Model for Travel<'a> {
    ghost use Rattle.replayer.specs.Positions.{CursorAt};
    ghost use Rattle.run_travel.specs.Searches.{IsPlace};

    ghost Value = { CursorAt };

    ghost view = { λ t. t.cursor };

    ghost invariant = { λ t. IsPlace t.job.now t.checkpoints.now t.count t.cursor };
}

impl<'a> Travel<'a> {
    /// The beginning of the run of a job that is cut so, with the run's checkpoints. It gives up with NoMemory alone.
    pub fn new(
        alloc: Global,
        job: &'a Job,
        checkpoints: &'a Checkpoints<'a>,
        cuts: &Cuts,
    ) -> Result<Travel<'a>, NoMemory>
        requires job { checkpoints.now.job ≡ job.now }
        requires times { checkpoints.now.times ≡ beginnings cuts.now }
        ensures { IfOk result (λ travel. travel ≡ record { job = job.now; time = 0 }) }
    {
        let count = cuts.count();
        let cursor = checkpoints.start(alloc, 0)?;
        Ok(Travel {
            alloc,
            job,
            checkpoints,
            count,
            cursor,
        })
    }

    /// Where the run stands.
    pub fn here(&self) -> &Cursor<'a>
        ensures { result.now ≡ self.now }
    {
        &self.cursor
    }

    /// Goes to a time, at most the number of the run's steps. It gives up with NoMemory alone.
    pub fn go_to(&mut self, time: u64) -> Result<(), NoMemory>
        requires { time ≤ steps_of self.old.job.log }
        ensures ok { OnOk result (self.new ≡ record { job = self.old.job; time = time }) }
        ensures err { OnErr result (self.new ≡ self.old) }
    {
        let here = self.cursor.time();
        let number = checkpoint_before(self.checkpoints, self.count, time);
        if time < here || here < self.checkpoints.time(number) {
            self.cursor = cursor_at(self.alloc, self.checkpoints, self.count, time)?;
        } else {
            advance(&mut self.cursor, time);
        }
        Ok(())
    }

    /// Goes on past the first step after which the run stops; if there is none, to the end of the run. It takes no
    /// memory.
    pub fn go_on(&mut self, points: &Points, aim: Aim) -> Cause
        ensures moved { self.new ≡ record {
          job = self.old.job;
          time = time_after self.old.job (stop_on self.old.job points.now aim self.old.time);
        } }
        ensures cause { result ≡ cause_on self.old.job points.now self.old.time
            (stop_on self.old.job points.now aim self.old.time) }
    {
        let from = self.cursor.time();
        let steps = self.job.steps();
        let end = cause_at_end(self.job.log().end());
        let stop = next_stop(&mut self.cursor, steps, points, aim);
        let otherwise = if self.cursor.time() == steps {
            end
        } else {
            Cause::Arrived
        };
        match stop {
            Some(stop) => cause_of(stop.met, otherwise),
            None if from == steps => Cause::End,
            None => otherwise,
        }
    }

    /// Takes one step back, unless the run stands at its beginning. It gives up with NoMemory alone.
    pub fn step_back(&mut self, points: &Points) -> Result<Cause, NoMemory>
        ensures moved { OnOk result (self.new ≡ record { job = self.old.job; time = self.old.time - 1 }) }
        ensures cause { IfOk result (λ cause. cause ≡ cause_of_step_back self.old.job points.now self.old.time) }
        ensures err { OnErr result (self.new ≡ self.old) }
    {
        let time = self.cursor.time();
        if time == 0 {
            return Ok(Cause::Beginning);
        }
        let cursor = cursor_at(self.alloc, self.checkpoints, self.count, time - 1)?;
        let (cursor, met) = look_ahead(self.alloc, self.job, cursor, points)?;
        self.cursor = cursor;
        Ok(cause_of(met, Cause::Arrived))
    }

    /// Goes back to before the last step before which a run that comes from later stops; if there is none, to the
    /// beginning of the run. It gives up with NoMemory alone.
    pub fn go_back(&mut self, points: &Points) -> Result<Cause, NoMemory>
        ensures moved { OnOk result (self.new ≡ record {
          job = self.old.job;
          time = time_before (stop_back self.old.job points.now self.old.time);
        }) }
        ensures cause { IfOk result (λ cause. cause ≡ cause_back self.old.job points.now
            (stop_back self.old.job points.now self.old.time)) }
        ensures err { OnErr result (self.new ≡ self.old) }
    {
        let time = self.cursor.time();
        match stop_before(self.alloc, self.checkpoints, self.count, time, points)? {
            Some(stop) => {
                self.go_to(stop.step)?;
                Ok(cause_of(stop.met, Cause::Arrived))
            }
            None => {
                self.go_to(0)?;
                Ok(Cause::Beginning)
            }
        }
    }
}
