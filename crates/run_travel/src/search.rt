//! The next stop of a run, and the last one before a time.

ghost use Rattle.std.specs.Prelude.{◌≡◌, ◌+◌, ◌<◌, ◌≤◌, ◌||◌, true};
ghost use Rattle.std.specs.Bool.{then_some};
ghost use Rattle.std.specs.Option.{is_some, option_map, option_or};
ghost use Rattle.log_model.specs.Logs.{steps as steps_of};
ghost use Rattle.run_travel.specs.Stops.{met_at, is_point, is_reached, stops_before};
ghost use Rattle.run_travel.specs.Moves.{stop_on, time_after};
ghost use Rattle.run_travel.specs.Searches.{stop_at, last_met, found_back, IsRowOn, IsRowBack};

use crate::aim::Aim;
use crate::looking::Looking;
use crate::points::Points;
use crate::watch::Watch;
use replayer::{Cursor, Next};

/// A step at which a run stops: its number, and the watchpoint that it meets, if it meets one.
#[derive(Clone, Copy)]
pub(crate) struct Stop {
    pub(crate) step: u64,
    pub(crate) met: Option<Watch>,
}

/// Makes the next step of the run. It answers the watchpoint that the step meets, if it meets one.
#[inline(always)]
pub(crate) fn make_step(cursor: &mut Cursor<'_>, points: &Points) -> Option<Watch>
    requires { cursor.old.time < steps_of cursor.old.job.log }
    ensures met { result ≡ met_at cursor.old.job points.now cursor.old.time }
    ensures moved { cursor.new ≡ record { job = cursor.old.job; time = cursor.old.time + 1 } }
{
    let Next::Step(step) = cursor.next() else {
        unreachable!()
    };
    points.met(&step)
}

/// The step that met this watchpoint, if it met one, and led to a pc, if a run that goes on stops after it.
#[inline(always)]
fn stop_after(step: u64, met: Option<Watch>, pc: u32, points: &Points, aim: Aim) -> Option<Stop>
    ensures { result ≡ then_some (is_point points.now met pc || is_reached aim pc) (record { step = step; met = met }) }
{
    let stops = points.is_point(&met, pc) || aim.is_reached(pc);
    stops.then_some(Stop { step, met })
}

/// The step before a time, if it met a watchpoint.
#[inline(always)]
fn last_met(time: u64, met: Option<Watch>) -> Option<Stop>
    requires { is_some met ≡ true → 0 < time }
    ensures { result ≡ last_met time met }
{
    match met {
        None => None,
        Some(watch) => Some(Stop {
            step: time - 1,
            met: Some(watch),
        }),
    }
}

/// Makes the next step of the run, and plain steps in a row up to one after which a run that goes on stops, or fewer. It
/// answers the last of all these steps, if such a run stops after it.
fn stop_after_row(cursor: &mut Cursor<'_>, points: &Points, aim: Aim) -> Option<Stop>
    requires { cursor.old.time < steps_of cursor.old.job.log }
    ensures { IsRowOn points.now aim cursor.old cursor.new result }
{
    let met = make_step(cursor, points);
    let mut looking = Looking::after(points, aim, met);
    let until = cursor.plain_until();
    cursor.run_plain(until, &mut looking);
    let time = cursor.time();
    let pc = cursor.pc();
    let met = looking.met();
    stop_after(time - 1, met, pc, points, aim)
}

/// Makes the next step of the run. It answers the step, if a run that goes back stops before it.
#[inline(always)]
fn stop_before_next(cursor: &mut Cursor<'_>, points: &Points) -> Option<Stop>
    requires { cursor.old.time < steps_of cursor.old.job.log }
    ensures stop { result ≡ then_some (stops_before cursor.old.job points.now cursor.old.time)
        (stop_at cursor.old.job points.now cursor.old.time) }
    ensures moved { cursor.new ≡ record { job = cursor.old.job; time = cursor.old.time + 1 } }
{
    let (step, pc) = (cursor.time(), cursor.pc());
    let met = make_step(cursor, points);
    let stops = points.is_point(&met, pc);
    stops.then_some(Stop { step, met })
}

/// Makes plain steps in a row up to one before which a run that goes back stops, to a time at most, or fewer. It answers
/// the last of these steps, if such a run stops before it.
fn stop_in_row(cursor: &mut Cursor<'_>, most: u64, points: &Points) -> Option<Stop>
    requires { cursor.old.time ≤ most }
    ensures { IsRowBack points.now most cursor.old cursor.new result }
{
    let mut looking = Looking::after(points, Aim::Points, None);
    let plain = cursor.plain_until();
    let until = plain.min(most);
    cursor.run_plain(until, &mut looking);
    let time = cursor.time();
    let met = looking.met();
    last_met(time, met)
}

/// Goes on past the first step after which the run stops, and answers it; if there is none, to the run's end, after so
/// many steps.
pub(crate) fn next_stop(
    cursor: &mut Cursor<'_>,
    steps: u64,
    points: &Points,
    aim: Aim,
) -> Option<Stop>
    requires steps { steps ≡ steps_of cursor.old.job.log }
    requires within { cursor.old.time ≤ steps }
    ensures stop { result ≡ option_map (stop_at cursor.old.job points.now)
        (stop_on cursor.old.job points.now aim cursor.old.time) }
    ensures moved { cursor.new ≡ record {
      job = cursor.old.job;
      time = time_after cursor.old.job (stop_on cursor.old.job points.now aim cursor.old.time);
    } }
    ensures within { cursor.new.time ≤ steps }
{
    while cursor.time() < steps {
        let stop = stop_after_row(cursor, points, aim);
        if stop.is_some() {
            return stop;
        }
    }
    None
}

/// The last stop before a time, among the steps from the cursor's time on, which are made.
pub(crate) fn last_stop(cursor: &mut Cursor<'_>, before: u64, points: &Points) -> Option<Stop>
    requires from { cursor.old.time ≤ before }
    requires within { before ≤ steps_of cursor.old.job.log }
    ensures { found_back cursor.old.job points.now before
        ≡ option_or result (found_back cursor.old.job points.now cursor.old.time) }
{
    let mut found = None;
    while cursor.time() < before {
        found = stop_in_row(cursor, before - 1, points).or(found);
        found = stop_before_next(cursor, points).or(found);
    }
    found
}
