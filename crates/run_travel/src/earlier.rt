//! Earlier places of a run, reached from its checkpoints.

ghost use Rattle.std.specs.Prelude.{◌≡◌, ◌≤◌, ◌<◌, length, slice_get, IfSome, IfOk};
ghost use Rattle.log_model.specs.Logs.{steps as steps_of};
ghost use Rattle.run_travel.specs.Stops.{met_at};
ghost use Rattle.run_travel.specs.Searches.{found_back, BeginsAtZero};

use crate::points::Points;
use crate::search::{Stop, last_stop, make_step};
use crate::watch::Watch;
use checkpoints::Checkpoints;
use no_memory::NoMemory;
use replayer::{Cursor, Job, Next, Nobody};
use std::alloc::Global;

/// Makes the steps up to a time, which is no earlier.
pub(crate) fn advance(cursor: &mut Cursor<'_>, time: u64)
    requires later { cursor.old.time ≤ time }
    requires within { time ≤ steps_of cursor.old.job.log }
    ensures { cursor.new ≡ record { job = cursor.old.job; time = time } }
{
    while cursor.time() < time {
        let plain = cursor.plain_until();
        let until = plain.min(time - 1);
        cursor.run_plain(until, &mut Nobody);
        let Next::Step(_) = cursor.next() else {
            unreachable!()
        };
    }
}

/// The number of a checkpoint that was taken at a time or before it: of the last such one, since their times rise.
pub(crate) fn checkpoint_before(checkpoints: &Checkpoints<'_>, count: u32, time: u64) -> u32
    requires { BeginsAtZero count checkpoints.now.times }
    ensures there { result < length checkpoints.now.times }
    ensures before { IfSome (slice_get checkpoints.now.times result) (λ t. t ≤ time) }
{
    let mut low = 0;
    let mut high = count;
    while low + 1 < high {
        let middle = low + (high - low) / 2;
        if checkpoints.time(middle) <= time {
            low = middle;
        } else {
            high = middle;
        }
    }
    low
}

/// A cursor at a time, which goes on from the last checkpoint before it. It gives up with NoMemory alone.
pub(crate) fn cursor_at<'a>(
    alloc: Global,
    checkpoints: &Checkpoints<'a>,
    count: u32,
    time: u64,
) -> Result<Cursor<'a>, NoMemory>
    requires begins { BeginsAtZero count checkpoints.now.times }
    requires within { time ≤ steps_of checkpoints.now.job.log }
    ensures { IfOk result (λ cursor. cursor ≡ record { job = checkpoints.now.job; time = time }) }
{
    let number = checkpoint_before(checkpoints, count, time);
    let mut cursor = checkpoints.start(alloc, number)?;
    advance(&mut cursor, time);
    Ok(cursor)
}

/// The cursor as it is, and the watchpoint that the step which it makes next meets, if it meets one. It gives up with
/// NoMemory alone.
pub(crate) fn look_ahead<'a>(
    alloc: Global,
    job: &'a Job,
    mut cursor: Cursor<'a>,
    points: &Points,
) -> Result<(Cursor<'a>, Option<Watch>), NoMemory>
    requires job { cursor.job ≡ job.now }
    requires within { cursor.time < steps_of job.now.log }
    ensures same { IfOk result (λ it. it.0 ≡ cursor.entry) }
    ensures met { IfOk result (λ it. it.1 ≡ met_at job.now points.now cursor.entry.time) }
{
    if !points.has_watches() {
        return Ok((cursor, None));
    }
    let state = cursor.save(alloc)?;
    let met = make_step(&mut cursor, points);
    let mut again = Cursor::from(job, state);
    again.keep_decoded(alloc)?;
    Ok((again, met))
}

/// The last stop before a time. The epochs are searched one by one, the last one first. It gives up with NoMemory
/// alone.
pub(crate) fn stop_before(
    alloc: Global,
    checkpoints: &Checkpoints<'_>,
    count: u32,
    time: u64,
    points: &Points,
) -> Result<Option<Stop>, NoMemory>
    requires begins { BeginsAtZero count checkpoints.now.times }
    requires within { time ≤ steps_of checkpoints.now.job.log }
    ensures { IfOk result (λ stop. stop ≡ found_back checkpoints.now.job points.now time) }
{
    let mut before = time;
    while before > 0 {
        let number = checkpoint_before(checkpoints, count, before - 1);
        let mut cursor = checkpoints.start(alloc, number)?;
        if let Some(stop) = last_stop(&mut cursor, before, points) {
            return Ok(Some(stop));
        }
        before = checkpoints.time(number);
    }
    Ok(None)
}
