//! What all calls of a run and all points of a query need.

ghost use Rattle.std.specs.Prelude.{◌≡◌, [], length};
ghost use Rattle.run_beginning.specs.Need.{steps_for_calls as steps_of_calls, steps_for_points as steps_of_points, needed_by_log};

use crate::calls::steps_for_call;
use flow_model::InnerSink;
use query_lang::Query;
use replay_log::Log;
use replayer::steps_of;

/// How many steps the output bytes need that the query chooses.
fn steps_for_calls(log: &Log, query: &Query) -> u64
    ensures { result ≡ steps_of_calls query.now [] log.now.records }
{
    log.form();
    let _size = log.size();
    let records = log.records();
    let mut written = [0; 16];
    let mut most = 0;
    for call in records {
        most = most.max(steps_for_call(query, &mut written, call));
    }
    most
}

/// How many steps these points need, of those that lie inside a run of so many steps.
fn steps_for_points(points: &[InnerSink], steps: u64) -> u64
    ensures { result ≡ steps_of_points steps points.now }
{
    let mut most = 0;
    for point in points {
        if point.time <= steps {
            most = most.max(point.time);
        }
    }
    most
}

/// How many of the first steps of the run of a log the rows of a query need: up to, and with, the last write of an
/// output byte that the query chooses, and up to the time of its last point inside the run. It takes no memory.
pub fn needed_steps(log: &Log, query: &Query) -> u64
    ensures { result ≡ needed_by_log query.now log.now }
{
    let calls = steps_for_calls(log, query);
    calls.max(steps_for_points(query.points(), steps_of(log)))
}
