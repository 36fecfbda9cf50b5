//! The labels of the points inside a run.

ghost use Rattle.std.specs.Prelude.{◌≡◌, ◌+◌, ◌≤◌, ◌∷◌, [], All, IfOk, OnOk};
ghost use Rattle.flow_model.specs.Orders.{inner_cmp};
ghost use Rattle.flow_model.specs.Ranges.{IsLocation};
ghost use Rattle.epoch_model.specs.Stretch.{points_at_start};
ghost use Rattle.report_model.specs.Query.{AreLocated};
ghost use Rattle.report_model.specs.Rows.{point_sink, from_time};
ghost use Rattle.lists.specs.Sets.{Ascends};
ghost use Rattle.taint_tracking.specs.Sinks.{Notes, sinks_at};

use flow_model::{InnerSink, SinkPoint};
use no_memory::NoMemory;
use query_lang::Query;
use taint_shadow::{Places, SinkLabel};

/// Notes the points at the beginning of an epoch that belong to it, which are those at time 0, and gives those after
/// its beginning.
pub fn collect_first<'a>(
    places: &Places,
    query: &'a Query,
    first: u64,
    sinks: &mut Vec<SinkLabel>,
) -> Result<&'a [InnerSink], NoMemory>
    ensures noted { OnOk result (Notes places.now (points_at_start query.now first) sinks.old.items sinks.new.items) }
    ensures later { IfOk result (λ later. later.now ≡ from_time (first + 1) query.now.points) }
    ensures ascending { Ascends inner_cmp query.now.points }
    ensures located { AreLocated query.now.points }
{
    let points = query.points();
    if first == 0 {
        return collect_due(places, points, 0, sinks);
    }
    Ok(points_after(points, first))
}

/// The points after a time, of points that ascend.
fn points_after(points: &[InnerSink], time: u64) -> &[InnerSink]
    requires { Ascends inner_cmp points.now }
    ensures { result.now ≡ from_time (time + 1) points.now }
{
    let passed = points.partition_point(|point| point.time <= time);
    &points[passed..]
}

/// Notes the points at a time, which come first among these, and gives the later ones. What is kept for locations is
/// that at the time.
#[inline(always)]
pub fn collect_due<'a>(
    places: &Places,
    points: &'a [InnerSink],
    time: u64,
    sinks: &mut Vec<SinkLabel>,
) -> Result<&'a [InnerSink], NoMemory>
    requires ascending { Ascends inner_cmp points.now }
    requires located { AreLocated points.now }
    requires none_before { All (λ p. time ≤ p.time) points.now }
    ensures noted { OnOk result (Notes places.now (sinks_at time points.now) sinks.old.items sinks.new.items) }
    ensures later { IfOk result (λ later. later.now ≡ from_time (time + 1) points.now) }
{
    let mut due = 0;
    while due < points.len() && points[due].time == time {
        collect_point(places, points[due], sinks)?;
        due += 1;
    }
    Ok(&points[due..])
}

/// Notes one point.
fn collect_point(
    places: &Places,
    point: InnerSink,
    sinks: &mut Vec<SinkLabel>,
) -> Result<(), NoMemory>
    requires { IsLocation point.loc }
    ensures { OnOk result (Notes places.now (point_sink point ∷ []) sinks.old.items sinks.new.items) }
{
    sinks.push(SinkLabel {
        name: SinkPoint::At(point),
        label: places.get(point.loc),
    })?;
    Ok(())
}
