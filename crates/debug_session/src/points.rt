//! Points as packets set and clear them.

ghost use Rattle.std.specs.Prelude.{◌≡◌, OnOk};
ghost use Rattle.debug_model.specs.Answers.{looked_for as looked_for_by, watch_of as watch_of_point, with_point, without_point};

use no_memory::NoMemory;
use remote_packets::{Point, WatchKind as AskedKind};
use run_travel::{Points, Watch, WatchKind};

/// Which accesses a watchpoint of this kind looks for.
fn looked_for(kind: AskedKind) -> WatchKind
    ensures { result ≡ looked_for_by kind }
{
    match kind {
        AskedKind::Write => WatchKind::Writes,
        AskedKind::Read => WatchKind::Reads,
        AskedKind::Access => WatchKind::Both,
    }
}

/// A watchpoint.
fn watch_of(kind: AskedKind, place: u32, length: u32) -> Watch
    ensures { result ≡ watch_of_point kind place length }
{
    Watch {
        kind: looked_for(kind),
        place,
        length,
    }
}

/// Sets a point. Where it is set, nothing changes. It gives up with NoMemory alone.
pub(crate) fn set_point(points: &mut Points, point: Point) -> Result<(), NoMemory>
    ensures { OnOk result (points.new ≡ with_point points.old point) }
{
    match point {
        Point::Break { place } => points.set_break(place),
        Point::Watch {
            kind,
            place,
            length,
        } => points.set_watch(watch_of(kind, place, length)),
    }
}

/// Clears a point. Where it isn't set, nothing changes.
pub(crate) fn clear_point(points: &mut Points, point: Point)
    ensures { points.new ≡ without_point points.old point }
{
    match point {
        Point::Break { place } => points.clear_break(place),
        Point::Watch {
            kind,
            place,
            length,
        } => points.clear_watch(watch_of(kind, place, length)),
    }
}
