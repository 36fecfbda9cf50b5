//! Moves as packets ask for them.

ghost use Rattle.std.specs.Prelude.{◌≡◌, IfOk, OnOk, OnErr};
ghost use Rattle.debug_model.specs.Arrivals.{arrival};

use no_memory::NoMemory;
use remote_packets::Move;
use run_travel::{Aim, Cause, Points, Travel};

/// Makes a move, and answers why it stopped. It gives up with NoMemory alone, and then no move
/// is made.
pub(crate) fn make_move(
    travel: &mut Travel<'_>,
    points: &Points,
    asked: Move,
) -> Result<Cause, NoMemory>
    ensures moved { OnOk result (travel.new ≡ record {
      job = travel.old.job;
      time = (arrival travel.old.job points.now travel.old.time asked).time;
    }) }
    ensures cause { IfOk result (λ cause. cause ≡ (arrival travel.old.job points.now travel.old.time asked).cause) }
    ensures err { OnErr result (travel.new ≡ travel.old) }
{
    match asked {
        Move::Step => Ok(travel.go_on(points, Aim::Step)),
        Move::Continue => Ok(travel.go_on(points, Aim::Points)),
        Move::RangeStep { start, end } => {
            let aim = Aim::Leave {
                from: start,
                past: end,
            };
            Ok(travel.go_on(points, aim))
        }
        Move::ReverseStep => travel.step_back(points),
        Move::ReverseContinue => travel.go_back(points),
    }
}
