//! One event of a core, on the links beside it.

ghost use Rattle.std.specs.Prelude.{◌+◌, ◌<◌, length};
ghost use Rattle.epoch_node.specs.Cores.{core_of};
ghost use Rattle.epoch_node.specs.Keeping.{KeepsCore};
ghost use Rattle.jet_core.specs.Joints.{traffic_between, joint_at};
ghost use Rattle.jet_core.specs.Turns.{TurnsIn, TurnsBetween, TurnsOne};

use crate::joints::Joint;
use epoch_node::{Core, Phase};
use outer_io::Gate;
use run_board::Turn;
use std::mem;

/// One event of a core, on the links of its phase, among those to the cores on both sides. A core that is done has none.
fn turn_in_phase<'a, G: Gate>(
    core: &mut Core<'a, G>,
    previous: &mut Joint,
    next: &mut Joint,
) -> Turn
    requires { KeepsCore (core_of core.old) (traffic_between previous.old next.old) }
    ensures { TurnsIn (core_of core.old).stage (core_of core.old)
        (core_of core.new) previous.old next.old previous.new next.new result }
{
    match core.phase() {
        Phase::Fresh => core.event(&mut next.ask, &mut previous.ask),
        Phase::Asking => core.event(&mut next.ask, &mut previous.ask),
        Phase::Answering => core.event(&mut previous.answer, &mut next.answer),
        Phase::Done => Turn::Done,
    }
}

/// The same, and what is true of the links then.
fn turn_between<'a, G: Gate>(core: &mut Core<'a, G>, previous: &mut Joint, next: &mut Joint) -> Turn
    requires { KeepsCore (core_of core.old) (traffic_between previous.old next.old) }
    ensures { TurnsBetween (core_of core.old) previous.old next.old (core_of core.new) previous.new next.new result }
{
    let turn = turn_in_phase(core, previous, next);
    previous.form();
    next.form();
    turn
}

/// One event of a core, on the links at its place of a line and at the next.
pub(crate) fn turn_at<'a, G: Gate>(core: &mut Core<'a, G>, joints: &mut Vec<Joint>, place: usize)
    requires inside { place + 1 < length joints.old.items }
    requires keeps { KeepsCore (core_of core.old)
        (traffic_between (joint_at joints.old.items place) (joint_at joints.old.items (place + 1))) }
    ensures { TurnsOne (core_of core.old) joints.old.items place (core_of core.new) joints.new.items }
{
    let mut previous = mem::replace(&mut joints[place], Joint::none());
    let mut next = mem::replace(&mut joints[place + 1], Joint::none());
    turn_between(core, &mut previous, &mut next);
    joints[place] = previous;
    joints[place + 1] = next;
}
