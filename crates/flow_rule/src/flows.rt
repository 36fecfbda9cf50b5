//! The flow of one step: its targets and their origins, in a table on the stack.

ghost use Rattle.std.specs.Prelude.{◌≡◌, ◌<◌, ◌≤◌, map, length, slice_get, Some};
ghost use Rattle.flow_model.specs.Flow as table;
ghost use Rattle.flow_rule.specs.Flows.{room_of, count_of, table_of, origins_at};

use crate::locations::Locations;
use flow_model::Loc;
use std::marker::Model;

/// The targets of a step.
#[derive(Clone, Copy)]
pub enum Targets {
    /// The four lanes of a register.
    Register(u8),
    /// The four lanes of one register, and then those of another.
    TwoRegisters(u8, u8),
    /// `count` bytes from an address on, which wraps.
    Memory { address: u32, count: u8 },
}

/// The origins of the targets.
#[derive(Clone, Copy)]
pub enum Origins {
    /// Each target has these.
    Same(Locations),
    /// The first target has these, and the others have none.
    First(Locations),
    /// Each target has its own.
    Each([Locations; 4]),
}

/// Which locations' content flows where in one step: at most eight targets, each with at most eight
/// origins. A location that is no target keeps its content, and a target without origins becomes empty.
#[derive(Drop)]
pub struct Flow {
    targets: Targets,
    origins: Origins,
}

impl Model for Flow {
    ghost use Rattle.std.specs.Prelude.{◌≤◌, List};
    ghost use Rattle.flow_model.specs.Flow.{Target};
    ghost use Rattle.flow_rule.specs.Flows.{room_of, count_of, table_of};

    ghost Value = { List Target };

    ghost view = { λ f. table_of f.targets f.origins };

    ghost invariant = { λ f. count_of f.targets ≤ room_of f.origins };
}

impl Flow {
    pub(crate) fn new(targets: Targets, origins: Origins) -> Self
        requires { count_of targets ≤ room_of origins }
        ensures { result ≡ table_of targets origins }
    {
        Flow { targets, origins }
    }

    /// The number of targets: 0, 1, 2, 4 or 8, and 8 for the clock's call alone.
    pub fn count(&self) -> usize
        ensures value { result ≡ length self.now }
        ensures few { result ≤ 8 }
    {
        match self.targets {
            Targets::Register(_) => 4,
            Targets::TwoRegisters(..) => 8,
            Targets::Memory { count, .. } => count as usize,
        }
    }

    /// The target of this number.
    pub fn target(&self, i: usize) -> Loc
        requires { i < length self.now }
        ensures { slice_get (map (λ t. t.loc) self.now) i ≡ Some result }
    {
        match self.targets {
            Targets::Register(number) => Loc::Reg {
                number,
                lane: i as u8,
            },
            Targets::TwoRegisters(first, _) if i < 4 => Loc::Reg {
                number: first,
                lane: i as u8,
            },
            Targets::TwoRegisters(_, second) => Loc::Reg {
                number: second,
                lane: (i - 4) as u8,
            },
            Targets::Memory { address, .. } => Loc::Mem {
                place: address.wrapping_add(i as u32),
            },
        }
    }

    /// The locations whose content before the step flows into the target of this number, ascending.
    pub fn origins(&self, i: usize) -> &[Loc]
        requires { i < length self.now }
        ensures value { slice_get (map (λ t. t.origins) self.now) i ≡ Some result.now }
        ensures few { length result.now ≤ 8 }
    {
        match &self.origins {
            Origins::Same(locs) => locs.as_slice(),
            Origins::First(locs) if i == 0 => locs.as_slice(),
            Origins::First(_) => &[],
            Origins::Each(lanes) => lane_of(lanes, i),
        }
    }
}

fn lane_of(lanes: &[Locations; 4], i: usize) -> &[Loc]
    requires { i < 4 }
    ensures value { result.now ≡ origins_at (Origins.Each lanes.now) i }
    ensures few { length result.now ≤ 8 }
{
    lanes[i].as_slice()
}
