//! Points inside a run.

ghost use Rattle.std.specs.Prelude.{◌≡◌, ◌+◌, ◌-◌, ◌++◌, OnOk};
ghost use Rattle.lists.specs.Sets.{set_of};
ghost use Rattle.flow_model.specs.Orders.{inner_cmp};
ghost use Rattle.report_model.specs.Grammar.{points_of_memory, points_of_register};
ghost use Rattle.query_lang.specs.Statements.{points_shown};

use flow_model::{InnerSink, Loc};
use std::alloc::AllocError;

/// Points that a line chooses: the bytes of memory from the first address to the last, or the lanes of a
/// register, at a time.
#[derive(Clone, Copy)]
pub enum Points {
    Memory { first: u32, last: u32, time: u64 },
    Register { number: u8, time: u64 },
}

/// Adds bytes of memory to points.
fn add_memory(
    points: &mut Vec<InnerSink>,
    first: u32,
    last: u32,
    time: u64,
) -> Result<(), AllocError>
    ensures { OnOk result (points.new.items ≡ points.old.items ++ points_of_memory first (last + 1 - first) time) }
{
    for place in first..=last {
        points.push(InnerSink {
            time,
            loc: Loc::Mem { place },
        })?;
    }
    Ok(())
}

/// Adds the lanes of a register to points.
fn add_register(points: &mut Vec<InnerSink>, number: u8, time: u64) -> Result<(), AllocError>
    ensures { OnOk result (points.new.items ≡ points.old.items ++ points_of_register number time) }
{
    for lane in 0..4 {
        points.push(InnerSink {
            time,
            loc: Loc::Reg { number, lane },
        })?;
    }
    Ok(())
}

impl Points {
    /// Adds them to others.
    pub fn add_to(&self, points: &mut Vec<InnerSink>) -> Result<(), AllocError>
        ensures { OnOk result (points.new.items ≡ points.old.items ++ points_shown self.now) }
    {
        match *self {
            Points::Memory { first, last, time } => add_memory(points, first, last, time),
            Points::Register { number, time } => add_register(points, number, time),
        }
    }
}

/// The points by time and then location, each once.
pub fn each_once(mut points: Vec<InnerSink>) -> Vec<InnerSink>
    ensures { result.items ≡ set_of inner_cmp points.items }
{
    points.sort_unstable();
    points.dedup();
    points
}
