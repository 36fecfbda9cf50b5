//! Which locations' content flows where, as a table of targets: what an instruction moves, by its shape, and what a guest
//! call empties.

ghost use Rattle.std.specs.Prelude.{◌≡◌, ◌≤◌, ◌+◌, []};
ghost use Rattle.std.specs.Option.{option_map_or};
ghost use Rattle.flow_model.specs.declared.Rule.TheVariants.{Index};
ghost use Rattle.flow_model.specs.Flow as model;
ghost use Rattle.flow_rule.specs.Locations.{locs_of};
ghost use Rattle.flow_rule.specs.Flows.{by_lane, origins_at};
ghost use Rattle.flow_rule.specs.Shapes.{targets_of, HasSizes};
ghost use Rattle.flow_rule.specs.Shapes as shapes;
ghost use Rattle.flow_rule.specs.Shuffles as shuffles;

use crate::flows::{Flow, Origins, Targets};
use crate::locations::Locations;
use crate::shape::{Mixing, Shape, shape_of};
use crate::shuffle::Shuffle;
use flow_model::Rule;
use isa::{CallKind, Instr};

/// The targets of an instruction, and which locations' content before it flows into each. `place` is the
/// effective address of a load or a store; the places of their bytes wrap.
pub fn flow(instr: &Instr, place: u32, rule: Rule) -> Flow
    ensures { result ≡ model.flow rule instr.now place }
{
    of_shape(shape_of(instr, place, rule))
}

/// The registers that a guest call empties: none of the bytes of its result comes from what was read. The
/// bytes that a read puts into memory are none of these targets.
pub fn cleared(kind: CallKind) -> Flow
    ensures { result ≡ model.cleared kind }
{
    match kind {
        CallKind::Read | CallKind::Write | CallKind::Other => to_register(10, nothing()),
        CallKind::Clock => Flow::new(Targets::TwoRegisters(10, 11), nothing()),
        CallKind::Exit => untouched(),
    }
}

fn of_shape(shape: Shape) -> Flow
    requires { HasSizes shape }
    ensures { result ≡ targets_of shape }
{
    match shape {
        Shape::Nothing => untouched(),
        Shape::Clear { rd } => to_register(rd, nothing()),
        Shape::Move { rd, rs } => to_register(rd, lane_by_lane(rs)),
        Shape::Shuffled { shuffle, rd, rs } => to_register(rd, shuffled_lanes(shuffle, rs)),
        Shape::Mixed {
            mixing,
            rd,
            rs1,
            rs2,
        } => to_register(rd, mixed_lanes(mixing, rs1, rs2)),
        Shape::Load {
            rd,
            base,
            place,
            size,
            fills,
        } => to_register(rd, loaded(base, place, size, fills)),
        Shape::Store {
            rs,
            base,
            place,
            size,
        } => to_memory(place, size, stored(base, rs)),
    }
}

/// No location changes.
fn untouched() -> Flow
    ensures { result ≡ [] }
{
    to_memory(0, 0, nothing())
}

/// The lanes of a register; x0 is no target.
fn to_register(rd: u8, origins: Origins) -> Flow
    ensures { result ≡ model.to_register rd (origins_at origins) }
{
    if rd == 0 {
        untouched()
    } else {
        Flow::new(Targets::Register(rd), origins)
    }
}

/// Bytes of memory from an address on.
fn to_memory(address: u32, count: u8, origins: Origins) -> Flow
    requires { count ≤ 4 }
    ensures { result ≡ model.to_memory address count (origins_at origins) }
{
    Flow::new(Targets::Memory { address, count }, origins)
}

/// No target has an origin.
fn nothing() -> Origins
    ensures { result ≡ Origins.Same Locations.Empty }
{
    Origins::Same(Locations::Empty)
}

/// Lane i from lane i of a register.
fn lane_by_lane(number: u8) -> Origins
    ensures { by_lane (origins_at result) ≡ by_lane (model.lane number) }
{
    Origins::Each([
        Locations::lane(number, 0),
        Locations::lane(number, 1),
        Locations::lane(number, 2),
        Locations::lane(number, 3),
    ])
}

/// Lane i from the lane of a register that is chosen for it.
fn shuffled_lanes(shuffle: Shuffle, number: u8) -> Origins
    ensures { by_lane (origins_at result) ≡ by_lane (shuffles.shuffled_lanes shuffle number) }
{
    Origins::Each([
        lane_if(number, shuffle.first),
        lane_if(number, shuffle.second),
        lane_if(number, shuffle.third),
        lane_if(number, shuffle.fourth),
    ])
}

/// A lane of a register, if one is chosen.
fn lane_if(number: u8, lane: Option<u8>) -> Locations
    ensures { locs_of result ≡ option_map_or (model.lane number) lane [] }
{
    match lane {
        None => Locations::Empty,
        Some(lane) => Locations::lane(number, lane),
    }
}

/// What flows together.
fn mixed_lanes(mixing: Mixing, rs1: u8, rs2: u8) -> Origins
    ensures { by_lane (origins_at result) ≡ by_lane (shapes.mixed_lanes mixing rs1 rs2) }
{
    match mixing {
        Mixing::EachLane => each_lane(rs1, rs2),
        Mixing::AllLanes => all_lanes(rs1, rs2),
        Mixing::ShiftedLanes => shifted_lanes(rs1, rs2),
        Mixing::FirstLane => first_lane(rs1, rs2),
    }
}

/// Lane i from lane i of both registers.
fn each_lane(a: u8, b: u8) -> Origins
    ensures { by_lane (origins_at result) ≡ by_lane (model.each_lane a b) }
{
    Origins::Each([
        Locations::each_lane(a, b, 0),
        Locations::each_lane(a, b, 1),
        Locations::each_lane(a, b, 2),
        Locations::each_lane(a, b, 3),
    ])
}

/// Each lane from all lanes of both registers.
fn all_lanes(a: u8, b: u8) -> Origins
    ensures { by_lane (origins_at result) ≡ by_lane (model.all_lanes a b) }
{
    Origins::Same(Locations::all_lanes(a, b))
}

/// Each lane from all lanes of a register and the lowest lane of the shift amount.
fn shifted_lanes(value: u8, amount: u8) -> Origins
    ensures { by_lane (origins_at result) ≡ by_lane (model.shifted_lanes value amount) }
{
    Origins::Same(Locations::lanes_and_one(value, amount, 0))
}

/// The lowest lane from all lanes of both registers.
fn first_lane(a: u8, b: u8) -> Origins
    ensures { by_lane (origins_at result) ≡ by_lane (model.in_first_lane (model.all_lanes a b 0)) }
{
    Origins::First(Locations::all_lanes(a, b))
}

/// Byte i from lane i of a register, and from the lanes of the base.
fn stored(base: u8, number: u8) -> Origins
    ensures { by_lane (origins_at result) ≡ by_lane (λ i. model.with_base Index base (model.lane number i)) }
{
    Origins::Each([
        Locations::lanes_and_one(base, number, 0),
        Locations::lanes_and_one(base, number, 1),
        Locations::lanes_and_one(base, number, 2),
        Locations::lanes_and_one(base, number, 3),
    ])
}

/// Lane i from byte i of the `size` bytes that are loaded, and from the lanes of the base.
fn loaded(base: u8, place: u32, size: u8, fills: bool) -> Origins
    requires { 1 ≤ size }
    ensures { by_lane (origins_at result) ≡ by_lane (shapes.loaded_lane fills base place size) }
{
    Origins::Each([
        loaded_lane(base, place, size, fills, 0),
        loaded_lane(base, place, size, fills, 1),
        loaded_lane(base, place, size, fills, 2),
        loaded_lane(base, place, size, fills, 3),
    ])
}

fn loaded_lane(base: u8, place: u32, size: u8, fills: bool, i: u8) -> Locations
    requires { 1 ≤ size }
    ensures { locs_of result ≡ shapes.loaded_lane fills base place size i }
{
    if i >= size && !fills {
        return Locations::Empty;
    }
    loaded_byte(base, place, i.min(size - 1))
}

fn loaded_byte(base: u8, place: u32, i: u8) -> Locations
    ensures { locs_of result ≡ model.with_base Index base (model.byte_of place i) }
{
    Locations::lanes_and_byte(base, place.wrapping_add(u32::from(i)))
}
