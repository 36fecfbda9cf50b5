//! How the flow of an instruction turns what locations are labelled with, by its shape.

ghost use Rattle.std.specs.Prelude.{◌≡◌, ◌<◌, ◌≤◌, ◌+◌, ℕ, IfOk, OnOk};
ghost use Rattle.isa.specs.Machine.{wrap};
ghost use Rattle.flow_model.specs.declared.Loc.TheVariants.{Mem};
ghost use Rattle.flow_rule.specs.Shapes.{HasRegisters, HasSizes};
ghost use Rattle.flow_model.specs.Flow.{lanes, each_lane, all_lanes, shifted_lanes};
ghost use Rattle.taint_shadow.specs.Lanes.{lane_at, mixed_label, LanesStand};
ghost use Rattle.taint_shadow.specs.Places.{kept};
ghost use Rattle.taint_shadow.specs.Steps.{AreStanding, Turns, MakesBased, MakesOver, MakesFrom};

use crate::labels::{Label, Labels};
use crate::lanes::Lanes;
use crate::mixing::{unite, unite_all, unite_lanes};
use crate::places::Places;
use flow_rule::{Mixing, Shape};
use no_memory::NoMemory;

/// The label of what all lanes of a register have together.
#[inline(always)]
fn register_label<A: Labels>(labels: &mut A, places: &Places, number: u8) -> Result<Label, NoMemory>
    requires register { number < 32 }
    requires standing { AreStanding A.words labels.old places.now }
    ensures { IfOk result (MakesOver A.words labels.old places.now (lanes number) labels.new) }
{
    match places.one_label(number) {
        Some(label) => Ok(label),
        None => unite_all(labels, places.lanes(number)),
    }
}

/// The label of what all lanes of two registers have together.
#[inline(always)]
fn all_label<A: Labels>(
    labels: &mut A,
    places: &Places,
    rs1: u8,
    rs2: u8,
) -> Result<Label, NoMemory>
    requires registers { (rs1 < 32) × (rs2 < 32) }
    requires standing { AreStanding A.words labels.old places.now }
    ensures { IfOk result (MakesOver A.words labels.old places.now (all_lanes rs1 rs2 0) labels.new) }
{
    let one = register_label(labels, places, rs1)?;
    let other = register_label(labels, places, rs2)?;
    unite(labels, one, other)
}

/// The label of what all lanes of a register have together with lane 0 of another.
#[inline(always)]
fn shifted_label<A: Labels>(
    labels: &mut A,
    places: &Places,
    rs1: u8,
    rs2: u8,
) -> Result<Label, NoMemory>
    requires registers { (rs1 < 32) × (rs2 < 32) }
    requires standing { AreStanding A.words labels.old places.now }
    ensures { IfOk result (MakesOver A.words labels.old places.now (shifted_lanes rs1 rs2 0) labels.new) }
{
    let all = register_label(labels, places, rs1)?;
    unite(labels, all, places.lanes(rs2).first)
}

/// The labels of what the same lane of two registers has together.
#[inline(always)]
fn lane_labels<A: Labels>(
    labels: &mut A,
    places: &Places,
    rs1: u8,
    rs2: u8,
) -> Result<Lanes, NoMemory>
    requires registers { (rs1 < 32) × (rs2 < 32) }
    requires standing { AreStanding A.words labels.old places.now }
    ensures { IfOk result (MakesFrom A.words labels.old places.now (each_lane rs1 rs2) labels.new) }
{
    unite_lanes(labels, places.lanes(rs1), places.lanes(rs2))
}

/// Lane i comes from lane i of both registers.
fn mix_each<A: Labels>(
    labels: &mut A,
    places: &mut Places,
    rd: u8,
    rs1: u8,
    rs2: u8,
) -> Result<(), NoMemory>
    requires registers { (rd < 32) × (rs1 < 32) × (rs2 < 32) }
    requires standing { AreStanding A.words labels.old places.old }
    ensures { OnOk result
        (Turns A.words labels.old places.old labels.new places.new (Shape.Mixed Mixing.EachLane rd rs1 rs2)) }
{
    let lanes = lane_labels(labels, places, rs1, rs2)?;
    places.set_lanes(rd, lanes);
    Ok(())
}

/// Each lane comes from all lanes of both registers.
fn mix_all<A: Labels>(
    labels: &mut A,
    places: &mut Places,
    rd: u8,
    rs1: u8,
    rs2: u8,
) -> Result<(), NoMemory>
    requires registers { (rd < 32) × (rs1 < 32) × (rs2 < 32) }
    requires standing { AreStanding A.words labels.old places.old }
    ensures { OnOk result
        (Turns A.words labels.old places.old labels.new places.new (Shape.Mixed Mixing.AllLanes rd rs1 rs2)) }
{
    let label = all_label(labels, places, rs1, rs2)?;
    places.set_alike(rd, label);
    Ok(())
}

/// Each lane comes from all lanes of the register that is shifted, and lane 0 of the one with the amount.
fn shift<A: Labels>(
    labels: &mut A,
    places: &mut Places,
    rd: u8,
    rs1: u8,
    rs2: u8,
) -> Result<(), NoMemory>
    requires registers { (rd < 32) × (rs1 < 32) × (rs2 < 32) }
    requires standing { AreStanding A.words labels.old places.old }
    ensures { OnOk result
        (Turns A.words labels.old places.old labels.new places.new (Shape.Mixed Mixing.ShiftedLanes rd rs1 rs2)) }
{
    let label = shifted_label(labels, places, rs1, rs2)?;
    places.set_alike(rd, label);
    Ok(())
}

/// Lane 0 comes from all lanes of both registers, and the other lanes become empty.
fn compare<A: Labels>(
    labels: &mut A,
    places: &mut Places,
    rd: u8,
    rs1: u8,
    rs2: u8,
) -> Result<(), NoMemory>
    requires registers { (rd < 32) × (rs1 < 32) × (rs2 < 32) }
    requires standing { AreStanding A.words labels.old places.old }
    ensures { OnOk result
        (Turns A.words labels.old places.old labels.new places.new (Shape.Mixed Mixing.FirstLane rd rs1 rs2)) }
{
    let label = all_label(labels, places, rs1, rs2)?;
    places.set_lanes(rd, mixed(Mixing::FirstLane, label));
    Ok(())
}

/// The lanes of what flows together, where it has one label.
#[inline(always)]
fn mixed(mixing: Mixing, label: Label) -> Lanes
    ensures { result ≡ mixed_label mixing label }
{
    match mixing {
        Mixing::FirstLane => Lanes {
            first: label,
            second: Label::nothing(),
            third: Label::nothing(),
            fourth: Label::nothing(),
        },
        Mixing::EachLane | Mixing::AllLanes | Mixing::ShiftedLanes => Lanes::alike(label),
    }
}

/// The lanes of two registers flow together. Where those of each have one label, as where they are clean, one label is made.
#[inline(always)]
fn mix<A: Labels>(
    labels: &mut A,
    places: &mut Places,
    mixing: Mixing,
    rd: u8,
    rs1: u8,
    rs2: u8,
) -> Result<(), NoMemory>
    requires registers { (rd < 32) × (rs1 < 32) × (rs2 < 32) }
    requires standing { AreStanding A.words labels.old places.old }
    ensures { OnOk result (Turns A.words labels.old places.old labels.new places.new (Shape.Mixed mixing rd rs1 rs2)) }
{
    if let Some(one) = places.one_label(rs1) {
        if let Some(other) = places.one_label(rs2) {
            let label = unite(labels, one, other)?;
            places.put_lanes(rd, mixed(mixing, label));
            return Ok(());
        }
    }
    mix_apart(labels, places, mixing, rd, rs1, rs2)
}

/// The same, lane by lane.
#[inline(never)]
fn mix_apart<A: Labels>(
    labels: &mut A,
    places: &mut Places,
    mixing: Mixing,
    rd: u8,
    rs1: u8,
    rs2: u8,
) -> Result<(), NoMemory>
    requires registers { (rd < 32) × (rs1 < 32) × (rs2 < 32) }
    requires standing { AreStanding A.words labels.old places.old }
    ensures { OnOk result (Turns A.words labels.old places.old labels.new places.new (Shape.Mixed mixing rd rs1 rs2)) }
{
    match mixing {
        Mixing::EachLane => mix_each(labels, places, rd, rs1, rs2),
        Mixing::AllLanes => mix_all(labels, places, rd, rs1, rs2),
        Mixing::ShiftedLanes => shift(labels, places, rd, rs1, rs2),
        Mixing::FirstLane => compare(labels, places, rd, rs1, rs2),
    }
}

/// What the lowest `size` lanes have, together with the base register where that counts.
#[inline(always)]
fn add_base<A: Labels>(
    labels: &mut A,
    places: &Places,
    base: u8,
    size: u8,
    lanes: Lanes,
) -> Result<Lanes, NoMemory>
    requires base { base < 32 }
    requires size { (1 ≤ size) × (size ≤ 4) }
    requires lanes { LanesStand A.words labels.old lanes }
    requires standing { AreStanding A.words labels.old places.now }
    ensures { IfOk result (MakesBased A.words labels.old places.now base size lanes labels.new) }
{
    if places.is_clean(base) {
        return Ok(lanes);
    }
    based(labels, places, base, lanes.extended(size, false))
}

/// What lanes have, together with all lanes of a base register.
fn based<A: Labels>(
    labels: &mut A,
    places: &Places,
    base: u8,
    lanes: Lanes,
) -> Result<Lanes, NoMemory>
    requires base { base < 32 }
    requires lanes { LanesStand A.words labels.old lanes }
    requires standing { AreStanding A.words labels.old places.now }
    ensures { IfOk result (MakesBased A.words labels.old places.now base 4 lanes labels.new) }
{
    let label = register_label(labels, places, base)?;
    unite_lanes(labels, Lanes::alike(label), lanes)
}

/// Lane i comes from byte i, and from the lanes of the base; those above from the highest byte, where it fills them. These are the
/// labels of the four bytes.
#[inline(always)]
fn load_lanes<A: Labels>(
    labels: &mut A,
    places: &mut Places,
    rd: u8,
    base: u8,
    place: u32,
    size: u8,
    fills: bool,
    lanes: Lanes,
) -> Result<(), NoMemory>
    requires registers { (rd < 32) × (base < 32) }
    requires size { (1 ≤ size) × (size ≤ 4) }
    requires lanes { (i : ℕ) → i < 4 → lane_at lanes i ≡ kept places.old (Mem (wrap (place + i))) }
    requires standing { AreStanding A.words labels.old places.old }
    ensures { OnOk result
        (Turns A.words labels.old places.old labels.new places.new (Shape.Load rd base place size fills)) }
{
    let lanes = add_base(labels, places, base, size, lanes)?;
    places.put_lanes(rd, lanes.extended(size, fills));
    Ok(())
}

/// The same, where the bytes lie in any lines.
#[inline(never)]
fn load_anywhere<A: Labels>(
    labels: &mut A,
    places: &mut Places,
    rd: u8,
    base: u8,
    place: u32,
    size: u8,
    fills: bool,
) -> Result<(), NoMemory>
    requires registers { (rd < 32) × (base < 32) }
    requires size { (1 ≤ size) × (size ≤ 4) }
    requires standing { AreStanding A.words labels.old places.old }
    ensures { OnOk result
        (Turns A.words labels.old places.old labels.new places.new (Shape.Load rd base place size fills)) }
{
    let lanes = places.word(place);
    load_lanes(labels, places, rd, base, place, size, fills, lanes)
}

/// The same. Where the base has no label, and the bytes lie in one line that was made, it is done where it is called.
#[inline(always)]
pub(crate) fn turn_by_load<A: Labels>(
    labels: &mut A,
    places: &mut Places,
    rd: u8,
    base: u8,
    place: u32,
    size: u8,
    fills: bool,
) -> Result<(), NoMemory>
    requires registers { (rd < 32) × (base < 32) }
    requires size { (1 ≤ size) × (size ≤ 4) }
    requires standing { AreStanding A.words labels.old places.old }
    ensures { OnOk result
        (Turns A.words labels.old places.old labels.new places.new (Shape.Load rd base place size fills)) }
{
    if !places.is_clean(base) {
        return load_anywhere(labels, places, rd, base, place, size, fills);
    }
    let Some(lanes) = places.made_word(place) else {
        return load_anywhere(labels, places, rd, base, place, size, fills);
    };
    if lanes.are_clean() {
        places.clear(rd);
        return Ok(());
    }
    load_lanes(labels, places, rd, base, place, size, fills, lanes)
}

/// Byte i comes from lane i of a register, and from the lanes of the base.
#[inline(always)]
fn store_lanes<A: Labels>(
    labels: &mut A,
    places: &mut Places,
    rs: u8,
    base: u8,
    place: u32,
    size: u8,
) -> Result<(), NoMemory>
    requires registers { (rs < 32) × (base < 32) }
    requires size { (1 ≤ size) × (size ≤ 4) }
    requires standing { AreStanding A.words labels.old places.old }
    ensures { OnOk result (Turns A.words labels.old places.old labels.new places.new (Shape.Store rs base place size)) }
{
    let lanes = add_base(labels, places, base, size, places.lanes(rs))?;
    places.set_word(place, size, lanes)
}

/// The same, where the base may have labels.
#[inline(never)]
fn store_by_base<A: Labels>(
    labels: &mut A,
    places: &mut Places,
    rs: u8,
    base: u8,
    place: u32,
    size: u8,
) -> Result<(), NoMemory>
    requires registers { (rs < 32) × (base < 32) }
    requires size { (1 ≤ size) × (size ≤ 4) }
    requires standing { AreStanding A.words labels.old places.old }
    ensures { OnOk result (Turns A.words labels.old places.old labels.new places.new (Shape.Store rs base place size)) }
{
    store_lanes(labels, places, rs, base, place, size)
}

/// The same. Where the base has no label, it is done where it is called.
#[inline(always)]
pub(crate) fn turn_by_store<A: Labels>(
    labels: &mut A,
    places: &mut Places,
    rs: u8,
    base: u8,
    place: u32,
    size: u8,
) -> Result<(), NoMemory>
    requires registers { (rs < 32) × (base < 32) }
    requires size { (1 ≤ size) × (size ≤ 4) }
    requires standing { AreStanding A.words labels.old places.old }
    ensures { OnOk result (Turns A.words labels.old places.old labels.new places.new (Shape.Store rs base place size)) }
{
    if !places.is_clean(base) {
        return store_by_base(labels, places, rs, base, place, size);
    }
    if places.is_clean(rs) && places.is_clean_word(place) {
        return Ok(());
    }
    store_lanes(labels, places, rs, base, place, size)
}

/// Goes on by the flow of an instruction. Each flow that takes more than a copy is a function of its own, so that the loop
/// over the steps holds no room for its labels; loads and stores too, which such a loop turns by calls of their own.
#[inline(always)]
pub(crate) fn turn_by_shape<A: Labels>(
    labels: &mut A,
    places: &mut Places,
    shape: Shape,
) -> Result<(), NoMemory>
    requires registers { HasRegisters shape }
    requires sizes { HasSizes shape }
    requires standing { AreStanding A.words labels.old places.old }
    ensures { OnOk result (Turns A.words labels.old places.old labels.new places.new shape) }
{
    match shape {
        Shape::Nothing => Ok(()),
        Shape::Clear { rd } => {
            places.clear(rd);
            Ok(())
        }
        Shape::Move { rd, rs } => {
            places.copy_lanes(rd, rs);
            Ok(())
        }
        Shape::Shuffled { shuffle, rd, rs } => {
            places.shuffle_lanes(rd, rs, shuffle);
            Ok(())
        }
        Shape::Mixed {
            mixing,
            rd,
            rs1,
            rs2,
        } => mix(labels, places, mixing, rd, rs1, rs2),
        Shape::Load {
            rd,
            base,
            place,
            size,
            fills,
        } => load_anywhere(labels, places, rd, base, place, size, fills),
        Shape::Store {
            rs,
            base,
            place,
            size,
        } => store_by_base(labels, places, rs, base, place, size),
    }
}
