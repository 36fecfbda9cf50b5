//! The flow of an instruction, by its shape: the flow table, instruction by instruction.

ghost use Rattle.std.specs.Prelude.{◌≡◌, false};
ghost use Rattle.isa.specs.Encodings.{Fits};
ghost use Rattle.flow_model.specs.Flow as model;
ghost use Rattle.flow_rule.specs.Shapes.{targets_of, HasSizes, HasRegisters, computed_shape, kept_or_computed_shape, moved_shape_or, added_shape, base_of, fills_by};

use crate::shuffle::{Shuffle, moved_left, moved_right, unchanged};
use flow_model::Rule;
use isa::Instr;

/// Which locations' content flows where in one plain step. Registers are below 32; x0 is no target, and has no lanes. A
/// `base` is the register that holds the base address where that counts, and x0
/// elsewhere.
#[derive(Clone, Copy)]
pub enum Shape {
    /// No location changes.
    Nothing,
    /// The lanes of a register become empty.
    Clear {
        rd: u8,
    },
    /// Lane i comes from lane i of a register.
    Move {
        rd: u8,
        rs: u8,
    },
    /// Each lane comes from one lane of a register, or becomes empty.
    Shuffled {
        shuffle: Shuffle,
        rd: u8,
        rs: u8,
    },
    /// The lanes of two registers flow together.
    Mixed {
        mixing: Mixing,
        rd: u8,
        rs1: u8,
        rs2: u8,
    },
    /// Lane i comes from byte i of those at an address, below `size` (1, 2 or 4), and from the lanes of the base. The lanes
    /// above are empty, or come from the highest byte too where the sign fills them.
    Load {
        rd: u8,
        base: u8,
        place: u32,
        size: u8,
        fills: bool,
    },
    /// Byte i of those at an address, below `size` (1, 2 or 4), comes from lane i of a register, and from the lanes of the
    /// base.
    Store {
        rs: u8,
        base: u8,
        place: u32,
        size: u8,
    },
}

/// How the lanes of two registers flow together into those of a third.
#[derive(Clone, Copy)]
pub enum Mixing {
    /// Lane i comes from lane i of both.
    EachLane,
    /// Each lane comes from all lanes of both.
    AllLanes,
    /// Each lane comes from all lanes of the first, which is shifted, and from lane 0 of the second, which has the amount.
    ShiftedLanes,
    /// Lane 0 comes from all lanes of both, and the other lanes become empty.
    FirstLane,
}

/// The shape of an instruction's flow under a rule. `place` is the effective address of a load or a store; the places of
/// their bytes wrap.
#[inline(always)]
pub fn shape_of(instr: &Instr, place: u32, rule: Rule) -> Shape
    ensures targets { targets_of result ≡ model.flow rule instr.now place }
    ensures sizes { HasSizes result }
    ensures registers { Fits instr.now → HasRegisters result }
{
    match *instr {
        Instr::Lw { rd, rs1, .. } => load(rule, rd, rs1, place, 4),
        Instr::Lhu { rd, rs1, .. } => load(rule, rd, rs1, place, 2),
        Instr::Lbu { rd, rs1, .. } => load(rule, rd, rs1, place, 1),
        Instr::Lh { rd, rs1, .. } => signed_load(rule, rd, rs1, place, 2),
        Instr::Lb { rd, rs1, .. } => signed_load(rule, rd, rs1, place, 1),
        Instr::Sw { rs1, rs2, .. } => store(rule, rs1, rs2, place, 4),
        Instr::Sh { rs1, rs2, .. } => store(rule, rs1, rs2, place, 2),
        Instr::Sb { rs1, rs2, .. } => store(rule, rs1, rs2, place, 1),

        Instr::Addi { rd, rs1, imm } => added(rule, rd, rs1, imm),
        Instr::Add { rd, rs1, rs2 } => {
            let sum = mixed(rule, Mixing::AllLanes, rd, rs1, rs2);
            moved_or(rd, rs1, rs2, sum)
        }
        Instr::Or { rd, rs1, rs2 } | Instr::Xor { rd, rs1, rs2 } => {
            let bits = mixed(rule, Mixing::EachLane, rd, rs1, rs2);
            moved_or(rd, rs1, rs2, bits)
        }
        Instr::And { rd, rs1, rs2 } => mixed(rule, Mixing::EachLane, rd, rs1, rs2),
        Instr::Andi { rd, rs1, imm } => bitwise(rule, rd, rs1, unchanged(imm, 0xff)),
        Instr::Ori { rd, rs1, imm } => bitwise(rule, rd, rs1, unchanged(imm, 0)),
        Instr::Xori { rd, rs1, imm } => bitwise(rule, rd, rs1, unchanged(imm, 0)),

        Instr::Sub { rd, rs1, rs2 }
        | Instr::Mul { rd, rs1, rs2 }
        | Instr::Mulh { rd, rs1, rs2 }
        | Instr::Mulhsu { rd, rs1, rs2 }
        | Instr::Mulhu { rd, rs1, rs2 }
        | Instr::Div { rd, rs1, rs2 }
        | Instr::Divu { rd, rs1, rs2 }
        | Instr::Rem { rd, rs1, rs2 }
        | Instr::Remu { rd, rs1, rs2 } => mixed(rule, Mixing::AllLanes, rd, rs1, rs2),
        Instr::Slli { rd, rs1, amount } => shifted(rule, rd, rs1, moved_left(amount)),
        Instr::Srli { rd, rs1, amount } | Instr::Srai { rd, rs1, amount } => {
            shifted(rule, rd, rs1, moved_right(amount))
        }
        Instr::Sll { rd, rs1, rs2 } | Instr::Srl { rd, rs1, rs2 } | Instr::Sra { rd, rs1, rs2 } => {
            mixed(rule, Mixing::ShiftedLanes, rd, rs1, rs2)
        }
        Instr::Slt { rd, rs1, rs2 } | Instr::Sltu { rd, rs1, rs2 } => mixed(
            rule,
            Mixing::FirstLane,
            rd,
            rs1,
            rs2,
        ),
        Instr::Slti { rd, rs1, .. } | Instr::Sltiu { rd, rs1, .. } => {
            mixed(rule, Mixing::FirstLane, rd, rs1, 0)
        }

        Instr::Lui { rd, .. }
        | Instr::Auipc { rd, .. }
        | Instr::Jal { rd, .. }
        | Instr::Jalr { rd, .. } => { Shape::Clear { rd } }
        Instr::Beq { .. }
        | Instr::Bne { .. }
        | Instr::Blt { .. }
        | Instr::Bge { .. }
        | Instr::Bltu { .. }
        | Instr::Bgeu { .. }
        | Instr::Fence { .. }
        | Instr::Ecall
        | Instr::Ebreak => Shape::Nothing,
    }
}

/// What is computed does not flow under [`Rule::Copy`] and [`Rule::Keep`].
fn computed(rule: Rule, rd: u8, shape: Shape) -> Shape
    ensures { result ≡ computed_shape rule rd shape }
{
    match rule {
        Rule::Copy | Rule::Keep => Shape::Clear { rd },
        Rule::Compute | Rule::Index => shape,
    }
}

/// The lanes that are kept whole flow under [`Rule::Keep`].
#[inline(always)]
fn kept_or_computed(rule: Rule, rd: u8, rs: u8, kept: Shuffle, shape: Shape) -> Shape
    ensures { result ≡ kept_or_computed_shape rule rd rs kept shape }
{
    match rule {
        Rule::Copy => Shape::Clear { rd },
        Rule::Keep => Shape::Shuffled {
            shuffle: kept,
            rd,
            rs,
        },
        Rule::Compute | Rule::Index => shape,
    }
}

/// A bitwise operation with an immediate is computed lane by lane.
#[inline(always)]
fn bitwise(rule: Rule, rd: u8, rs1: u8, kept: Shuffle) -> Shape
    ensures { result ≡ kept_or_computed_shape rule rd rs1 kept (Shape.Move rd rs1) }
{
    kept_or_computed(rule, rd, rs1, kept, Shape::Move { rd, rs: rs1 })
}

/// A shift by an immediate is computed from all lanes.
#[inline(always)]
fn shifted(rule: Rule, rd: u8, rs1: u8, kept: Shuffle) -> Shape
    ensures { result ≡ kept_or_computed_shape rule rd rs1 kept (Shape.Mixed Mixing.AllLanes rd rs1 0) }
{
    let shape = Shape::Mixed {
        mixing: Mixing::AllLanes,
        rd,
        rs1,
        rs2: 0,
    };
    kept_or_computed(rule, rd, rs1, kept, shape)
}

/// What flows together is computed.
fn mixed(rule: Rule, mixing: Mixing, rd: u8, rs1: u8, rs2: u8) -> Shape
    ensures { result ≡ computed_shape rule rd (Shape.Mixed mixing rd rs1 rs2) }
{
    let shape = Shape::Mixed {
        mixing,
        rd,
        rs1,
        rs2,
    };
    computed(rule, rd, shape)
}

/// With x0 as a source the instruction is a move of the other one.
fn moved_or(rd: u8, rs1: u8, rs2: u8, otherwise: Shape) -> Shape
    ensures { result ≡ moved_shape_or rd rs1 rs2 otherwise }
{
    if rs1 == 0 {
        Shape::Move { rd, rs: rs2 }
    } else if rs2 == 0 {
        Shape::Move { rd, rs: rs1 }
    } else {
        otherwise
    }
}

/// With an immediate of 0 an addition is a move.
fn added(rule: Rule, rd: u8, rs1: u8, imm: i32) -> Shape
    ensures { result ≡ added_shape rule rd rs1 imm }
{
    if imm == 0 {
        Shape::Move { rd, rs: rs1 }
    } else {
        mixed(rule, Mixing::AllLanes, rd, rs1, 0)
    }
}

/// The lanes above the bytes become empty.
fn load(rule: Rule, rd: u8, rs1: u8, place: u32, size: u8) -> Shape
    ensures { result ≡ Shape.Load rd (base_of rule rs1) place size false }
{
    Shape::Load {
        rd,
        base: counted_base(rule, rs1),
        place,
        size,
        fills: false,
    }
}

/// The lanes above the bytes are computed from the highest one.
fn signed_load(rule: Rule, rd: u8, rs1: u8, place: u32, size: u8) -> Shape
    ensures { result ≡ Shape.Load rd (base_of rule rs1) place size (fills_by rule) }
{
    Shape::Load {
        rd,
        base: counted_base(rule, rs1),
        place,
        size,
        fills: fills_above(rule),
    }
}

fn store(rule: Rule, rs1: u8, rs2: u8, place: u32, size: u8) -> Shape
    ensures { result ≡ Shape.Store rs2 (base_of rule rs1) place size }
{
    Shape::Store {
        rs: rs2,
        base: counted_base(rule, rs1),
        place,
        size,
    }
}

/// The register that holds the base address, where it counts: under [`Rule::Index`] alone. Elsewhere it is x0.
#[inline(always)]
pub fn counted_base(rule: Rule, rs1: u8) -> u8
    ensures { result ≡ base_of rule rs1 }
{
    match rule {
        Rule::Copy | Rule::Keep | Rule::Compute => 0,
        Rule::Index => rs1,
    }
}

/// Whether the lanes above the bytes of a load that extends the sign come from the highest byte.
#[inline(always)]
pub fn fills_above(rule: Rule) -> bool
    ensures { result ≡ fills_by rule }
{
    match rule {
        Rule::Copy | Rule::Keep => false,
        Rule::Compute | Rule::Index => true,
    }
}
