//! The locations that decide where a step goes, besides the bytes of its instruction.

ghost use Rattle.std.specs.Prelude.{◌≡◌, ◌≤◌, ◌++◌, [], length};
ghost use Rattle.flow_rule.specs.Locations.{locs_of, four_lanes};
ghost use Rattle.decision_find.specs.Decides as model;
ghost use Rattle.flow_model.specs.declared.Loc.TheVariants.{Reg};
ghost use Rattle.decision_find.specs.Deciding.{deciding_locs};

use flow_model::{Loc, Rule};
use flow_rule::Locations;
use isa::{CallKind, Instr};

/// At most sixteen locations, ascending and each once: lanes of two registers at most, or what a call asks.
#[derive(Clone, Copy)]
pub enum DecidingLocations {
    Few(Locations),
    /// The number alone.
    Number([Loc; 4]),
    /// The number, and the exit's code.
    Code([Loc; 8]),
    /// The number, and three arguments.
    Arguments([Loc; 16]),
}

impl DecidingLocations {
    pub fn as_slice(&self) -> &[Loc]
        ensures value { result.now ≡ deciding_locs self.now }
        ensures short { length result.now ≤ 16 }
    {
        match self {
            DecidingLocations::Few(locs) => locs.as_slice(),
            DecidingLocations::Number(locs) => locs,
            DecidingLocations::Code(locs) => locs,
            DecidingLocations::Arguments(locs) => locs,
        }
    }
}

/// What decides where an instruction goes, where a call would be of this kind.
pub fn decisions_of(rule: Rule, kind: CallKind, instr: &Instr) -> DecidingLocations
    ensures { deciding_locs result ≡ model.decides rule kind instr.now }
{
    match *instr {
        Instr::Beq { rs1, rs2, .. }
        | Instr::Bne { rs1, rs2, .. }
        | Instr::Blt { rs1, rs2, .. }
        | Instr::Bge { rs1, rs2, .. }
        | Instr::Bltu { rs1, rs2, .. }
        | Instr::Bgeu { rs1, rs2, .. } => DecidingLocations::Few(Locations::all_lanes(rs1, rs2)),
        Instr::Jalr { rs1, .. }
        | Instr::Sb { rs1, .. }
        | Instr::Sh { rs1, .. }
        | Instr::Sw { rs1, .. } => DecidingLocations::Few(Locations::lanes(rs1)),
        Instr::Lb { rs1, .. }
        | Instr::Lh { rs1, .. }
        | Instr::Lw { rs1, .. }
        | Instr::Lbu { rs1, .. }
        | Instr::Lhu { rs1, .. } => DecidingLocations::Few(base_of_load(rule, rs1)),
        Instr::Ecall => asked(kind),
        Instr::Lui { .. }
        | Instr::Auipc { .. }
        | Instr::Jal { .. }
        | Instr::Addi { .. }
        | Instr::Slti { .. }
        | Instr::Sltiu { .. }
        | Instr::Xori { .. }
        | Instr::Ori { .. }
        | Instr::Andi { .. }
        | Instr::Slli { .. }
        | Instr::Srli { .. }
        | Instr::Srai { .. }
        | Instr::Add { .. }
        | Instr::Sub { .. }
        | Instr::Sll { .. }
        | Instr::Slt { .. }
        | Instr::Sltu { .. }
        | Instr::Xor { .. }
        | Instr::Srl { .. }
        | Instr::Sra { .. }
        | Instr::Or { .. }
        | Instr::And { .. }
        | Instr::Mul { .. }
        | Instr::Mulh { .. }
        | Instr::Mulhsu { .. }
        | Instr::Mulhu { .. }
        | Instr::Div { .. }
        | Instr::Divu { .. }
        | Instr::Rem { .. }
        | Instr::Remu { .. }
        | Instr::Fence { .. }
        | Instr::Ebreak => DecidingLocations::Few(Locations::Empty),
    }
}

/// Under [`Rule::Index`] the address of a load decides nothing.
fn base_of_load(rule: Rule, rs1: u8) -> Locations
    ensures { locs_of result ≡ model.base_of_load rule rs1 }
{
    match rule {
        Rule::Copy | Rule::Keep | Rule::Compute => Locations::lanes(rs1),
        Rule::Index => Locations::Empty,
    }
}

/// The registers of a call.
fn asked(kind: CallKind) -> DecidingLocations
    ensures { deciding_locs result ≡ model.asked kind }
{
    match kind {
        CallKind::Read | CallKind::Write => DecidingLocations::Arguments([
            lane(10, 0),
            lane(10, 1),
            lane(10, 2),
            lane(10, 3),
            lane(11, 0),
            lane(11, 1),
            lane(11, 2),
            lane(11, 3),
            lane(12, 0),
            lane(12, 1),
            lane(12, 2),
            lane(12, 3),
            lane(17, 0),
            lane(17, 1),
            lane(17, 2),
            lane(17, 3),
        ]),
        CallKind::Exit => DecidingLocations::Code([
            lane(10, 0),
            lane(10, 1),
            lane(10, 2),
            lane(10, 3),
            lane(17, 0),
            lane(17, 1),
            lane(17, 2),
            lane(17, 3),
        ]),
        CallKind::Clock | CallKind::Other => DecidingLocations::Number([
            lane(17, 0),
            lane(17, 1),
            lane(17, 2),
            lane(17, 3),
        ]),
    }
}

fn lane(number: u8, lane: u8) -> Loc
    ensures { result ≡ Reg number lane }
{
    Loc::Reg { number, lane }
}
