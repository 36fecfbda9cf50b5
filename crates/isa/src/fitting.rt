//! Which instructions have a word.

ghost use Rattle.std.specs.Prelude.{◌≡◌, ◌^◌, ◌%◌, ◌≤◌, IsTrue, ◌↔◌, pos, neg_ℤ, ◌≤ℤ◌, ◌<ℤ◌};
ghost use Rattle.isa.specs.Encodings.{low, IsRegister, IsImmediate, FitsBranch, FitsSmallImmediate, FitsThree, Fits};
ghost use Rattle.isa.specs.Operands.{FitsOperands};

use crate::Instr;

fn is_register(number: u8) -> bool
    ensures { IsTrue result ↔ IsRegister number }
{
    number < 32
}

fn is_within(imm: i32, limit: u32) -> bool
    ensures { IsTrue result ↔ (neg_ℤ (pos limit) ≤ℤ imm) × (imm <ℤ pos limit) }
{
    let (value, limit) = (i64::from(imm), i64::from(limit));
    -limit <= value && value < limit
}

fn is_multiple(imm: i32, unit: u32) -> bool
    requires { 1 ≤ unit }
    ensures { IsTrue result ↔ (low 32 imm % unit ≡ 0) }
{
    imm.cast_unsigned() % unit == 0
}

/// Whether an immediate lies in -limit up to, and without, limit, and is a multiple of unit.
fn is_immediate(imm: i32, limit: u32, unit: u32) -> bool
    requires { 1 ≤ unit }
    ensures { IsTrue result ↔ (neg_ℤ (pos limit) ≤ℤ imm) × (imm <ℤ pos limit) × (low 32 imm % unit ≡ 0) }
{
    is_within(imm, limit) && is_multiple(imm, unit)
}

fn fits_branch(rs1: u8, rs2: u8, imm: i32) -> bool
    ensures { IsTrue result ↔ FitsBranch rs1 rs2 imm }
{
    is_register(rs1) && is_register(rs2) && is_immediate(imm, 1 << 12, 2)
}

fn fits_small_immediate(a: u8, b: u8, imm: i32) -> bool
    ensures { IsTrue result ↔ FitsSmallImmediate a b imm }
{
    is_register(a) && is_register(b) && is_immediate(imm, 1 << 11, 1)
}

fn fits_upper(rd: u8, imm: i32) -> bool
    ensures { IsTrue result ↔ IsRegister rd × IsImmediate 32 (2 ^ 12) imm }
{
    is_register(rd) && is_immediate(imm, 1 << 31, 1 << 12)
}

fn fits_three(a: u8, b: u8, c: u8) -> bool
    ensures { IsTrue result ↔ FitsThree a b c }
{
    is_register(a) && is_register(b) && is_register(c)
}

/// The operands of an instruction, by what its word has room for.
enum Operands {
    /// A register, and the upper 20 bits of an immediate.
    Upper(u8, i32),
    /// A register, and how far a jump goes.
    Jump(u8, i32),
    /// Two registers, and how far a branch goes.
    Branch(u8, u8, i32),
    /// Two registers, and an immediate of 12 bits.
    SmallImmediate(u8, u8, i32),
    /// Three registers, or two and a shift amount.
    Three(u8, u8, u8),
    /// What a fence keeps.
    Kept(u32),
    Nothing,
}

impl Operands {
    /// Whether the operands have room in a word.
    fn fit(self) -> bool
        ensures { IsTrue result ↔ FitsOperands self }
    {
        match self {
            Operands::Upper(rd, imm) => fits_upper(rd, imm),
            Operands::Jump(rd, imm) => is_register(rd) && is_immediate(imm, 1 << 20, 2),
            Operands::Branch(rs1, rs2, imm) => fits_branch(rs1, rs2, imm),
            Operands::SmallImmediate(a, b, imm) => fits_small_immediate(a, b, imm),
            Operands::Three(a, b, c) => fits_three(a, b, c),
            Operands::Kept(kept) => kept < 1 << 22,
            Operands::Nothing => true,
        }
    }
}

impl Instr {
    /// Whether some word stands for the instruction: its registers and shift amounts are below 32, its
    /// immediate is in the format's range and a multiple of what the format counts in, and a fence keeps
    /// 22 bits ("Immediate Encoding Variants").
    pub fn fits(&self) -> bool
        ensures { IsTrue result ↔ Fits self.now }
    {
        self.operands().fit()
    }

    /// The operands, by the format that has to have room for them.
    fn operands(&self) -> Operands
        ensures { FitsOperands result ↔ Fits self.now }
    {
        match *self {
            Instr::Lui { rd, imm } => Operands::Upper(rd, imm),
            Instr::Auipc { rd, imm } => Operands::Upper(rd, imm),
            Instr::Jal { rd, imm } => Operands::Jump(rd, imm),
            Instr::Jalr { rd, rs1, imm } => Operands::SmallImmediate(rd, rs1, imm),
            Instr::Beq { rs1, rs2, imm } => Operands::Branch(rs1, rs2, imm),
            Instr::Bne { rs1, rs2, imm } => Operands::Branch(rs1, rs2, imm),
            Instr::Blt { rs1, rs2, imm } => Operands::Branch(rs1, rs2, imm),
            Instr::Bge { rs1, rs2, imm } => Operands::Branch(rs1, rs2, imm),
            Instr::Bltu { rs1, rs2, imm } => Operands::Branch(rs1, rs2, imm),
            Instr::Bgeu { rs1, rs2, imm } => Operands::Branch(rs1, rs2, imm),
            Instr::Lb { rd, rs1, imm } => Operands::SmallImmediate(rd, rs1, imm),
            Instr::Lh { rd, rs1, imm } => Operands::SmallImmediate(rd, rs1, imm),
            Instr::Lw { rd, rs1, imm } => Operands::SmallImmediate(rd, rs1, imm),
            Instr::Lbu { rd, rs1, imm } => Operands::SmallImmediate(rd, rs1, imm),
            Instr::Lhu { rd, rs1, imm } => Operands::SmallImmediate(rd, rs1, imm),
            Instr::Sb { rs1, rs2, imm } => Operands::SmallImmediate(rs1, rs2, imm),
            Instr::Sh { rs1, rs2, imm } => Operands::SmallImmediate(rs1, rs2, imm),
            Instr::Sw { rs1, rs2, imm } => Operands::SmallImmediate(rs1, rs2, imm),
            Instr::Addi { rd, rs1, imm } => Operands::SmallImmediate(rd, rs1, imm),
            Instr::Slti { rd, rs1, imm } => Operands::SmallImmediate(rd, rs1, imm),
            Instr::Sltiu { rd, rs1, imm } => Operands::SmallImmediate(rd, rs1, imm),
            Instr::Xori { rd, rs1, imm } => Operands::SmallImmediate(rd, rs1, imm),
            Instr::Ori { rd, rs1, imm } => Operands::SmallImmediate(rd, rs1, imm),
            Instr::Andi { rd, rs1, imm } => Operands::SmallImmediate(rd, rs1, imm),
            Instr::Slli { rd, rs1, amount }
            | Instr::Srli { rd, rs1, amount }
            | Instr::Srai { rd, rs1, amount } => Operands::Three(rd, rs1, amount),
            Instr::Add { rd, rs1, rs2 }
            | Instr::Sub { rd, rs1, rs2 }
            | Instr::Sll { rd, rs1, rs2 }
            | Instr::Slt { rd, rs1, rs2 }
            | Instr::Sltu { rd, rs1, rs2 }
            | Instr::Xor { rd, rs1, rs2 }
            | Instr::Srl { rd, rs1, rs2 }
            | Instr::Sra { rd, rs1, rs2 }
            | Instr::Or { rd, rs1, rs2 }
            | Instr::And { rd, rs1, rs2 }
            | Instr::Mul { rd, rs1, rs2 }
            | Instr::Mulh { rd, rs1, rs2 }
            | Instr::Mulhsu { rd, rs1, rs2 }
            | Instr::Mulhu { rd, rs1, rs2 }
            | Instr::Div { rd, rs1, rs2 }
            | Instr::Divu { rd, rs1, rs2 }
            | Instr::Rem { rd, rs1, rs2 }
            | Instr::Remu { rd, rs1, rs2 } => Operands::Three(rd, rs1, rs2),
            Instr::Fence { kept } => Operands::Kept(kept),
            Instr::Ecall | Instr::Ebreak => Operands::Nothing,
        }
    }
}
