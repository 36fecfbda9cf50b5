//! The registers that an instruction moves values between, as a word with a bit for each.

ghost use Rattle.std.specs.Prelude.{◌≡◌, ◌<◌};
ghost use Rattle.isa.specs.Encodings.{Fits};
ghost use Rattle.rv_decode.specs.Registers.{register_bit, two_bits, three_bits, registers_of};

use isa::Instr;

/// The bit of a register; x0 has none.
fn register_bit(number: u8) -> u32
    requires { number < 32 }
    ensures { result ≡ register_bit number }
{
    if number == 0 { 0 } else { 1 << number }
}

fn two_bits(rd: u8, rs1: u8) -> u32
    requires set { rd < 32 }
    requires read { rs1 < 32 }
    ensures { result ≡ two_bits rd rs1 }
{
    register_bit(rd) | register_bit(rs1)
}

fn three_bits(rd: u8, rs1: u8, rs2: u8) -> u32
    requires set { rd < 32 }
    requires first { rs1 < 32 }
    requires second { rs2 < 32 }
    ensures { result ≡ three_bits rd rs1 rs2 }
{
    register_bit(rd) | (register_bit(rs1) | register_bit(rs2))
}

/// Which registers an instruction moves values between, a bit for each: bit r of the register r that it sets and of those
/// from which it computes what it sets. x0 has no bit. Loads and stores have none, nor do branches, FENCE, ECALL and
/// EBREAK.
pub fn registers_of(instr: &Instr) -> u32
    requires { Fits instr.now }
    ensures { result ≡ registers_of instr.now }
{
    match *instr {
        Instr::Lui { rd, .. }
        | Instr::Auipc { rd, .. }
        | Instr::Jal { rd, .. }
        | Instr::Jalr { rd, .. } => register_bit(rd),
        Instr::Addi { rd, rs1, .. }
        | Instr::Slti { rd, rs1, .. }
        | Instr::Sltiu { rd, rs1, .. }
        | Instr::Xori { rd, rs1, .. }
        | Instr::Ori { rd, rs1, .. }
        | Instr::Andi { rd, rs1, .. }
        | Instr::Slli { rd, rs1, .. }
        | Instr::Srli { rd, rs1, .. }
        | Instr::Srai { rd, rs1, .. } => two_bits(rd, rs1),
        Instr::Add { rd, rs1, rs2 }
        | Instr::Sub { rd, rs1, rs2 }
        | Instr::Sll { rd, rs1, rs2 }
        | Instr::Slt { rd, rs1, rs2 }
        | Instr::Sltu { rd, rs1, rs2 }
        | Instr::Xor { rd, rs1, rs2 }
        | Instr::Srl { rd, rs1, rs2 }
        | Instr::Sra { rd, rs1, rs2 }
        | Instr::Or { rd, rs1, rs2 }
        | Instr::And { rd, rs1, rs2 }
        | Instr::Mul { rd, rs1, rs2 }
        | Instr::Mulh { rd, rs1, rs2 }
        | Instr::Mulhsu { rd, rs1, rs2 }
        | Instr::Mulhu { rd, rs1, rs2 }
        | Instr::Div { rd, rs1, rs2 }
        | Instr::Divu { rd, rs1, rs2 }
        | Instr::Rem { rd, rs1, rs2 }
        | Instr::Remu { rd, rs1, rs2 } => three_bits(rd, rs1, rs2),
        Instr::Lb { .. }
        | Instr::Lh { .. }
        | Instr::Lw { .. }
        | Instr::Lbu { .. }
        | Instr::Lhu { .. }
        | Instr::Sb { .. }
        | Instr::Sh { .. }
        | Instr::Sw { .. }
        | Instr::Beq { .. }
        | Instr::Bne { .. }
        | Instr::Blt { .. }
        | Instr::Bge { .. }
        | Instr::Bltu { .. }
        | Instr::Bgeu { .. }
        | Instr::Fence { .. }
        | Instr::Ecall
        | Instr::Ebreak => 0,
    }
}
