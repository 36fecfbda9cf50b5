//! From instructions to words.

ghost use Rattle.std.specs.Prelude.{◌≡◌, ℕ, ◌+◌, ◌*◌, ◌/◌, ◌%◌, ◌^◌, ◌<◌, ◌≤◌, Some};
ghost use Rattle.isa.specs.Words.{field, instruction_of};
ghost use Rattle.isa.specs.Encodings.{Fits, FitsThree, FitsSmallImmediate, FitsBranch, encoding, low, fields, i_form, s_form, b_form, u_form, j_form, r_form};

use crate::fields::{
    ALTERNATE, AUIPC, BRANCH, JAL, JALR, LOAD, LUI, MISC_MEM, MULDIV, OP, OP_IMM, STORE, bits,
};
use isa::Instr;

/// The low `width` bits of an immediate.
fn low_bits(imm: i32, width: u32) -> u32
    requires { width < 32 }
    ensures { result ≡ low width imm }
{
    bits(imm.cast_unsigned(), 0, width)
}

fn fields_word(opcode: u8, rd: u8, funct3: u8, rs1: u8, rs2: u8, funct7: u8) -> u32
    requires opcode_fits { opcode < 128 }
    requires rd_fits { rd < 32 }
    requires funct3_fits { funct3 < 8 }
    requires rs1_fits { rs1 < 32 }
    requires rs2_fits { rs2 < 32 }
    requires funct7_fits { funct7 < 128 }
    ensures { result ≡ fields opcode rd funct3 rs1 rs2 funct7 }
{
    u32::from(opcode)
        + (u32::from(rd) << 7)
        + (u32::from(funct3) << 12)
        + (u32::from(rs1) << 15)
        + (u32::from(rs2) << 20)
        + (u32::from(funct7) << 25)
}

fn r_word(funct3: u8, rd: u8, rs1: u8, rs2: u8, funct7: u8) -> u32
    requires functs_fit { (funct3 < 8) × (funct7 < 128) }
    requires registers_fit { FitsThree rd rs1 rs2 }
    ensures { result ≡ r_form funct3 rd rs1 rs2 funct7 }
{
    fields_word(OP, rd, funct3, rs1, rs2, funct7)
}

/// A shift by an immediate has its amount in place of a second register.
fn shift_word(funct3: u8, rd: u8, rs1: u8, amount: u8, funct7: u8) -> u32
    requires functs_fit { (funct3 < 8) × (funct7 < 128) }
    requires operands_fit { FitsThree rd rs1 amount }
    ensures { result ≡ fields 0b0010011 rd funct3 rs1 amount funct7 }
{
    fields_word(OP_IMM, rd, funct3, rs1, amount, funct7)
}

fn i_word(opcode: u8, funct3: u8, rd: u8, rs1: u8, imm: i32) -> u32
    requires codes_fit { (opcode < 128) × (funct3 < 8) }
    requires operands_fit { FitsSmallImmediate rd rs1 imm }
    ensures { result ≡ i_form opcode funct3 rd rs1 imm }
{
    fields_word(opcode, rd, funct3, rs1, 0, 0) + (low_bits(imm, 12) << 20)
}

fn s_word(funct3: u8, rs1: u8, rs2: u8, imm: i32) -> u32
    requires funct3_fits { funct3 < 8 }
    requires operands_fit { FitsSmallImmediate rs1 rs2 imm }
    ensures { result ≡ s_form funct3 rs1 rs2 imm }
{
    let value = low_bits(imm, 12);
    fields_word(
        STORE,
        bits(value, 0, 5) as u8,
        funct3,
        rs1,
        rs2,
        bits(value, 5, 7) as u8,
    )
}

fn b_word(funct3: u8, rs1: u8, rs2: u8, imm: i32) -> u32
    requires funct3_fits { funct3 < 8 }
    requires operands_fit { FitsBranch rs1 rs2 imm }
    ensures { result ≡ b_form funct3 rs1 rs2 imm }
{
    let value = low_bits(imm, 13);
    let below = (bits(value, 1, 4) << 1) + bits(value, 11, 1);
    let above = (bits(value, 12, 1) << 6) + bits(value, 5, 6);
    fields_word(BRANCH, below as u8, funct3, rs1, rs2, above as u8)
}

fn u_word(opcode: u8, rd: u8, imm: i32) -> u32
    requires opcode_fits { opcode < 128 }
    requires rd_fits { rd < 32 }
    ensures { result ≡ u_form opcode rd imm }
{
    u32::from(opcode) + (u32::from(rd) << 7) + (bits(imm.cast_unsigned(), 12, 20) << 12)
}

fn j_word(rd: u8, imm: i32) -> u32
    requires rd_fits { rd < 32 }
    ensures { result ≡ j_form rd imm }
{
    let value = low_bits(imm, 21);
    u32::from(JAL)
        + (u32::from(rd) << 7)
        + (bits(value, 12, 8) << 12)
        + (bits(value, 11, 1) << 20)
        + (bits(value, 1, 10) << 21)
        + (bits(value, 20, 1) << 31)
}

/// The bits that a fence keeps go where they were taken from.
fn fence_word(kept: u32) -> u32
    requires { kept < 2 ^ 22 }
    ensures { result ≡ encoding (Instr.Fence kept) }
{
    u32::from(MISC_MEM) + (bits(kept, 0, 5) << 7) + (bits(kept, 5, 17) << 15)
}

fn word_of(instr: &Instr) -> u32
    requires { Fits instr.now }
    ensures { result ≡ encoding instr.now }
{
    match *instr {
        Instr::Lui { rd, imm } => u_word(LUI, rd, imm),
        Instr::Auipc { rd, imm } => u_word(AUIPC, rd, imm),
        Instr::Jal { rd, imm } => j_word(rd, imm),
        Instr::Jalr { rd, rs1, imm } => i_word(JALR, 0, rd, rs1, imm),
        Instr::Beq { rs1, rs2, imm } => b_word(0, rs1, rs2, imm),
        Instr::Bne { rs1, rs2, imm } => b_word(1, rs1, rs2, imm),
        Instr::Blt { rs1, rs2, imm } => b_word(4, rs1, rs2, imm),
        Instr::Bge { rs1, rs2, imm } => b_word(5, rs1, rs2, imm),
        Instr::Bltu { rs1, rs2, imm } => b_word(6, rs1, rs2, imm),
        Instr::Bgeu { rs1, rs2, imm } => b_word(7, rs1, rs2, imm),
        Instr::Lb { rd, rs1, imm } => i_word(LOAD, 0, rd, rs1, imm),
        Instr::Lh { rd, rs1, imm } => i_word(LOAD, 1, rd, rs1, imm),
        Instr::Lw { rd, rs1, imm } => i_word(LOAD, 2, rd, rs1, imm),
        Instr::Lbu { rd, rs1, imm } => i_word(LOAD, 4, rd, rs1, imm),
        Instr::Lhu { rd, rs1, imm } => i_word(LOAD, 5, rd, rs1, imm),
        Instr::Sb { rs1, rs2, imm } => s_word(0, rs1, rs2, imm),
        Instr::Sh { rs1, rs2, imm } => s_word(1, rs1, rs2, imm),
        Instr::Sw { rs1, rs2, imm } => s_word(2, rs1, rs2, imm),
        Instr::Addi { rd, rs1, imm } => i_word(OP_IMM, 0, rd, rs1, imm),
        Instr::Slti { rd, rs1, imm } => i_word(OP_IMM, 2, rd, rs1, imm),
        Instr::Sltiu { rd, rs1, imm } => i_word(OP_IMM, 3, rd, rs1, imm),
        Instr::Xori { rd, rs1, imm } => i_word(OP_IMM, 4, rd, rs1, imm),
        Instr::Ori { rd, rs1, imm } => i_word(OP_IMM, 6, rd, rs1, imm),
        Instr::Andi { rd, rs1, imm } => i_word(OP_IMM, 7, rd, rs1, imm),
        Instr::Slli { rd, rs1, amount } => shift_word(1, rd, rs1, amount, 0),
        Instr::Srli { rd, rs1, amount } => shift_word(5, rd, rs1, amount, 0),
        Instr::Srai { rd, rs1, amount } => shift_word(5, rd, rs1, amount, ALTERNATE),
        Instr::Add { rd, rs1, rs2 } => r_word(0, rd, rs1, rs2, 0),
        Instr::Sub { rd, rs1, rs2 } => r_word(0, rd, rs1, rs2, ALTERNATE),
        Instr::Sll { rd, rs1, rs2 } => r_word(1, rd, rs1, rs2, 0),
        Instr::Slt { rd, rs1, rs2 } => r_word(2, rd, rs1, rs2, 0),
        Instr::Sltu { rd, rs1, rs2 } => r_word(3, rd, rs1, rs2, 0),
        Instr::Xor { rd, rs1, rs2 } => r_word(4, rd, rs1, rs2, 0),
        Instr::Srl { rd, rs1, rs2 } => r_word(5, rd, rs1, rs2, 0),
        Instr::Sra { rd, rs1, rs2 } => r_word(5, rd, rs1, rs2, ALTERNATE),
        Instr::Or { rd, rs1, rs2 } => r_word(6, rd, rs1, rs2, 0),
        Instr::And { rd, rs1, rs2 } => r_word(7, rd, rs1, rs2, 0),
        Instr::Mul { rd, rs1, rs2 } => r_word(0, rd, rs1, rs2, MULDIV),
        Instr::Mulh { rd, rs1, rs2 } => r_word(1, rd, rs1, rs2, MULDIV),
        Instr::Mulhsu { rd, rs1, rs2 } => r_word(2, rd, rs1, rs2, MULDIV),
        Instr::Mulhu { rd, rs1, rs2 } => r_word(3, rd, rs1, rs2, MULDIV),
        Instr::Div { rd, rs1, rs2 } => r_word(4, rd, rs1, rs2, MULDIV),
        Instr::Divu { rd, rs1, rs2 } => r_word(5, rd, rs1, rs2, MULDIV),
        Instr::Rem { rd, rs1, rs2 } => r_word(6, rd, rs1, rs2, MULDIV),
        Instr::Remu { rd, rs1, rs2 } => r_word(7, rd, rs1, rs2, MULDIV),
        Instr::Fence { kept } => fence_word(kept),
        Instr::Ecall => 0x0000_0073,
        Instr::Ebreak => 0x0010_0073,
    }
}

/// The word that stands for an instruction.
///
/// "Base Instruction Formats" and "Immediate Encoding Variants" of the RISC-V Unprivileged ISA manual. The
/// instruction has to fit (`Instr::fits`), and `decode` of the word is the instruction.
#[tactic(auto, using(crate::proofs::Written::read_back))]
pub fn encode(instr: &Instr) -> u32
    requires { Fits instr.now }
    ensures is { result ≡ encoding instr.now }
    ensures decodes_back { instruction_of result ≡ Some instr.now }
{
    word_of(instr)
}
