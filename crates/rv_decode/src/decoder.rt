//! From words to instructions.

ghost use Rattle.std.specs.Prelude.{◌≡◌, Some, None, IfSome};
ghost use Rattle.isa.specs.Words.{funct3, funct7, branches, loads, stores, immediates, shifts, operations, immediate, looked_up, funct7_funct3, opcode, instruction_of};
ghost use Rattle.isa.specs.Encodings.{Fits, encoding};

use crate::fields::{
    ALTERNATE, AUIPC, BRANCH, JAL, JALR, LOAD, LUI, MISC_MEM, MULDIV, OP, OP_IMM, STORE, bits,
    funct3_of, funct7_of, imm_b_of, imm_i_of, imm_j_of, imm_s_of, imm_u_of, opcode_of, rd_of,
    rs1_of, rs2_of,
};
use isa::Instr;

/// "Conditional Branches".
fn branch_of(word: u32) -> Option<Instr>
    ensures { result ≡ looked_up branches (funct3 word) word }
{
    let (rs1, rs2, imm) = (rs1_of(word), rs2_of(word), imm_b_of(word));
    match funct3_of(word) {
        0 => Some(Instr::Beq { rs1, rs2, imm }),
        1 => Some(Instr::Bne { rs1, rs2, imm }),
        4 => Some(Instr::Blt { rs1, rs2, imm }),
        5 => Some(Instr::Bge { rs1, rs2, imm }),
        6 => Some(Instr::Bltu { rs1, rs2, imm }),
        7 => Some(Instr::Bgeu { rs1, rs2, imm }),
        _ => None,
    }
}

/// "Load and Store Instructions": the loads.
fn load_of(word: u32) -> Option<Instr>
    ensures { result ≡ looked_up loads (funct3 word) word }
{
    let (rd, rs1, imm) = (rd_of(word), rs1_of(word), imm_i_of(word));
    match funct3_of(word) {
        0 => Some(Instr::Lb { rd, rs1, imm }),
        1 => Some(Instr::Lh { rd, rs1, imm }),
        2 => Some(Instr::Lw { rd, rs1, imm }),
        4 => Some(Instr::Lbu { rd, rs1, imm }),
        5 => Some(Instr::Lhu { rd, rs1, imm }),
        _ => None,
    }
}

/// "Load and Store Instructions": the stores.
fn store_of(word: u32) -> Option<Instr>
    ensures { result ≡ looked_up stores (funct3 word) word }
{
    let (rs1, rs2, imm) = (rs1_of(word), rs2_of(word), imm_s_of(word));
    match funct3_of(word) {
        0 => Some(Instr::Sb { rs1, rs2, imm }),
        1 => Some(Instr::Sh { rs1, rs2, imm }),
        2 => Some(Instr::Sw { rs1, rs2, imm }),
        _ => None,
    }
}

/// "Integer Register-Immediate Instructions": the shifts, whose amount stands where rs2 does.
fn shift_of(word: u32) -> Option<Instr>
    ensures { result ≡ looked_up shifts (funct7_funct3 word) word }
{
    let (rd, rs1, amount) = (rd_of(word), rs1_of(word), rs2_of(word));
    match (funct7_of(word), funct3_of(word)) {
        (0, 1) => Some(Instr::Slli { rd, rs1, amount }),
        (0, 5) => Some(Instr::Srli { rd, rs1, amount }),
        (ALTERNATE, 5) => Some(Instr::Srai { rd, rs1, amount }),
        _ => None,
    }
}

/// "Integer Register-Immediate Instructions".
fn immediate_of(word: u32) -> Option<Instr>
    ensures { result ≡ immediate word }
{
    let (rd, rs1, imm) = (rd_of(word), rs1_of(word), imm_i_of(word));
    match funct3_of(word) {
        0 => Some(Instr::Addi { rd, rs1, imm }),
        2 => Some(Instr::Slti { rd, rs1, imm }),
        3 => Some(Instr::Sltiu { rd, rs1, imm }),
        4 => Some(Instr::Xori { rd, rs1, imm }),
        6 => Some(Instr::Ori { rd, rs1, imm }),
        7 => Some(Instr::Andi { rd, rs1, imm }),
        _ => shift_of(word),
    }
}

/// "Multiplication Operations" and "Division Operations".
fn muldiv_of(word: u32) -> Option<Instr>
    requires { funct7 word ≡ MULDIV }
    ensures { result ≡ looked_up operations (funct7_funct3 word) word }
{
    let (rd, rs1, rs2) = (rd_of(word), rs1_of(word), rs2_of(word));
    Some(match funct3_of(word) {
        0 => Instr::Mul { rd, rs1, rs2 },
        1 => Instr::Mulh { rd, rs1, rs2 },
        2 => Instr::Mulhsu { rd, rs1, rs2 },
        3 => Instr::Mulhu { rd, rs1, rs2 },
        4 => Instr::Div { rd, rs1, rs2 },
        5 => Instr::Divu { rd, rs1, rs2 },
        6 => Instr::Rem { rd, rs1, rs2 },
        _ => Instr::Remu { rd, rs1, rs2 },
    })
}

/// "Integer Register-Register Operations".
fn operation_of(word: u32) -> Option<Instr>
    ensures { result ≡ looked_up operations (funct7_funct3 word) word }
{
    let (rd, rs1, rs2) = (rd_of(word), rs1_of(word), rs2_of(word));
    match (funct7_of(word), funct3_of(word)) {
        (0, 0) => Some(Instr::Add { rd, rs1, rs2 }),
        (ALTERNATE, 0) => Some(Instr::Sub { rd, rs1, rs2 }),
        (0, 1) => Some(Instr::Sll { rd, rs1, rs2 }),
        (0, 2) => Some(Instr::Slt { rd, rs1, rs2 }),
        (0, 3) => Some(Instr::Sltu { rd, rs1, rs2 }),
        (0, 4) => Some(Instr::Xor { rd, rs1, rs2 }),
        (0, 5) => Some(Instr::Srl { rd, rs1, rs2 }),
        (ALTERNATE, 5) => Some(Instr::Sra { rd, rs1, rs2 }),
        (0, 6) => Some(Instr::Or { rd, rs1, rs2 }),
        (0, 7) => Some(Instr::And { rd, rs1, rs2 }),
        (MULDIV, _) => muldiv_of(word),
        _ => None,
    }
}

/// "RV32 base opcode map".
#[inline(always)]
fn by_opcode(word: u32) -> Option<Instr>
    ensures { result ≡ instruction_of word }
{
    match opcode_of(word) {
        LUI => Some(Instr::Lui {
            rd: rd_of(word),
            imm: imm_u_of(word),
        }),
        AUIPC => Some(Instr::Auipc {
            rd: rd_of(word),
            imm: imm_u_of(word),
        }),
        JAL => Some(Instr::Jal {
            rd: rd_of(word),
            imm: imm_j_of(word),
        }),
        JALR if funct3_of(word) == 0 => {
            Some(Instr::Jalr {
                rd: rd_of(word),
                rs1: rs1_of(word),
                imm: imm_i_of(word),
            })
        }
        BRANCH => branch_of(word),
        LOAD => load_of(word),
        STORE => store_of(word),
        OP_IMM => immediate_of(word),
        OP => operation_of(word),
        MISC_MEM if funct3_of(word) == 0 => {
            Some(Instr::Fence {
                kept: (bits(word, 15, 17) << 5) + bits(word, 7, 5),
            })
        }
        _ => match word {
            0x0000_0073 => Some(Instr::Ecall),
            0x0010_0073 => Some(Instr::Ebreak),
            _ => None,
        },
    }
}

/// The instruction that a word stands for, or None where the word is illegal.
///
/// "RV32I Base Integer Instruction Set" and "'M' Extension for Integer Multiplication and Division" of the RISC-V
/// Unprivileged ISA manual. The instruction fits (`Instr::fits`), and `encode` of it is the word.
#[tactic(auto, using(crate::proofs::Read::written_back))]
#[inline(always)]
pub fn decode(word: u32) -> Option<Instr>
    ensures is { result ≡ instruction_of word }
    ensures encodes_back { IfSome result (λ i. Fits i × (encoding i ≡ word)) }
{
    by_opcode(word)
}
