//! The mnemonics and the operands of the 48 instructions.

ghost use Rattle.std.specs.Prelude.{◌≡◌};
ghost use Rattle.instruction_text.specs.Assembly.{mnemonic_of, operands_of};

use crate::Operands;
use isa::Instr;

/// The mnemonic of an instruction, in lower case.
pub fn mnemonic(instr: &Instr) -> &'static str
    ensures { result.now ≡ mnemonic_of instr.now }
{
    match instr {
        Instr::Lui { .. } => "lui",
        Instr::Auipc { .. } => "auipc",
        Instr::Jal { .. } => "jal",
        Instr::Jalr { .. } => "jalr",
        Instr::Beq { .. } => "beq",
        Instr::Bne { .. } => "bne",
        Instr::Blt { .. } => "blt",
        Instr::Bge { .. } => "bge",
        Instr::Bltu { .. } => "bltu",
        Instr::Bgeu { .. } => "bgeu",
        Instr::Lb { .. } => "lb",
        Instr::Lh { .. } => "lh",
        Instr::Lw { .. } => "lw",
        Instr::Lbu { .. } => "lbu",
        Instr::Lhu { .. } => "lhu",
        Instr::Sb { .. } => "sb",
        Instr::Sh { .. } => "sh",
        Instr::Sw { .. } => "sw",
        Instr::Addi { .. } => "addi",
        Instr::Slti { .. } => "slti",
        Instr::Sltiu { .. } => "sltiu",
        Instr::Xori { .. } => "xori",
        Instr::Ori { .. } => "ori",
        Instr::Andi { .. } => "andi",
        Instr::Slli { .. } => "slli",
        Instr::Srli { .. } => "srli",
        Instr::Srai { .. } => "srai",
        Instr::Add { .. } => "add",
        Instr::Sub { .. } => "sub",
        Instr::Sll { .. } => "sll",
        Instr::Slt { .. } => "slt",
        Instr::Sltu { .. } => "sltu",
        Instr::Xor { .. } => "xor",
        Instr::Srl { .. } => "srl",
        Instr::Sra { .. } => "sra",
        Instr::Or { .. } => "or",
        Instr::And { .. } => "and",
        Instr::Mul { .. } => "mul",
        Instr::Mulh { .. } => "mulh",
        Instr::Mulhsu { .. } => "mulhsu",
        Instr::Mulhu { .. } => "mulhu",
        Instr::Div { .. } => "div",
        Instr::Divu { .. } => "divu",
        Instr::Rem { .. } => "rem",
        Instr::Remu { .. } => "remu",
        Instr::Fence { .. } => "fence",
        Instr::Ecall => "ecall",
        Instr::Ebreak => "ebreak",
    }
}

/// The operands of an instruction.
pub(crate) fn operands_of(instr: &Instr) -> Operands
    ensures { result ≡ operands_of instr.now }
{
    match *instr {
        Instr::Lui { rd, imm } | Instr::Auipc { rd, imm } => Operands::Upper { rd, imm },
        Instr::Jal { rd, imm } => Operands::Jump { rd, distance: imm },
        Instr::Jalr { rd, rs1, imm }
        | Instr::Lb { rd, rs1, imm }
        | Instr::Lh { rd, rs1, imm }
        | Instr::Lw { rd, rs1, imm }
        | Instr::Lbu { rd, rs1, imm }
        | Instr::Lhu { rd, rs1, imm } => Operands::Address {
            register: rd,
            base: rs1,
            imm,
        },
        Instr::Beq { rs1, rs2, imm }
        | Instr::Bne { rs1, rs2, imm }
        | Instr::Blt { rs1, rs2, imm }
        | Instr::Bge { rs1, rs2, imm }
        | Instr::Bltu { rs1, rs2, imm }
        | Instr::Bgeu { rs1, rs2, imm } => Operands::Branch {
            rs1,
            rs2,
            distance: imm,
        },
        Instr::Sb { rs1, rs2, imm } | Instr::Sh { rs1, rs2, imm } | Instr::Sw { rs1, rs2, imm } =>
            Operands::Address {
                register: rs2,
                base: rs1,
                imm,
            },
        Instr::Addi { rd, rs1, imm }
        | Instr::Slti { rd, rs1, imm }
        | Instr::Sltiu { rd, rs1, imm }
        | Instr::Xori { rd, rs1, imm }
        | Instr::Ori { rd, rs1, imm }
        | Instr::Andi { rd, rs1, imm } => Operands::Immediate { rd, rs1, imm },
        Instr::Slli { rd, rs1, amount }
        | Instr::Srli { rd, rs1, amount }
        | Instr::Srai { rd, rs1, amount } => Operands::Amount { rd, rs1, amount },
        Instr::Add { rd, rs1, rs2 }
        | Instr::Sub { rd, rs1, rs2 }
        | Instr::Sll { rd, rs1, rs2 }
        | Instr::Slt { rd, rs1, rs2 }
        | Instr::Sltu { rd, rs1, rs2 }
        | Instr::Xor { rd, rs1, rs2 }
        | Instr::Srl { rd, rs1, rs2 }
        | Instr::Sra { rd, rs1, rs2 }
        | Instr::Or { rd, rs1, rs2 }
        | Instr::And { rd, rs1, rs2 }
        | Instr::Mul { rd, rs1, rs2 }
        | Instr::Mulh { rd, rs1, rs2 }
        | Instr::Mulhsu { rd, rs1, rs2 }
        | Instr::Mulhu { rd, rs1, rs2 }
        | Instr::Div { rd, rs1, rs2 }
        | Instr::Divu { rd, rs1, rs2 }
        | Instr::Rem { rd, rs1, rs2 }
        | Instr::Remu { rd, rs1, rs2 } => Operands::Registers { rd, rs1, rs2 },
        Instr::Fence { .. } | Instr::Ecall | Instr::Ebreak => Operands::Nothing,
    }
}
