//! RV32IM as definitions: the instructions, the words that stand for them, one step of a hart over one window of
//! memory, and the calls that a guest makes to its execution environment.
//!
//! What there is to read stands in specs/, in the order of specs/Lib.antt. The sections named there are those of the
//! RISC-V Unprivileged ISA manual.
//!
//! Proved: `Instr::fits` is the definition; `laws`: x0 stays 0; proofs/Worked.antt and its neighbours have worked
//! values of all 48 instructions, which the checker computes.
#![tactic(auto)]

mod fitting;
pub mod laws;

/// One variant for each instruction of RV32I and RV32M ("RV32I Base Integer Instruction Set" and "'M' Extension
/// for Integer Multiplication and Division").
///
/// Registers are below 32. Immediates are sign-extended, as they are added or compared; those of
/// LUI and AUIPC have twelve zero bits at the bottom. Shift amounts are below 32. FENCE keeps the
/// 22 bits that it ignores: bits 31 to 15 of the word above bits 11 to 7.
#[derive(Clone, Copy)]
pub enum Instr {
    Lui { rd: u8, imm: i32 },
    Auipc { rd: u8, imm: i32 },
    Jal { rd: u8, imm: i32 },
    Jalr { rd: u8, rs1: u8, imm: i32 },
    Beq { rs1: u8, rs2: u8, imm: i32 },
    Bne { rs1: u8, rs2: u8, imm: i32 },
    Blt { rs1: u8, rs2: u8, imm: i32 },
    Bge { rs1: u8, rs2: u8, imm: i32 },
    Bltu { rs1: u8, rs2: u8, imm: i32 },
    Bgeu { rs1: u8, rs2: u8, imm: i32 },
    Lb { rd: u8, rs1: u8, imm: i32 },
    Lh { rd: u8, rs1: u8, imm: i32 },
    Lw { rd: u8, rs1: u8, imm: i32 },
    Lbu { rd: u8, rs1: u8, imm: i32 },
    Lhu { rd: u8, rs1: u8, imm: i32 },
    Sb { rs1: u8, rs2: u8, imm: i32 },
    Sh { rs1: u8, rs2: u8, imm: i32 },
    Sw { rs1: u8, rs2: u8, imm: i32 },
    Addi { rd: u8, rs1: u8, imm: i32 },
    Slti { rd: u8, rs1: u8, imm: i32 },
    Sltiu { rd: u8, rs1: u8, imm: i32 },
    Xori { rd: u8, rs1: u8, imm: i32 },
    Ori { rd: u8, rs1: u8, imm: i32 },
    Andi { rd: u8, rs1: u8, imm: i32 },
    Slli { rd: u8, rs1: u8, amount: u8 },
    Srli { rd: u8, rs1: u8, amount: u8 },
    Srai { rd: u8, rs1: u8, amount: u8 },
    Add { rd: u8, rs1: u8, rs2: u8 },
    Sub { rd: u8, rs1: u8, rs2: u8 },
    Sll { rd: u8, rs1: u8, rs2: u8 },
    Slt { rd: u8, rs1: u8, rs2: u8 },
    Sltu { rd: u8, rs1: u8, rs2: u8 },
    Xor { rd: u8, rs1: u8, rs2: u8 },
    Srl { rd: u8, rs1: u8, rs2: u8 },
    Sra { rd: u8, rs1: u8, rs2: u8 },
    Or { rd: u8, rs1: u8, rs2: u8 },
    And { rd: u8, rs1: u8, rs2: u8 },
    Mul { rd: u8, rs1: u8, rs2: u8 },
    Mulh { rd: u8, rs1: u8, rs2: u8 },
    Mulhsu { rd: u8, rs1: u8, rs2: u8 },
    Mulhu { rd: u8, rs1: u8, rs2: u8 },
    Div { rd: u8, rs1: u8, rs2: u8 },
    Divu { rd: u8, rs1: u8, rs2: u8 },
    Rem { rd: u8, rs1: u8, rs2: u8 },
    Remu { rd: u8, rs1: u8, rs2: u8 },
    Fence { kept: u32 },
    Ecall,
    Ebreak,
}

/// What an instruction does in a state, with its operands read.
#[derive(Clone, Copy)]
pub enum Effect {
    /// A register gets a value, and the pc moves on.
    SetRegister {
        rd: u8,
        value: u32,
    },
    /// The pc gets the target, and a register the address after the instruction.
    Jump {
        rd: u8,
        target: u32,
    },
    /// The pc gets the target where the branch is taken, and else moves on.
    Branch {
        taken: bool,
        target: u32,
    },
    /// A register gets `size` bytes from an effective address on, sign- or zero-extended.
    Load {
        rd: u8,
        address: u32,
        size: u8,
        signed: bool,
    },
    /// The `size` lowest bytes of a value go to memory from an effective address on.
    Store {
        address: u32,
        size: u8,
        value: u32,
    },
    /// Only the pc moves on.
    MoveOn,
    /// A call to the execution environment (ECALL).
    EnvironmentCall,
    /// A breakpoint (EBREAK).
    Breakpoint,
}

/// The guest calls, by what the execution environment does.
#[derive(Clone, Copy, PartialEq, Eq)]
pub enum CallKind {
    /// Number 63: read(channel, address, length).
    Read,
    /// Number 64: write(channel, address, length).
    Write,
    /// Number 2000: the clock, its low half in x10 and its high half in x11.
    Clock,
    /// Any other number: the result is -38.
    Other,
    /// Number 93: exit(code).
    Exit,
}

/// A guest call: its kind, its number (x17) and its arguments (x10, x11 and x12).
#[derive(Clone, Copy, PartialEq, Eq)]
pub struct Call {
    pub kind: CallKind,
    pub number: u32,
    pub args: [u32; 3],
}
