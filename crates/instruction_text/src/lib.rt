//! The text of an instruction, as an assembler reads it: its mnemonic and its operands, registers by number ("RISC-V Assembly
//! Programmer's Manual").
//!
//! Crates above rest on this: `push_instruction` appends `instruction_text` of the definitions here, and `mnemonic` is its
//! first word.
#![tactic(auto)]

mod table;
mod writing;

pub use table::mnemonic;
pub use writing::push_instruction;

/// The operands of an instruction, by how they are written. Registers are below 32.
#[derive(Clone, Copy)]
pub(crate) enum Operands {
    /// None are written: FENCE, ECALL, EBREAK.
    Nothing,
    /// `rd, rs1, rs2`
    Registers { rd: u8, rs1: u8, rs2: u8 },
    /// `rd, rs1, imm`
    Immediate { rd: u8, rs1: u8, imm: i32 },
    /// `rd, rs1, amount`, a shift
    Amount { rd: u8, rs1: u8, amount: u8 },
    /// `register, imm(base)`: what is loaded, stored or linked, and an address
    Address { register: u8, base: u8, imm: i32 },
    /// `rs1, rs2, distance`
    Branch { rs1: u8, rs2: u8, distance: i32 },
    /// `rd, imm`, the upper 20 bits
    Upper { rd: u8, imm: i32 },
    /// `rd, distance`
    Jump { rd: u8, distance: i32 },
}
