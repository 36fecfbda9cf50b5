//! RV32IM's instruction words. The formats are those of "Base Instruction Formats" and "Immediate Encoding Variants" of
//! the RISC-V Unprivileged ISA manual.
//!
//! Crates above rest on this: [`decode`] is the instruction table of `isa`, [`encode`] writes the word of an
//! instruction, and each is the other's inverse: `decode` of what `encode` wrote is the instruction, and `encode` of
//! what `decode` read is the word. [`registers_of`] is the word of an instruction's registers, and [`Load`] and [`Store`] are what
//! a load and a store do.
#![tactic(auto)]

mod accesses;
mod decoder;
mod encoder;
mod fields;
mod registers;

pub use accesses::{Load, Store};
pub use decoder::decode;
pub use encoder::encode;
pub use isa::{CallKind, Instr};
pub use registers::registers_of;
