//! Small guests for tests: the program file of some instructions, and the instructions by their names.
//!
//! [`code`] writes instructions as an assembler does, and [`program`] gives the ELF32 file that has them:
//!
//! ```text
//! program(alloc, &code![lui(x11, 0x10000), lw(x10, 4(x11)), ecall()])?
//! ```
//!
//! Crates above rest on this: `program` is the file of the instructions. The guest of `bench` is made by it too.
#![tactic(auto)]

mod names;
mod program_file;

pub use isa::Instr;
pub use program_file::program;
