//! Program files: ELF32, little-endian, for RISC-V (System V gABI, "Object Files" and "Program Loading").
//!
//! Crates above rest on this: `load` is the image of a file (`image` of `elf_model`), or the first of its faults; an
//! `Image` has the base, entry and segments of the definition; a `Program` is a file with its image.
#![tactic(auto)]

mod fields;
mod file;
mod loaded;
mod loader;
mod program;
mod program_header;

pub use elf_model::ImageKind;
pub use loaded::{Image, Segment};
pub use loader::{ImageFault, load};
pub use program::Program;
