//! Program files as definitions: ELF32, little-endian, for RISC-V (System V gABI, "Object Files" and "Program
//! Loading"), the window of memory that holds an image, and the state that a run begins in.
//!
//! What there is to read stands in specs/. Proved (`laws`): register x0 begins as 0.
#![tactic(auto)]

pub mod laws;

use thiserror::Error;

/// Why a file is no image: the first of these ten faults that holds, in this order.
#[derive(Clone, Copy, Debug, PartialEq, Eq, Error)]
pub enum ImageKind {
    /// The file has fewer than the 52 bytes of an ELF header.
    #[error("the file is shorter than an ELF header")]
    Short,
    /// `e_ident` doesn't begin with 7f 45 4c 46.
    #[error("the file doesn't begin as an ELF file")]
    Magic,
    /// The class isn't ELFCLASS32, the data isn't ELFDATA2LSB, or the version isn't EV_CURRENT.
    #[error("the file isn't ELF32, little-endian, of version 1")]
    Class,
    /// `e_type` isn't ET_EXEC.
    #[error("the file is no executable")]
    Kind,
    /// `e_machine` isn't 243, RISC-V.
    #[error("the machine isn't RISC-V")]
    Machine,
    /// `e_version`, `e_ehsize`, `e_phentsize` or the program header table is wrong.
    #[error("the ELF header is wrong")]
    Header,
    /// There is a PT_DYNAMIC or PT_INTERP entry.
    #[error("the file is dynamically linked")]
    Dynamic,
    /// A loaded segment doesn't lie in the file, in the address space, or above the one before it.
    #[error("a loaded segment is wrong")]
    Segment,
    /// No segment is loaded.
    #[error("no segment is loaded")]
    NoSegment,
    /// `e_entry` isn't a multiple of 4, or lies in no loaded segment.
    #[error("the entry point is wrong")]
    Entry,
}

/// A window of so many pages of 4096 bytes can't hold an image: it would end past 2^32, or a segment ends past it.
#[derive(Clone, Copy, Debug, Error)]
#[error("a window of {pages} pages can't hold the image")]
pub struct SmallWindow {
    pub pages: u32,
}
