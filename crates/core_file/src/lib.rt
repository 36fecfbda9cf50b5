//! The state of a run after so many steps, as an ELF core file for a debugger: its definition, and its bytes.
//!
//! What there is to read stands in specs/: the file's headers (Headers.antt), its note with the signal and the registers
//! (Note.antt), and the file of a run at a time (CoreFile.antt). Proved (`laws`): the window of that moment stands behind the
//! note, the pc and the registers are that moment's, past the run's steps the file is that of its end, and each core file,
//! and no log, page or program, begins with `core_mark`.
//!
//! Crates above rest on this: `core_file` is `core_file` of the definitions, a function of the state that the run begins in,
//! its log and the time; and `core_mark` is what each core file begins with.
#![tactic(auto)]

mod file;
pub mod laws;
mod note;
mod words;

pub use file::{core_file, core_mark};
