//! The public call of the program `jet-gdb`: a recorded run under GDB, forwards and back, over any store, wire and error
//! output. The contract is that of [`jet_gdb`]; what each status says is told by the definitions of specs/Serving.antt,
//! which that contract cites.
#![tactic(auto)]

mod call;
mod checked;
mod serve;

pub use call::jet_gdb;
