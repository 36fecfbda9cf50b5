//! One RV32IM hart over one window of memory, changed in place.
//!
//! A step is that of "RV32I Base Integer Instruction Set" and "'M' Extension for Integer Multiplication and Division"
//! of the RISC-V Unprivileged ISA manual. A call to the execution environment (ECALL) makes the machine wait until it
//! is answered.
//!
//! Crates above rest on this: `Machine::new` is the start, or Window exactly where there is none; `step` and `answer`
//! are one step of the definitions, and `run_plain` is so many plain ones; `bytes`, `register`, `window` and `refusal`
//! are theirs; a state that is taken out, or whose parts are lent, and put back is as it was.
#![tactic(auto)]

mod decoded;
mod hart;
mod running;
mod saved;
mod state;

use elf_model::SmallWindow;
pub use hart::Machine;
pub use isa::{Call, CallKind, Instr};
use no_memory::Fault;
pub use running::{Follower, Unfollowed};
pub use rv_decode::{Load, Store};
pub use saved::{MachineState, Rest};
pub use state::InstructionAddress;

/// Why there is no machine for an image: the window can't hold it, or out of memory.
pub type MachineFault = Fault<SmallWindow>;

/// What a step came to.
#[derive(Clone, Copy)]
pub enum Stepped {
    /// The instruction retired. `place` is the effective address of a load or a store, and 0 for others.
    Plain { instr: Instr, place: u32 },
    /// The guest calls its execution environment. The machine waits for the answer.
    Called(Call),
    /// The step trapped, and changed nothing. `kind` is the exception's code: 0 misaligned target, 1 fetch
    /// outside the window, 2 illegal instruction, 3 breakpoint, 5 load and 7 store outside the window. `pc`
    /// is that of the instruction.
    Trapped { kind: u32, pc: u32 },
}

/// The answer to a guest call, of the call's own kind.
#[derive(Clone, Copy)]
pub enum Reply<'a> {
    /// The result goes to x10, and the bytes to memory from the address in x11 on.
    Read { result: i32, bytes: &'a [u8] },
    /// The result goes to x10.
    Write { result: i32 },
    /// The low half goes to x10, the high half to x11.
    Clock { value: u64 },
    /// A call that the environment doesn't have: -38 goes to x10.
    Other,
    /// The call's step is done, and no register is set.
    Exit,
}
