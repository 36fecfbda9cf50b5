//! The state of a hart: pc, registers and the window of memory.

ghost use Rattle.std.specs.Prelude.{◌≡◌, ℕ, ◌+◌, ◌^◌, ◌<◌, ◌≤◌, length, IfOk};
ghost use Rattle.isa.specs.Encodings.{Fits};
ghost use Rattle.isa.specs.Machine.{reg, moved_on, moved_on_with, is_aligned};
ghost use Rattle.rv_machine.specs.Effects.{pc_after, Executes};

use instructions::{AnyRegister, set_register};
use isa::Instr;
use no_memory::NoMemory;
use rv_decode::{Load, Store};
use std::alloc::Global;
use std::marker::Model;

mod arithmetic;
mod calls;
mod instructions;
mod memory;
mod start;

pub use instructions::{InstructionAddress, NeverX0, execute};
pub use memory::{in_window, load};

/// The exception codes of a step that was fetched.
const MISALIGNED_TARGET: u32 = 0;

const BREAKPOINT: u32 = 3;

const LOAD_OUTSIDE: u32 = 5;

const STORE_OUTSIDE: u32 = 7;

#[derive(Drop)]
pub struct HartState {
    pub(crate) pc: u32,
    pub(crate) registers: [u32; 32],
    pub(crate) base: u32,
    pub(crate) memory: Vec<u8>,
}

impl Model for HartState {
    ghost use Rattle.std.specs.Prelude.{◌≡◌, ◌+◌, ◌^◌, ◌≤◌, length};
    ghost use Rattle.isa.specs.Machine.{State};

    ghost Value = { State };

    ghost view = { λ s. record { pc = s.pc; registers = s.registers; base = s.base; memory = s.memory.items } };

    ghost invariant = { λ s. s.base + length s.memory.items ≤ 2 ^ 32 };
}

/// Where an instruction leads, and why there.
#[derive(Clone, Copy)]
pub enum Next {
    /// On to the next instruction.
    On,
    /// To this one.
    To(u32),
    /// On to the next instruction, after a load from this effective address.
    Loaded(u32, Load),
    /// On to the next instruction, after a store to this effective address.
    Stored(u32, Store),
    /// It is a call, and changes nothing.
    Called,
    /// It traps with this code, and changes nothing.
    Trapped(u32),
}

/// Whether a jump can land there: instructions are four bytes long.
fn is_aligned(target: u32) -> bool
    ensures { result ≡ is_aligned target }
{
    target % 4 == 0
}

/// The pc after an instruction.
#[inline(always)]
pub fn pc_after(pc: u32, next: Next) -> u32
    ensures { result ≡ pc_after pc next }
{
    match next {
        Next::On => pc.wrapping_add(4),
        Next::To(target) => target,
        Next::Loaded(_, _) => pc.wrapping_add(4),
        Next::Stored(_, _) => pc.wrapping_add(4),
        Next::Called => pc,
        Next::Trapped(_) => pc,
    }
}

impl HartState {
    /// This state once more.
    pub fn copied(&self, alloc: Global) -> Result<HartState, NoMemory>
        ensures { IfOk result (λ s. s ≡ self.now) }
    {
        let mut memory = Vec::with_capacity(alloc, self.memory.len())?;
        memory.extend_from_slice(self.memory.as_slice())?;
        Ok(HartState {
            pc: self.pc,
            registers: self.registers,
            base: self.base,
            memory,
        })
    }

    pub fn pc(&self) -> u32
        ensures { result ≡ self.now.pc }
    {
        self.pc
    }

    pub fn base(&self) -> u32
        ensures is { result ≡ self.now.base }
        ensures in_space { self.now.base + length self.now.memory ≤ 2 ^ 32 }
    {
        self.base
    }

    pub fn register(&self, number: u8) -> u32
        requires { number < 32 }
        ensures { result ≡ reg self.now number }
    {
        self.registers[number as usize]
    }

    /// The pc moves on by one instruction.
    pub fn advance(&mut self)
        ensures { self.new ≡ moved_on self.old }
    {
        self.pc = self.pc.wrapping_add(4);
    }

    /// A register gets a value, unless it is x0, and the pc moves on.
    fn set(&mut self, rd: u8, value: u32)
        requires { rd < 32 }
        ensures { self.new ≡ moved_on_with self.old rd value }
    {
        set_register(&mut self.registers, rd, value);
        self.advance();
    }

    /// Does an instruction, and says where it leads. Neither a call nor a trap changes anything.
    #[inline(always)]
    pub fn execute(&mut self, instr: &Instr) -> Next
        requires { Fits instr.now }
        ensures { Executes self.old instr.now result self.new }
    {
        let next = execute::<HartState, AnyRegister>(
            &mut self.registers,
            self.memory.as_mut_slice(),
            self.base,
            &InstructionAddress::of(self.pc),
            instr,
        );
        self.pc = pc_after(self.pc, next);
        next
    }
}
