//! The instructions of words that were decoded, by the words' places in the window.
//!
//! Most of a run's steps fetch a word that was fetched before. What it stands for is kept, until the word is stored to.

ghost use Rattle.std.specs.Prelude.{◌≡◌, ◌≢◌, [], ℕ, ◌+◌, ◌*◌, ◌/◌, ◌%◌, ◌^◌, ◌<◌, ◌≤◌, List, Some, IfOk, IfSome, IsTrue, ◌↔◌, length, false};
ghost use Rattle.isa.specs.declared.Instr.TheVariants as instruction;
ghost use Rattle.isa.specs.Words.{instruction_of};
ghost use Rattle.isa.specs.Encodings.{Fits};
ghost use Rattle.isa.specs.Machine.{in_window, bytes_at, little_endian};
ghost use Rattle.rv_machine.specs.Decoded.{slot_of, IsThere, AreKnown, AreForgotten, KnowsNoMore, KnowsNothing};
ghost use Rattle.rv_machine.specs.Effects.{window_of, SetsNoX0};

use crate::state::load;
use isa::Instr;
use no_memory::NoMemory;
use rv_decode::{decode, registers_of};
use std::alloc::Global;
use std::marker::Model;

/// Slots are made so many at a time.
const ROOM: usize = 64;

/// The most slots that there are: words further up are decoded at each step.
const MOST: usize = 1 << 20;

/// The instruction of a word, with the word of its registers ([`registers_of`]). ECALL stands for one that isn't known, too.
/// The instruction never sets x0, unless it is a jump: so whoever does it need not look for x0.
#[derive(Clone, Copy)]
pub struct Slot {
    pub instr: Instr,
    pub registers: u32,
}

/// What a slot begins with.
const UNKNOWN: Slot = Slot {
    instr: Instr::Ecall,
    registers: 0,
};

/// A slot for each of the window's words up to the last one that was decoded, and at least one more, whose word is never known: so a
/// row of known words ends before it. A word whose instruction sets x0 and is no jump is never known either: programs have few of
/// them. Or no slots at all, and then nothing is kept.
#[derive(Drop)]
pub struct DecodedWords {
    pub slots: Vec<Slot>,
}

impl Model for DecodedWords {
    ghost use Rattle.std.specs.Prelude.{List};
    ghost use Rattle.rv_machine.specs.declared.decoded.Slot.{Slot};

    ghost Value = { List Slot };

    ghost view = { λ d. d.slots.items };
}

/// The slot of a word.
#[inline(always)]
pub fn slot_at(slots: &[Slot], number: usize) -> &Slot
    requires { number < length slots.now }
    ensures { result.now ≡ slot_of slots.now number }
{
    &slots[number]
}

/// Forgets the words that hold one of so many bytes from an offset on.
#[inline(always)]
pub fn forget(slots: &mut [Slot], offset: u32, size: u64)
    requires { size ≤ 2 ^ 32 }
    ensures { AreForgotten slots.old slots.new (offset / 4) ((offset + size + 3) / 4) }
{
    if ((offset / 4) as usize) < slots.len() {
        forget_some(slots, offset, size);
    }
}

/// The same, where there is a slot of the first of them.
#[inline(never)]
fn forget_some(slots: &mut [Slot], offset: u32, size: u64)
    requires { size ≤ 2 ^ 32 }
    ensures { AreForgotten slots.old slots.new (offset / 4) ((offset + size + 3) / 4) }
{
    let past = (u64::from(offset) + size + 3) / 4;
    let end = (past as usize).min(slots.len());
    for number in (offset / 4) as usize..end {
        slots[number] = UNKNOWN;
    }
}

/// Whether an instruction sets x0, and is no jump.
fn sets_x0(instr: &Instr) -> bool
    ensures { result ≡ false → SetsNoX0 instr.now }
{
    match *instr {
        Instr::Lui { rd, .. }
        | Instr::Auipc { rd, .. }
        | Instr::Lb { rd, .. }
        | Instr::Lh { rd, .. }
        | Instr::Lw { rd, .. }
        | Instr::Lbu { rd, .. }
        | Instr::Lhu { rd, .. }
        | Instr::Addi { rd, .. }
        | Instr::Slti { rd, .. }
        | Instr::Sltiu { rd, .. }
        | Instr::Xori { rd, .. }
        | Instr::Ori { rd, .. }
        | Instr::Andi { rd, .. }
        | Instr::Slli { rd, .. }
        | Instr::Srli { rd, .. }
        | Instr::Srai { rd, .. }
        | Instr::Add { rd, .. }
        | Instr::Sub { rd, .. }
        | Instr::Sll { rd, .. }
        | Instr::Slt { rd, .. }
        | Instr::Sltu { rd, .. }
        | Instr::Xor { rd, .. }
        | Instr::Srl { rd, .. }
        | Instr::Sra { rd, .. }
        | Instr::Or { rd, .. }
        | Instr::And { rd, .. }
        | Instr::Mul { rd, .. }
        | Instr::Mulh { rd, .. }
        | Instr::Mulhsu { rd, .. }
        | Instr::Mulhu { rd, .. }
        | Instr::Div { rd, .. }
        | Instr::Divu { rd, .. }
        | Instr::Rem { rd, .. }
        | Instr::Remu { rd, .. } => rd == 0,
        Instr::Jal { .. }
        | Instr::Jalr { .. }
        | Instr::Beq { .. }
        | Instr::Bne { .. }
        | Instr::Blt { .. }
        | Instr::Bge { .. }
        | Instr::Bltu { .. }
        | Instr::Bgeu { .. }
        | Instr::Sb { .. }
        | Instr::Sh { .. }
        | Instr::Sw { .. }
        | Instr::Fence { .. }
        | Instr::Ecall
        | Instr::Ebreak => false,
    }
}

/// Keeps the instruction of a word, if it has a slot that isn't the last, and unless it sets x0 and is no jump.
fn keep(slots: &mut [Slot], number: usize, instr: Instr)
    requires fits { Fits instr }
    requires few { number < 2 ^ 30 }
    ensures { (memory : List ℕ) → AreKnown slots.old memory → IsThere memory (4 * number) instr
        → AreKnown slots.new memory }
{
    if number + 1 >= slots.len() || sets_x0(&instr) {
        return;
    }
    let registers = registers_of(&instr);
    slots[number] = Slot { instr, registers };
}

impl DecodedWords {
    /// No slots. It takes no memory.
    pub fn none(alloc: Global) -> DecodedWords
        ensures { KnowsNothing result }
    {
        DecodedWords {
            slots: Vec::new(alloc),
        }
    }

    /// The first slots.
    pub fn new(alloc: Global) -> Result<DecodedWords, NoMemory>
        ensures { IfOk result KnowsNothing }
    {
        let slots = vec![in alloc; UNKNOWN; ROOM]?;
        Ok(DecodedWords { slots })
    }

    /// Whether there are no slots.
    pub fn is_none(&self) -> bool
        ensures { IsTrue result ↔ (self.now ≡ []) }
    {
        self.slots.is_empty()
    }

    /// Forgets the words that hold one of so many bytes from an offset on.
    #[inline(always)]
    pub fn forget(&mut self, offset: u32, size: u64)
        requires { size ≤ 2 ^ 32 }
        ensures { AreForgotten self.old self.new (offset / 4) ((offset + size + 3) / 4) }
    {
        forget(self.slots.as_mut_slice(), offset, size);
    }

    /// The instruction at an offset, if it is known.
    #[inline(always)]
    fn known(&self, offset: u32) -> Option<Instr>
        ensures aligned { IfSome result (λ instr. offset % 4 ≡ 0) }
        ensures within { IfSome result (λ instr. offset / 4 < length self.now) }
        ensures is { IfSome result (λ instr. (slot_of self.now (offset / 4)).instr ≡ instr) }
        ensures other { IfSome result (λ instr. instr ≢ instruction.Ecall) }
    {
        let number = (offset / 4) as usize;
        if offset % 4 != 0 || number >= self.slots.len() {
            return None;
        }
        match self.slots[number].instr {
            Instr::Ecall => None,
            instr => Some(instr),
        }
    }

    /// The instruction that the word at the pc stands for, or None where it is illegal, as [`decode`] says.
    #[inline(always)]
    pub fn look_up(&mut self, memory: &[u8], base: u32, pc: u32) -> Option<Instr>
        requires known { AreKnown self.old memory.now }
        requires inside { IsTrue (in_window (window_of base memory.now) pc 4) }
        ensures known { AreKnown self.new memory.now }
        ensures is { result ≡ instruction_of (little_endian (bytes_at (window_of base memory.now) pc 4)) }
        ensures fits { IfSome result Fits }
    {
        match self.known(pc - base) {
            Some(instr) => Some(instr),
            None => self.decode(memory, base, pc),
        }
    }

    /// Decodes the word at the pc, and keeps its instruction.
    #[inline(never)]
    fn decode(&mut self, memory: &[u8], base: u32, pc: u32) -> Option<Instr>
        requires known { AreKnown self.old memory.now }
        requires inside { IsTrue (in_window (window_of base memory.now) pc 4) }
        ensures known { AreKnown self.new memory.now }
        ensures is { result ≡ instruction_of (little_endian (bytes_at (window_of base memory.now) pc 4)) }
        ensures fits { IfSome result Fits }
    {
        let instr = decode(load(memory, base, pc, 4))?;
        let offset = pc - base;
        if offset % 4 != 0 {
            return Some(instr);
        }
        let number = (offset / 4) as usize;
        self.make_room(number);
        keep(self.slots.as_mut_slice(), number, instr);
        Some(instr)
    }

    /// Makes a slot for a word and those below it, and an eighth more, where there is memory for them, and forgets all: so a run
    /// through ever higher words makes few slots anew. It does nothing where the word has one that isn't the last, or where nothing
    /// is kept.
    fn make_room(&mut self, number: usize)
        ensures { KnowsNoMore self.old self.new }
    {
        if self.slots.is_empty() || number >= MOST || number + 1 < self.slots.len() {
            return;
        }
        let alloc = *self.slots.allocator();
        let count = ((number + number / 8) / ROOM + 1) * ROOM;
        if let Ok(slots) = vec![in alloc; UNKNOWN; count] {
            self.slots = slots;
        }
    }
}
