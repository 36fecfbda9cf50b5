//! What instructions do, over the parts of a hart.

ghost use Rattle.std.specs.Prelude.{◌≡◌, ℕ, ◌+◌, ◌-◌, ◌*◌, ◌/◌, ◌%◌, ◌^◌, ◌<◌, ◌≤◌, ◌⊎◌, length, slice_index, Some, IsTrue};
ghost use Rattle.isa.specs.Encodings.{Fits};
ghost use Rattle.isa.specs.Machine.{effect_of, wrap, as_word, is_aligned, with_register, in_window, low_bytes};
ghost use Rattle.rv_decode.specs.Accesses.{IsSize};
ghost use Rattle.rv_machine.specs.Effects.{state_of, window_of, pc_after, Executes, landing, branching, loading, storing, next_of, set_if, loaded_value, registers_after, written_if, memory_after, MaySet};

use super::arithmetic::{
    arithmetic_right, is_less, multiply_high, multiply_high_signed_unsigned,
    multiply_high_unsigned, quotient, remainder, unsigned_quotient, unsigned_remainder,
};
use super::{BREAKPOINT, LOAD_OUTSIDE, MISALIGNED_TARGET, Next, STORE_OUTSIDE, is_aligned, memory};
use isa::Instr;
use rv_decode::{Load, Store};
use std::marker::Model;

/// The address of an instruction, kept as an origin and the number of the instruction's word from there on: so the machine puts
/// it together only for those who ask for it.
///
/// Contracts see it as the address.
#[derive(Drop)]
pub struct InstructionAddress {
    origin: u32,
    word: u32,
}

impl Model for InstructionAddress {
    ghost use Rattle.std.specs.Prelude.{ℕ, ◌+◌, ◌*◌, ◌%◌, ◌^◌};

    ghost Value = { ℕ };

    ghost view = { λ a. (a.origin + a.word * 4) % 2 ^ 32 };
}

impl InstructionAddress {
    /// This address.
    #[inline(always)]
    pub fn of(pc: u32) -> InstructionAddress
        ensures { result ≡ pc }
    {
        InstructionAddress {
            origin: pc,
            word: 0,
        }
    }

    /// The address of a word, by its number in the window from a base on.
    #[inline(always)]
    pub fn of_word(base: u32, number: u32) -> InstructionAddress
        ensures { result ≡ (base + number * 4) % 2 ^ 32 }
    {
        InstructionAddress {
            origin: base,
            word: number,
        }
    }

    /// The address itself.
    #[inline(always)]
    pub fn pc(&self) -> u32
        ensures { result ≡ self.now }
    {
        self.origin.wrapping_add(self.word.wrapping_mul(4))
    }
}

#[inline(always)]
fn register(registers: &[u32; 32], number: u8) -> u32
    requires { number < 32 }
    ensures { result ≡ slice_index registers.now number }
{
    registers[number as usize]
}

#[inline(always)]
fn effective_address(registers: &[u32; 32], rs1: u8, imm: i32) -> u32
    requires { rs1 < 32 }
    ensures { result ≡ wrap (slice_index registers.now rs1 + as_word imm) }
{
    register(registers, rs1).wrapping_add(imm.cast_unsigned())
}

/// An address relative to the instruction's own.
#[inline(always)]
fn relative(at: &InstructionAddress, imm: i32) -> u32
    ensures { result ≡ wrap (at.now + as_word imm) }
{
    at.pc().wrapping_add(imm.cast_unsigned())
}

/// A register gets a value, unless it is x0.
#[inline(always)]
pub fn set_register(registers: &mut [u32; 32], rd: u8, value: u32)
    requires { rd < 32 }
    ensures { registers.new ≡ with_register registers.old rd value }
{
    if rd != 0 {
        registers[rd as usize] = value;
    }
}

/// How instructions other than jumps set their register.
pub trait Setter {
    /// Holds of a register that such an instruction may name.
    ghost may_set: { ℕ → Type 0 };

    /// A register gets a value, unless it is x0.
    fn set_register(registers: &mut [u32; 32], rd: u8, value: u32)
        requires number { rd < 32 }
        requires may { may_set rd }
        ensures { registers.new ≡ with_register registers.old rd value };
}

/// By a look for x0, where they may name any register.
pub struct AnyRegister;

impl Setter for AnyRegister {
    ghost may_set = { λ _. Unit {0} };

    #[inline(always)]
    fn set_register(registers: &mut [u32; 32], rd: u8, value: u32) {
        set_register(registers, rd, value);
    }
}

/// With no look for x0, where they name any other register.
pub struct NeverX0;

impl Setter for NeverX0 {
    ghost may_set = { λ rd. 0 < rd };

    #[inline(always)]
    fn set_register(registers: &mut [u32; 32], rd: u8, value: u32) {
        registers[rd as usize] = value;
    }
}

/// A register gets a value, and the pc moves on.
#[inline(always)]
fn set<S: Setter>(registers: &mut [u32; 32], rd: u8, value: u32) -> Next
    requires number { rd < 32 }
    requires may { S.may_set rd }
    ensures on { result ≡ Next.On }
    ensures sets { registers.new ≡ with_register registers.old rd value }
{
    S::set_register(registers, rd, value);
    Next::On
}

/// The pc gets the target, and a register the address after the instruction.
#[inline(always)]
fn jump(registers: &mut [u32; 32], rd: u8, at: &InstructionAddress, target: u32) -> Next
    requires { rd < 32 }
    ensures leads { result ≡ landing (is_aligned target) target }
    ensures sets { registers.new ≡ set_if (is_aligned target) registers.old rd (wrap (at.now + 4)) }
{
    if !is_aligned(target) {
        return Next::Trapped(MISALIGNED_TARGET);
    }
    set_register(registers, rd, at.pc().wrapping_add(4));
    Next::To(target)
}

/// The pc gets the target where the branch is taken, and else moves on.
#[inline(always)]
fn branch(taken: bool, target: u32) -> Next
    ensures { result ≡ branching taken target }
{
    if !taken {
        return Next::On;
    }
    if !is_aligned(target) {
        return Next::Trapped(MISALIGNED_TARGET);
    }
    Next::To(target)
}

/// A register gets bytes from an effective address on, sign- or zero-extended.
#[inline(always)]
fn load<S: Setter>(
    registers: &mut [u32; 32],
    memory: &[u8],
    base: u32,
    load: Load,
    address: u32,
) -> Next
    requires register { load.rd < 32 }
    requires may { S.may_set load.rd }
    requires in_space { base + length memory.now ≤ 2 ^ 32 }
    requires sizes { IsSize load.size }
    requires signed_sizes { IsTrue load.is_signed → (load.size ≡ 1) ⊎ (load.size ≡ 2) }
    ensures leads { result ≡ loading (in_window (window_of base memory.now) address load.size) (Some load) address }
    ensures sets { registers.new ≡ set_if (in_window (window_of base memory.now) address load.size)
        registers.old load.rd (loaded_value (window_of base memory.now) address load.size load.is_signed) }
{
    if !memory::in_window(memory, base, address, u32::from(load.size)) {
        return Next::Trapped(LOAD_OUTSIDE);
    }
    let value = memory::load(memory, base, address, u32::from(load.size));
    let value = memory::extended(value, load.size, load.is_signed);
    S::set_register(registers, load.rd, value);
    Next::Loaded(address, load)
}

/// The lowest bytes of a value go to memory from an effective address on.
#[inline(always)]
fn store(memory: &mut [u8], base: u32, store: Store, address: u32, value: u32) -> Next
    requires in_space { base + length memory.old ≤ 2 ^ 32 }
    requires sizes { IsSize store.size }
    ensures leads { result ≡ storing (in_window (window_of base memory.old) address store.size) (Some store) address }
    ensures writes { memory.new ≡ written_if (in_window (window_of base memory.old) address store.size)
        memory.old (address - base) (low_bytes store.size value) }
{
    if !memory::in_window(memory, base, address, u32::from(store.size)) {
        return Next::Trapped(STORE_OUTSIDE);
    }
    memory::store_low(memory, base, address, value, store.size);
    Next::Stored(address, store)
}

/// Does an instruction, and says where it leads. Neither a call nor a trap changes anything. `S` sets its register, unless it is
/// a jump. Each caller, named by `C`, has a copy of its own, so that a loop of steps has the table in its midst.
#[inline(always)]
pub fn execute<C, S: Setter>(
    registers: &mut [u32; 32],
    memory: &mut [u8],
    base: u32,
    at: &InstructionAddress,
    instr: &Instr,
) -> Next
    requires fits { Fits instr.now }
    requires may { MaySet S.may_set (effect_of (state_of at.now registers.old base memory.old) instr.now) }
    requires in_space { base + length memory.old ≤ 2 ^ 32 }
    ensures { Executes (state_of at.now registers.old base memory.old) instr.now result
        (state_of (pc_after at.now result) registers.new base memory.new) }
{
    by_instruction::<C, S>(registers, memory, base, at, instr)
}

/// The same, instruction by instruction.
#[inline(always)]
fn by_instruction<C, S: Setter>(
    registers: &mut [u32; 32],
    memory: &mut [u8],
    base: u32,
    at: &InstructionAddress,
    instr: &Instr,
) -> Next
    requires fits { Fits instr.now }
    requires may { MaySet S.may_set (effect_of (state_of at.now registers.old base memory.old) instr.now) }
    requires in_space { base + length memory.old ≤ 2 ^ 32 }
    ensures leads { result ≡ next_of (state_of at.now registers.old base memory.old) instr.now
        (effect_of (state_of at.now registers.old base memory.old) instr.now) }
    ensures sets { registers.new ≡ registers_after (state_of at.now registers.old base memory.old)
        (effect_of (state_of at.now registers.old base memory.old) instr.now) }
    ensures writes { memory.new ≡ memory_after (state_of at.now registers.old base memory.old)
        (effect_of (state_of at.now registers.old base memory.old) instr.now) }
{
    match *instr {
        Instr::Lui { rd, imm } => set::<S>(registers, rd, imm.cast_unsigned()),
        Instr::Auipc { rd, imm } => set::<S>(registers, rd, relative(at, imm)),
        Instr::Jal { rd, imm } => jump(registers, rd, at, relative(at, imm)),
        Instr::Jalr { rd, rs1, imm } => {
            let target = effective_address(registers, rs1, imm) / 2 * 2;
            jump(registers, rd, at, target)
        }
        Instr::Beq { rs1, rs2, imm } => branch(
            register(registers, rs1) == register(registers, rs2),
            relative(at, imm),
        ),
        Instr::Bne { rs1, rs2, imm } => branch(
            register(registers, rs1) != register(registers, rs2),
            relative(at, imm),
        ),
        Instr::Blt { rs1, rs2, imm } => branch(
            is_less(register(registers, rs1), register(registers, rs2)),
            relative(at, imm),
        ),
        Instr::Bge { rs1, rs2, imm } => branch(
            !is_less(register(registers, rs1), register(registers, rs2)),
            relative(at, imm),
        ),
        Instr::Bltu { rs1, rs2, imm } => branch(
            register(registers, rs1) < register(registers, rs2),
            relative(at, imm),
        ),
        Instr::Bgeu { rs1, rs2, imm } => branch(
            register(registers, rs1) >= register(registers, rs2),
            relative(at, imm),
        ),
        Instr::Lb { rd, rs1, imm } => {
            let address = effective_address(registers, rs1, imm);
            let load_made = Load {
                rd,
                base: rs1,
                size: 1,
                is_signed: true,
            };
            load::<S>(registers, memory, base, load_made, address)
        }
        Instr::Lh { rd, rs1, imm } => {
            let address = effective_address(registers, rs1, imm);
            let load_made = Load {
                rd,
                base: rs1,
                size: 2,
                is_signed: true,
            };
            load::<S>(registers, memory, base, load_made, address)
        }
        Instr::Lw { rd, rs1, imm } => {
            let address = effective_address(registers, rs1, imm);
            let load_made = Load {
                rd,
                base: rs1,
                size: 4,
                is_signed: false,
            };
            load::<S>(registers, memory, base, load_made, address)
        }
        Instr::Lbu { rd, rs1, imm } => {
            let address = effective_address(registers, rs1, imm);
            let load_made = Load {
                rd,
                base: rs1,
                size: 1,
                is_signed: false,
            };
            load::<S>(registers, memory, base, load_made, address)
        }
        Instr::Lhu { rd, rs1, imm } => {
            let address = effective_address(registers, rs1, imm);
            let load_made = Load {
                rd,
                base: rs1,
                size: 2,
                is_signed: false,
            };
            load::<S>(registers, memory, base, load_made, address)
        }
        Instr::Sb { rs1, rs2, imm } => {
            let address = effective_address(registers, rs1, imm);
            let value = register(registers, rs2);
            let store_made = Store {
                source: rs2,
                base: rs1,
                size: 1,
            };
            store(memory, base, store_made, address, value)
        }
        Instr::Sh { rs1, rs2, imm } => {
            let address = effective_address(registers, rs1, imm);
            let value = register(registers, rs2);
            let store_made = Store {
                source: rs2,
                base: rs1,
                size: 2,
            };
            store(memory, base, store_made, address, value)
        }
        Instr::Sw { rs1, rs2, imm } => {
            let address = effective_address(registers, rs1, imm);
            let value = register(registers, rs2);
            let store_made = Store {
                source: rs2,
                base: rs1,
                size: 4,
            };
            store(memory, base, store_made, address, value)
        }
        Instr::Addi { rd, rs1, imm } => set::<S>(
            registers,
            rd,
            effective_address(registers, rs1, imm),
        ),
        Instr::Slti { rd, rs1, imm } => set::<S>(
            registers,
            rd,
            u32::from(register(registers, rs1).cast_signed() < imm),
        ),
        Instr::Sltiu { rd, rs1, imm } => set::<S>(
            registers,
            rd,
            u32::from(register(registers, rs1) < imm.cast_unsigned()),
        ),
        Instr::Xori { rd, rs1, imm } => set::<S>(
            registers,
            rd,
            register(registers, rs1) ^ imm.cast_unsigned(),
        ),
        Instr::Ori { rd, rs1, imm } => set::<S>(
            registers,
            rd,
            register(registers, rs1) | imm.cast_unsigned(),
        ),
        Instr::Andi { rd, rs1, imm } => set::<S>(
            registers,
            rd,
            register(registers, rs1) & imm.cast_unsigned(),
        ),
        Instr::Slli { rd, rs1, amount } => set::<S>(
            registers,
            rd,
            register(registers, rs1) << amount,
        ),
        Instr::Srli { rd, rs1, amount } => set::<S>(
            registers,
            rd,
            register(registers, rs1) >> amount,
        ),
        Instr::Srai { rd, rs1, amount } => set::<S>(
            registers,
            rd,
            arithmetic_right(register(registers, rs1), u32::from(amount)),
        ),
        Instr::Add { rd, rs1, rs2 } => set::<S>(
            registers,
            rd,
            register(registers, rs1).wrapping_add(register(registers, rs2)),
        ),
        Instr::Sub { rd, rs1, rs2 } => set::<S>(
            registers,
            rd,
            register(registers, rs1).wrapping_sub(register(registers, rs2)),
        ),
        Instr::Sll { rd, rs1, rs2 } => set::<S>(
            registers,
            rd,
            register(registers, rs1) << (register(registers, rs2) % 32),
        ),
        Instr::Slt { rd, rs1, rs2 } => set::<S>(
            registers,
            rd,
            u32::from(is_less(register(registers, rs1), register(registers, rs2))),
        ),
        Instr::Sltu { rd, rs1, rs2 } => set::<S>(
            registers,
            rd,
            u32::from(register(registers, rs1) < register(registers, rs2)),
        ),
        Instr::Xor { rd, rs1, rs2 } => set::<S>(
            registers,
            rd,
            register(registers, rs1) ^ register(registers, rs2),
        ),
        Instr::Srl { rd, rs1, rs2 } => set::<S>(
            registers,
            rd,
            register(registers, rs1) >> (register(registers, rs2) % 32),
        ),
        Instr::Sra { rd, rs1, rs2 } => set::<S>(
            registers,
            rd,
            arithmetic_right(register(registers, rs1), register(registers, rs2) % 32),
        ),
        Instr::Or { rd, rs1, rs2 } => set::<S>(
            registers,
            rd,
            register(registers, rs1) | register(registers, rs2),
        ),
        Instr::And { rd, rs1, rs2 } => set::<S>(
            registers,
            rd,
            register(registers, rs1) & register(registers, rs2),
        ),
        Instr::Mul { rd, rs1, rs2 } => set::<S>(
            registers,
            rd,
            register(registers, rs1).wrapping_mul(register(registers, rs2)),
        ),
        Instr::Mulh { rd, rs1, rs2 } => set::<S>(
            registers,
            rd,
            multiply_high(register(registers, rs1), register(registers, rs2)),
        ),
        Instr::Mulhsu { rd, rs1, rs2 } => set::<S>(
            registers,
            rd,
            multiply_high_signed_unsigned(register(registers, rs1), register(registers, rs2)),
        ),
        Instr::Mulhu { rd, rs1, rs2 } => set::<S>(
            registers,
            rd,
            multiply_high_unsigned(register(registers, rs1), register(registers, rs2)),
        ),
        Instr::Div { rd, rs1, rs2 } => set::<S>(
            registers,
            rd,
            quotient(register(registers, rs1), register(registers, rs2)),
        ),
        Instr::Divu { rd, rs1, rs2 } => set::<S>(
            registers,
            rd,
            unsigned_quotient(register(registers, rs1), register(registers, rs2)),
        ),
        Instr::Rem { rd, rs1, rs2 } => set::<S>(
            registers,
            rd,
            remainder(register(registers, rs1), register(registers, rs2)),
        ),
        Instr::Remu { rd, rs1, rs2 } => set::<S>(
            registers,
            rd,
            unsigned_remainder(register(registers, rs1), register(registers, rs2)),
        ),
        Instr::Fence { .. } => Next::On,
        Instr::Ecall => Next::Called,
        Instr::Ebreak => Next::Trapped(BREAKPOINT),
    }
}
