//! Plain steps in a row.

ghost use Rattle.std.specs.Prelude.{◌≡◌, ℕ, ◌+◌, ◌-◌, ◌*◌, ◌%◌, ◌^◌, ◌<◌, ◌≤◌, List, length, Some, None, IfSome, IsTrue};
ghost use Rattle.isa.specs.declared.Instr.{Instr as AnyInstr};
ghost use Rattle.isa.specs.Encodings.{Fits};
ghost use Rattle.rv_machine.specs.Decoded.{HasBits, AreKnown};
ghost use Rattle.rv_decode.specs.Accesses.{load_of, store_of, IsNoAccess, FitsLoad, FitsStore};
ghost use Rattle.rv_machine.specs.Effects.{state_of};
ghost use Rattle.rv_machine.specs.Running.{PassesBy, IsMade, IsChanged, made_pc, pc_of, IsFollowed};

use crate::decoded::{DecodedWords, Slot, forget, slot_at};
use crate::state::{HartState, InstructionAddress, NeverX0, Next, execute};
use isa::Instr;
use rv_decode::{Load, Store};

/// Is told of plain steps that a machine makes in a row.
pub trait Follower {
    /// Holds of one as it was, an instruction with its effective address, and the one as it is after it was told of a step
    /// that did this.
    ghost told: { Self → AnyInstr → ℕ → Self → Type 0 };

    /// Holds of one who wants a further step, which begins at this pc.
    ghost wants: { Self → ℕ → Type 0 };

    /// Whether it wants a further step, where that begins at this address: steps in a row end before one that isn't wanted.
    fn wants_step(&self, at: &InstructionAddress) -> bool
        ensures { IsTrue result → wants self.now at.now };

    /// Whether it need not be told of steps with these registers ([`rv_decode::registers_of`]) that are neither loads nor stores:
    /// being told changes nothing.
    fn passes_by(&self, registers: u32) -> bool
        ensures { IsTrue result → PassesBy told registers self.now };

    /// The machine made a step of this instruction, which is neither a load nor a store.
    fn follow(&mut self, instr: &Instr)
        requires fits { Fits instr.now }
        requires none { IsNoAccess instr.now }
        ensures { told self.old instr.now 0 self.new };

    /// The machine made this load from an effective address.
    fn follow_load(&mut self, load: Load, place: u32)
        requires { FitsLoad load }
        ensures { (instr : AnyInstr) → Fits instr → load_of instr ≡ Some load → told self.old instr place self.new };

    /// The machine made this store to an effective address.
    fn follow_store(&mut self, store: Store, place: u32)
        requires { FitsStore store }
        ensures { (instr : AnyInstr) → Fits instr → store_of instr ≡ Some store → told self.old instr place self.new };
}

/// One who is told nothing.
#[derive(Drop)]
pub struct Unfollowed;

impl Follower for Unfollowed {
    ghost told = { λ _ _ _ _. Unit {0} };

    ghost wants = { λ _ _. Unit {0} };

    #[inline(always)]
    fn wants_step(&self, _at: &InstructionAddress) -> bool {
        true
    }

    #[inline(always)]
    fn passes_by(&self, _registers: u32) -> bool {
        true
    }

    #[inline(always)]
    fn follow(&mut self, _instr: &Instr) {}

    #[inline(always)]
    fn follow_load(&mut self, _load: Load, _place: u32) {}

    #[inline(always)]
    fn follow_store(&mut self, _store: Store, _place: u32) {}
}

/// Tells of a step of a slot's instruction, which is neither a load nor a store, unless it is passed by.
#[inline(always)]
fn tell<F: Follower>(follower: &mut F, slot: &Slot)
    requires known { HasBits slot.now }
    requires none { IsNoAccess slot.now.instr }
    ensures { F.told follower.old slot.now.instr 0 follower.new }
{
    if follower.passes_by(slot.registers) {
        return;
    }
    follower.follow(&slot.instr);
}

/// A step that was made.
#[derive(Clone, Copy)]
enum Made {
    /// It led on to the next instruction.
    On,
    /// It led to this pc.
    To(u32),
    /// It stored to this effective address, and led on.
    Stored(u32),
}

/// Makes a step of a slot's instruction, and tells of it; None where that is no plain step, and then nothing changes.
#[inline(always)]
fn make_step<F: Follower>(
    registers: &mut [u32; 32],
    memory: &mut [u8],
    base: u32,
    at: &InstructionAddress,
    slot: &Slot,
    follower: &mut F,
) -> Option<Made>
    requires known { HasBits slot.now }
    requires in_space { base + length memory.old ≤ 2 ^ 32 }
    ensures made { IfSome result (λ made. IsMade F.told (state_of at.now registers.old base memory.old) follower.old
        slot.now.instr (state_of (made_pc at.now made) registers.new base memory.new) follower.new) }
    ensures changed { IfSome result (λ made. IsChanged memory.old base made memory.new) }
    ensures registers { result ≡ None → registers.new ≡ registers.old }
    ensures memory { result ≡ None → memory.new ≡ memory.old }
    ensures follower { result ≡ None → follower.new ≡ follower.old }
{
    match execute::<F, NeverX0>(registers, memory, base, at, &slot.instr) {
        Next::On => {
            tell(follower, slot);
            Some(Made::On)
        }
        Next::To(target) => {
            tell(follower, slot);
            Some(Made::To(target))
        }
        Next::Loaded(place, load) => {
            follower.follow_load(load, place);
            Some(Made::On)
        }
        Next::Stored(place, store) => {
            follower.follow_store(store, place);
            Some(Made::Stored(place))
        }
        Next::Called => None,
        Next::Trapped(_) => None,
    }
}

/// Makes plain steps in a row from the word of a number on, at most so many, and gives the number of the word after them, and how
/// many are left. All is lent by parts, so that it stands where the processor keeps it, and each follower has one loop, with the
/// table of instructions in its midst.
#[inline(never)]
fn run<F: Follower>(
    registers: &mut [u32; 32],
    memory: &mut [u8],
    base: u32,
    first: usize,
    slots: &mut [Slot],
    most: u64,
    follower: &mut F,
) -> (usize, u64)
    requires in_space { base + length memory.old ≤ 2 ^ 32 }
    requires aligned { base % 4 ≡ 0 }
    requires first { first ≤ 2 ^ 30 }
    requires few { length slots.old ≤ 2 ^ 30 }
    requires known { AreKnown slots.old memory.old }
    ensures known { AreKnown slots.new memory.new }
    ensures few { result.0 ≤ 2 ^ 30 }
    ensures left { result.1 ≤ most }
    ensures made { IsFollowed F.told F.wants (state_of (pc_of base first) registers.old base memory.old) follower.old
        (most - result.1) (state_of (pc_of base result.0) registers.new base memory.new) follower.new }
{
    if first >= slots.len() {
        return (first, most);
    }
    let mut number = first;
    let mut left = most;
    while left > 0 {
        let at = InstructionAddress::of_word(base, number as u32);
        if !follower.wants_step(&at) {
            break;
        }
        let slot = slot_at(slots, number);
        let Some(made) = make_step(registers, memory, base, &at, slot, follower) else {
            break;
        };
        left -= 1;
        match made {
            Made::On => number += 1,
            Made::Stored(place) => {
                forget(slots, place.wrapping_sub(base), 4);
                number += 1;
            }
            Made::To(target) => {
                number = (target.wrapping_sub(base) / 4) as usize;
                if number >= slots.len() {
                    break;
                }
            }
        }
    }
    (number, left)
}

impl DecodedWords {
    /// Makes plain steps of a hart in a row, at most so many, and gives how many were made.
    #[inline(always)]
    pub fn run<F: Follower>(&mut self, state: &mut HartState, most: u64, follower: &mut F) -> u64
        requires { AreKnown self.old state.old.memory }
        ensures known { AreKnown self.new state.new.memory }
        ensures most { result ≤ most }
        ensures made { IsFollowed F.told F.wants state.old follower.old result state.new follower.new }
    {
        let offset = state.pc.wrapping_sub(state.base);
        if state.base % 4 != 0 || offset % 4 != 0 || self.slots.len() > 1 << 30 {
            return 0;
        }
        let (number, left) = run(
            &mut state.registers,
            state.memory.as_mut_slice(),
            state.base,
            (offset / 4) as usize,
            self.slots.as_mut_slice(),
            most,
            follower,
        );
        state.pc = state.base.wrapping_add((number as u32).wrapping_mul(4));
        most - left
    }
}
