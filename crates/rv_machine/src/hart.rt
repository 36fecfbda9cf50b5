//! The machine.

ghost use Rattle.std.specs.Prelude.{◌≡◌, ℕ, ◌+◌, ◌^◌, ◌≤◌, ◌<◌, Some, None, Err, IfOk, IfErr, IfSome, IsSome, MatchOption, ◌↔◌, IsTrue, ◌⊎◌, length, true, false};
ghost use Rattle.elf_model.specs.Window.{start_of};
ghost use Rattle.isa.specs.declared.Instr.{Instr as AnyInstr};
ghost use Rattle.isa.specs.Encodings.{Fits};
ghost use Rattle.isa.specs.Machine.{reg, in_window, bytes_at, Fetched, fetch};
ghost use Rattle.isa.specs.Calls.{refusal, after_read};
ghost use Rattle.no_memory.specs.declared.Fault.TheVariants.{At};
ghost use Rattle.no_memory.specs.Faults.{IsCausedBy};
ghost use Rattle.rv_machine.specs.Hart.{running, IsStep, IsAnswer, answered};
ghost use Rattle.rv_machine.specs.Running.{IsFollowed};

use crate::decoded::DecodedWords;
use crate::running::Follower;
use crate::state::{HartState, Next};
use crate::{MachineFault, Reply, Stepped};
use elf_image::Image;
use isa::{Call, Instr};
use no_memory::NoMemory;
use rv_decode::decode;
use std::alloc::Global;
use std::marker::Model;

/// The exception code of a fetch outside the window.
const FETCH_OUTSIDE: u32 = 1;

/// The exception code of a word that stands for no instruction.
const ILLEGAL_INSTRUCTION: u32 = 2;

/// A hart with its window of memory, and whether a call of it waits for its answer.
#[derive(Drop)]
pub struct Machine {
    pub(crate) state: HartState,
    pub(crate) waits: bool,
    // It changes nothing but the time that steps take.
    pub(crate) decoded: DecodedWords,
}

impl Model for Machine {
    ghost use Rattle.rv_machine.specs.Hart.{Hart};

    ghost Value = { Hart };

    ghost view = { λ m. record { state = m.state; waits = m.waits } };

    ghost use Rattle.rv_machine.specs.Decoded.{AreKnown};

    ghost invariant = { λ m. AreKnown m.decoded m.state.memory };
}

impl Machine {
    /// A machine before the first step of an image: its window has this many pages of 4096 bytes, 1 to 4096,
    /// from the image's base on, the pc is the entry, x2 is 16 below the window's end, and all other registers
    /// and all bytes that no segment brings are 0.
    ///
    /// The fault is a small window exactly where that can't hold the image: it would end past 2^32, or a segment
    /// ends past it.
    pub fn new(alloc: Global, image: &Image, pages: u32) -> Result<Machine, MachineFault>
        requires some { 1 ≤ pages }
        requires most { pages ≤ 4096 }
        ensures starts { IfOk result (λ m. (start_of image.now pages ≡ Some m.state) × (m.waits ≡ false)) }
        ensures small { IfErr result
            (IsCausedBy (λ window. (window.pages ≡ pages) × (start_of image.now pages ≡ None))) }
        ensures window { start_of image.now pages ≡ None → result ≡ Err (At (record { pages = pages })) }
    {
        let state = HartState::start(alloc, image, pages)?;
        Ok(Machine {
            state,
            waits: false,
            decoded: DecodedWords::new(alloc)?,
        })
    }

    /// Makes the room in which steps keep what they decoded, unless there is some: [`Machine::new`] makes it,
    /// [`Machine::import_state`] doesn't. It changes nothing but the time that steps take, and gives up with NoMemory
    /// alone.
    pub fn keep_decoded(&mut self, alloc: Global) -> Result<(), NoMemory>
        ensures { self.new ≡ self.old }
    {
        if self.decoded.is_none() {
            self.decoded = DecodedWords::new(alloc)?;
        }
        Ok(())
    }

    /// Makes one step, where no call waits. A trap changes nothing, and a call waits for [`Machine::answer`].
    pub fn step(&mut self) -> Stepped
        requires { self.old.waits ≡ false }
        ensures { IsStep self.old.state result self.new }
    {
        self.step_inlined()
    }

    /// The same as [`Machine::step`], inlined where it is called: for the loops that make many steps, so that no instruction
    /// need be written to memory and read back.
    #[inline(always)]
    pub fn step_inlined(&mut self) -> Stepped
        requires { self.old.waits ≡ false }
        ensures { IsStep self.old.state result self.new }
    {
        let pc = self.state.pc();
        if !self.state.in_window(pc, 4) {
            return Stepped::Trapped {
                kind: FETCH_OUTSIDE,
                pc,
            };
        }
        let base = self.state.base();
        let Some(instr) = self.decoded.look_up(self.state.memory.as_slice(), base, pc) else {
            return Stepped::Trapped {
                kind: ILLEGAL_INSTRUCTION,
                pc,
            };
        };
        match self.state.execute(&instr) {
            Next::On => Stepped::Plain { instr, place: 0 },
            Next::To(_) => Stepped::Plain { instr, place: 0 },
            Next::Loaded(place, _) => Stepped::Plain { instr, place },
            Next::Stored(place, _) => {
                self.decoded.forget(place - base, 4);
                Stepped::Plain { instr, place }
            }
            Next::Called => {
                self.waits = true;
                Stepped::Called(self.state.call())
            }
            Next::Trapped(kind) => Stepped::Trapped { kind, pc },
        }
    }

    /// Makes plain steps in a row, at most so many, and gives how many were made. It may make fewer: it stops before a call,
    /// a trap, or an instruction that it doesn't know yet, which [`Machine::step`] decodes and keeps where there is room
    /// ([`Machine::keep_decoded`]), and before one that `follower` doesn't want. It never knows one that sets x0 and is no
    /// jump. `follower` is told of each, but for those that it passes by.
    #[inline(always)]
    pub fn run_plain<F: Follower>(&mut self, most: u64, follower: &mut F) -> u64
        requires { self.old.waits ≡ false }
        ensures most { result ≤ most }
        ensures made { IsFollowed F.told F.wants self.old.state follower.old result self.new.state follower.new }
        ensures goes_on { self.new.waits ≡ false }
    {
        self.decoded.run(&mut self.state, most, follower)
    }

    /// Answers the call that waits, which finishes its step.
    ///
    /// The reply is of the call's own kind, and a read's bytes all have room in the window.
    pub fn answer(&mut self, reply: Reply<'_>)
        requires waits { self.old.waits ≡ true }
        requires answers { IsAnswer self.old.state reply }
        ensures { self.new ≡ running (answered self.old.state reply.entry) }
    {
        self.waits = false;
        match reply {
            Reply::Read { result, bytes } => self.after_read(result, bytes),
            Reply::Write { result } => self.state.after_write(result),
            Reply::Clock { value } => self.state.after_clock(value),
            Reply::Other => self.state.after_other(),
            Reply::Exit => self.state.advance(),
        }
    }

    /// A read's result goes to x10, and its bytes to memory, whose words are forgotten.
    fn after_read(&mut self, outcome: i32, bytes: &[u8])
        requires { 0 < length bytes.now
            → IsTrue (in_window self.old.state (reg self.old.state 11) (length bytes.now)) }
        ensures state { self.new.state
            ≡ after_read self.old.state (reg self.old.state 11) outcome bytes.now }
        ensures waits { self.new.waits ≡ self.old.waits }
    {
        if bytes.is_empty() {
            self.state.after_read(outcome, bytes);
            return;
        }
        let offset = self.state.register(11) - self.state.base();
        self.state.after_read(outcome, bytes);
        self.decoded.forget(offset, bytes.len() as u64);
    }

    /// The `length` bytes of memory from an address on, or None where they aren't all in the window. No
    /// bytes are in it at any address.
    pub fn bytes(&self, place: u32, length: u32) -> Option<&[u8]>
        ensures held { IsSome result ↔ ((length ≡ 0) ⊎ IsTrue (in_window self.now.state place length)) }
        ensures part { IfSome result (λ part. part.now ≡ bytes_at self.now.state place length) }
    {
        if length == 0 {
            Some(&[])
        } else if self.state.in_window(place, length) {
            Some(self.state.part(place, length))
        } else {
            None
        }
    }

    /// The error number of a refused read or write: -9 where there is no such channel, -14 where the buffer
    /// isn't wholly in the window, and 0 where the call isn't refused.
    ///
    /// A read's channel is one of the `inputs`, a write's is below 16. The channel is looked at first. Other
    /// calls are never refused.
    pub fn refusal(&self, call: &Call, inputs: u32) -> i32
        ensures { result ≡ refusal self.now.state inputs call.now }
    {
        self.state.refusal(call, inputs)
    }

    /// The address of the instruction that the next step does.
    pub fn pc(&self) -> u32
        ensures { result ≡ self.now.state.pc }
    {
        self.state.pc()
    }

    /// The value of a register; that of x0 is 0.
    pub fn register(&self, number: u8) -> u32
        requires { number < 32 }
        ensures { result ≡ reg self.now.state number }
    {
        self.state.register(number)
    }

    /// All bytes of the window, from [`Machine::base`] on.
    pub fn window(&self) -> &[u8]
        ensures { result.now ≡ self.now.state.memory }
    {
        self.state.memory.as_slice()
    }

    /// The instruction at the pc, which the next step does; None where the four bytes there stand for none, or don't all
    /// lie in the window.
    pub fn fetched(&self) -> Option<Instr>
        ensures there { MatchOption result
            ((instr : AnyInstr) → fetch self.now.state ≡ Fetched instr → ⊥)
            (λ instr. fetch self.now.state ≡ Fetched instr) }
        ensures fits { IfSome result Fits }
    {
        let pc = self.state.pc();
        if !self.state.in_window(pc, 4) {
            return None;
        }
        decode(self.state.fetched())
    }

    /// The lowest address of the window. The window ends at most at 2^32.
    pub fn base(&self) -> u32
        ensures is { result ≡ self.now.state.base }
        ensures in_space { self.now.state.base + length self.now.state.memory ≤ 2 ^ 32 }
    {
        self.state.base()
    }
}
