//! The state that a run begins in.

ghost use Rattle.std.specs.Prelude.{◌≡◌, ℕ, ◌+◌, ◌*◌, ◌≤◌, nat_le, Some, None, Err, IfOk, IfErr, IsTrue, length};
ghost use Rattle.std.specs.List.{All, list_all};
ghost use Rattle.elf_model.specs.Image.{LoadedSegment};
ghost use Rattle.elf_model.specs.Window.{can_hold, laid_out, start_of};
ghost use Rattle.no_memory.specs.declared.Fault.TheVariants.{At};
ghost use Rattle.no_memory.specs.Faults.{IsCausedBy};
ghost use Rattle.rv_machine.specs.Start.{HaveRoom};

use super::HartState;
use crate::MachineFault;
use elf_image::{Image, Segment};
use elf_model::SmallWindow;
use no_memory::Fault;
use std::alloc::Global;

const PAGE: u32 = 4096;

/// How far below the window's end the stack begins.
const STACK_GAP: u64 = 16;

/// Whether each segment ends at or below an address.
fn all_end_by(segments: &[Segment], past: u64) -> bool
    ensures { result ≡ list_all (λ s. nat_le (s.place + s.size) past) segments.now }
{
    for segment in segments {
        if u64::from(segment.place()) + u64::from(segment.size()) > past {
            return false;
        }
    }
    true
}

fn can_hold(image: &Image, pages: u32) -> bool
    ensures { result ≡ can_hold image.now pages }
{
    let past = u64::from(image.base()) + u64::from(pages) * u64::from(PAGE);
    past <= 1 << 32 && all_end_by(image.segments(), past)
}

/// The segments' bytes go to memory.
fn lay_out(memory: &mut [u8], base: u32, segments: &[Segment])
    requires { HaveRoom base (base + length memory.old) segments.now }
    ensures { memory.new ≡ laid_out base memory.old segments.now }
{
    for segment in segments {
        let start = (segment.place() - base) as usize;
        let bytes = segment.bytes();
        memory[start..start + bytes.len()].copy_from_slice(bytes);
    }
}

impl HartState {
    /// The state that a run of an image begins in. See [`crate::Machine::new`].
    pub fn start(alloc: Global, image: &Image, pages: u32) -> Result<HartState, MachineFault>
        requires some { 1 ≤ pages }
        requires most { pages ≤ 4096 }
        ensures starts { IfOk result (λ s. start_of image.now pages ≡ Some s) }
        ensures small { IfErr result
            (IsCausedBy (λ window. (window.pages ≡ pages) × (start_of image.now pages ≡ None))) }
        ensures window { start_of image.now pages ≡ None → result ≡ Err (At (record { pages = pages })) }
    {
        if !can_hold(image, pages) {
            return Err(Fault::At(SmallWindow { pages }));
        }
        let (base, size) = (image.base(), pages * PAGE);
        let mut memory = vec![in alloc; 0u8; size as usize]?;
        lay_out(memory.as_mut_slice(), base, image.segments());
        let mut registers = [0; 32];
        registers[2] = (u64::from(base) + u64::from(size) - STACK_GAP) as u32;
        Ok(HartState {
            pc: image.entry(),
            registers,
            base,
            memory,
        })
    }
}
