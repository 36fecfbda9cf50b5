//! A program file of one segment.

ghost use Rattle.std.specs.Prelude.{◌≡◌, ◌*◌, ◌%◌, ◌^◌, length, IfOk};
ghost use Rattle.isa.specs.Encodings.{Fits, encoding};
ghost use Rattle.guest_assembler.specs.ProgramFile.{headers, size_of, HaveWords, program_file};

use isa::Instr;
use rv_decode::encode;
use std::alloc::{AllocError, Global};

/// The word of an instruction, or 0, which is none, where no word stands for it (`Instr::fits`).
fn word_of(instr: &Instr) -> u32
    ensures { Fits instr.now → result ≡ encoding instr.now }
{
    if instr.fits() { encode(instr) } else { 0 }
}

/// The ELF header and the one program header of a segment of this size.
fn headers(alloc: Global, size: u32) -> Result<Vec<u8>, AllocError>
    ensures { IfOk result (λ file. file.items ≡ headers size) }
{
    let mut file = Vec::from_slice(
        alloc,
        &[
            0x7f, 0x45, 0x4c, 0x46, 1, 1, 1, 0, 0, 0, 0, 0, 0, 0, 0, 0, 2, 0, 243, 0, 1, 0, 0, 0,
            0, 0, 1, 0, 52, 0, 0, 0, 0, 0, 0, 0, 0, 0, 0, 0, 52, 0, 32, 0, 1, 0, 0, 0, 0, 0, 0, 0,
            1, 0, 0, 0, 84, 0, 0, 0, 0, 0, 1, 0, 0, 0, 1, 0,
        ],
    )?;
    file.extend_from_slice(&size.to_le_bytes())?;
    file.extend_from_slice(&size.to_le_bytes())?;
    file.extend_from_slice(&[7, 0, 0, 0, 4, 0, 0, 0])?;
    Ok(file)
}

/// The program file that has these instructions at 0x10000, where it is loaded and begins, in one segment that may
/// be read, written and executed.
///
/// In place of an instruction that no word stands for it has the word 0, which traps. It takes memory for the file
/// alone.
pub fn program(alloc: Global, code: &[Instr]) -> Result<Vec<u8>, AllocError>
    ensures { HaveWords code.now → IfOk result (λ file. file.items ≡ program_file code.now) }
{
    let mut file = headers(alloc, (code.len() % (1 << 30)) as u32 * 4)?;
    for instr in code {
        file.extend_from_slice(&word_of(instr).to_le_bytes())?;
    }
    Ok(file)
}
