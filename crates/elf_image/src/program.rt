//! A program's file, with its image.

ghost use Rattle.std.specs.Prelude.{◌≡◌, IfOk, IfErr, Ok, Err};
ghost use Rattle.elf_model.specs.Image.{image as image_of_file};
ghost use Rattle.no_memory.specs.Faults.{IsCausedBy};

use crate::loaded::Image;
use crate::loader::{ImageFault, load};
use std::alloc::Global;

/// A program: the bytes of its file, and the image that they have.
#[derive(Drop)]
pub struct Program {
    pub bytes: Vec<u8>,
    pub image: Image,
    pub ghost loads: { image_of_file bytes.items ≡ Ok image },
}

impl Program {
    /// The program of a file. It gives up as [`load`] does.
    pub fn load(alloc: Global, bytes: Vec<u8>) -> Result<Program, ImageFault>
        ensures file { IfOk result (λ program. program.bytes ≡ bytes) }
        ensures fault { IfErr result (IsCausedBy (λ kind. image_of_file bytes.items ≡ Err kind)) }
    {
        let image = load(alloc, &bytes)?;
        Ok(Program { bytes, image })
    }
}
