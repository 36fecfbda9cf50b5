//! From the bytes of a file to its image.

ghost use Rattle.std.specs.Prelude.{◌≡◌, IfOk, IfErr, OnOk, Ok, Err, None};
ghost use Rattle.lists.specs.FirstTrue.{first_true};
ghost use Rattle.elf_model.specs.Image.{image};
ghost use Rattle.no_memory.specs.Faults.{IsCausedBy};
ghost use Rattle.elf_image.specs.Faults.{header_faults, table_faults};

use crate::file::ElfFile;
use crate::loaded::Image;
use elf_model::ImageKind;
use no_memory::Fault;
use std::alloc::Global;

/// Why `load` gave no image: the first of the file's faults, in the order of `ImageKind`, or out of memory.
pub type ImageFault = Fault<ImageKind>;

/// A file that has none of the faults.
fn faultless(bytes: &[u8]) -> Result<ElfFile, ImageKind>
    ensures file { IfOk result (λ file. file ≡ bytes.now) }
    ensures header { OnOk result (first_true (header_faults bytes.now) ≡ None) }
    ensures table { IfOk result (λ file. first_true (table_faults file) ≡ None) }
    ensures fault { IfErr result (λ kind. image bytes.now ≡ Err kind) }
{
    let file = ElfFile::open(bytes)?;
    file.check_table()?;
    Ok(file)
}

/// The image of a program file (System V gABI, "Program Loading").
///
/// A file has an image exactly where none of the ten faults of `ImageKind` holds. Else the error is
/// `At` with the first that does. `NoMemory` says that there was no memory for the image.
pub fn load(alloc: Global, bytes: &[u8]) -> Result<Image, ImageFault>
    ensures found { IfOk result (λ im. image bytes.now ≡ Ok im) }
    ensures fault { IfErr result (IsCausedBy (λ kind. image bytes.now ≡ Err kind)) }
{
    let file = match faultless(bytes) {
        Ok(file) => file,
        Err(kind) => return Err(Fault::At(kind)),
    };
    let segments = file.segments(alloc)?;
    Ok(Image::new(file.entry(), segments))
}
