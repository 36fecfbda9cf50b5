//! Parts of the description of the registers.

ghost use Rattle.std.specs.Prelude.{◌≡◌, take, drop, IfOk};
ghost use Rattle.debug_model.specs.Description.{part_text as text_of_part};

use crate::slices::{first_of, rest_from};
use debug_model::description;
use no_memory::NoMemory;
use std::alloc::Global;

/// The packet of so many bytes of the description from an offset on. It gives up with NoMemory alone.
pub(crate) fn part_text(alloc: Global, offset: u32, length: u32) -> Result<Vec<u8>, NoMemory>
    ensures { IfOk result (λ text. text.items ≡ text_of_part offset length) }
{
    let all = description();
    let behind = rest_from(all, offset as usize);
    let letter = if offset as usize + (length as usize) < all.len() {
        b'm'
    } else {
        b'l'
    };
    let mut text = Vec::new(alloc);
    text.push(letter)?;
    text.extend_from_slice(first_of(behind, length as usize))?;
    Ok(text)
}
