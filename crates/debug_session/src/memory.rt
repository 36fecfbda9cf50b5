//! The memory where a run stands, as a text.

ghost use Rattle.std.specs.Prelude.{◌≡◌, IfOk};
ghost use Rattle.replayer.specs.Positions.{state_at};
ghost use Rattle.debug_model.specs.States.{bytes_from as bytes_of_window, memory_text as text_of_memory};

use crate::constants::ERROR;
use crate::hexadecimal::hexadecimal;
use crate::slices::{first_of, rest_from};
use no_memory::NoMemory;
use replayer::Cursor;
use std::alloc::Global;

/// How many bytes of memory a packet tells at most.
const MOST_BYTES: usize = 8000;

/// Of so many bytes from an address on those that stand in the window, and at most [`MOST_BYTES`]: none where the
/// first doesn't.
fn bytes_from<'a>(here: &'a Cursor<'_>, place: u32, length: u32) -> &'a [u8]
    ensures { result.now ≡ bytes_of_window (state_at here.now) place length }
{
    let base = here.base();
    if place < base {
        return &[];
    }
    let behind = rest_from(here.window(), (place - base) as usize);
    first_of(behind, (length as usize).min(MOST_BYTES))
}

/// The packet of so many bytes from an address on; an error where there are none. It gives up with NoMemory alone.
pub(crate) fn memory_text(
    alloc: Global,
    here: &Cursor<'_>,
    place: u32,
    length: u32,
) -> Result<Vec<u8>, NoMemory>
    ensures { IfOk result (λ text. text.items ≡ text_of_memory (state_at here.now) place length) }
{
    let bytes = bytes_from(here, place, length);
    if bytes.is_empty() {
        return Ok(Vec::from_slice(alloc, ERROR)?);
    }
    hexadecimal(alloc, bytes)
}
