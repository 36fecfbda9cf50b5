//! The registers where a run stands, as texts.

ghost use Rattle.std.specs.Prelude.{◌≡◌, ◌≤◌, ◌++◌, IfOk, OnOk};
ghost use Rattle.std.specs.List.{flat_map, range_with_len};
ghost use Rattle.replayer.specs.Positions.{state_at};
ghost use Rattle.debug_model.specs.States.{register, register_bytes};
ghost use Rattle.debug_model.specs.States.{registers_text as text_of_registers, register_text as text_of_register};

use crate::constants::ERROR;
use crate::hexadecimal::hexadecimal;
use no_memory::NoMemory;
use replayer::Cursor;
use std::alloc::Global;

/// The number of the pc, behind those of x0 to x31.
const PC: u32 = 32;

/// The value of the register of this number.
fn value_of(here: &Cursor<'_>, number: u32) -> u32
    requires { number ≤ 32 }
    ensures { result ≡ register (state_at here.now) number }
{
    if number == PC {
        here.pc()
    } else {
        here.register(number as u8)
    }
}

/// Appends the bytes of a register, the lowest first.
fn push_register(bytes: &mut Vec<u8>, here: &Cursor<'_>, number: u32) -> Result<(), NoMemory>
    requires { number ≤ 32 }
    ensures { OnOk result (bytes.new.items ≡ bytes.old.items ++ register_bytes (state_at here.now) number) }
{
    let value = value_of(here, number);
    bytes.extend_from_slice(&value.to_le_bytes())?;
    Ok(())
}

/// The bytes of x0 to x31 and the pc.
fn all_bytes(alloc: Global, here: &Cursor<'_>) -> Result<Vec<u8>, NoMemory>
    ensures { IfOk result (λ bytes. bytes.items ≡ flat_map (register_bytes (state_at here.now)) (range_with_len 0 33)) }
{
    let mut bytes = Vec::new(alloc);
    for number in 0..PC + 1 {
        push_register(&mut bytes, here, number)?;
    }
    Ok(bytes)
}

/// The packet of x0 to x31 and the pc. It gives up with NoMemory alone.
pub(crate) fn registers_text(alloc: Global, here: &Cursor<'_>) -> Result<Vec<u8>, NoMemory>
    ensures { IfOk result (λ text. text.items ≡ text_of_registers (state_at here.now)) }
{
    let bytes = all_bytes(alloc, here)?;
    hexadecimal(alloc, &bytes)
}

/// The packet of one of them; an error where there is none of this number. It gives up with NoMemory alone.
pub(crate) fn register_text(
    alloc: Global,
    here: &Cursor<'_>,
    number: u32,
) -> Result<Vec<u8>, NoMemory>
    ensures { IfOk result (λ text. text.items ≡ text_of_register (state_at here.now) number) }
{
    if number > PC {
        return Ok(Vec::from_slice(alloc, ERROR)?);
    }
    let value = value_of(here, number);
    hexadecimal(alloc, &value.to_le_bytes())
}
