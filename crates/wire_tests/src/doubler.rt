//! One who answers by rote.

ghost use Rattle.wire_tests.specs.Doubling.{doubling};

use no_memory::NoMemory;
use outer_wire::Answerer;

/// Says each byte twice, up to a full stop, which ends the talk.
#[derive(Clone, Copy)]
pub struct Doubler;

impl Answerer for Doubler {
    ghost answers = { λ _. doubling };

    fn form(&self) {}

    fn hear(&mut self, byte: u8, out: &mut Vec<u8>) -> Result<bool, NoMemory> {
        if byte == b'.' {
            return Ok(true);
        }
        out.push(byte)?;
        out.push(byte)?;
        Ok(false)
    }
}
