//! Commands in words.

ghost use Rattle.std.specs.Prelude.{◌≡◌, IfOk};
ghost use Rattle.remote_packets.specs.Packets.{command_of};

use hex::FromHexError;
use no_memory::NoMemory;
use std::alloc::{AllocError, Global};

/// How many bytes stand before the text in hexadecimal: `qRcmd,`.
const NAME_LENGTH: usize = 6;

/// The bytes of a command in words, whose packet asks for [`crate::Packet::Command`]: those of the text that stands
/// in hexadecimal behind `qRcmd,`. Of any other packet they are none, unless a text in hexadecimal stands there. It
/// gives up with NoMemory alone (GDB Remote Serial Protocol, "General Query Packets", `qRcmd`).
pub fn command(alloc: Global, packet: &[u8]) -> Result<Vec<u8>, NoMemory>
    ensures { IfOk result (λ command. command.items ≡ command_of packet.now) }
{
    let digits = packet.get(NAME_LENGTH..).unwrap_or(&[]);
    match hex::decode(alloc, digits) {
        Ok(bytes) => Ok(bytes),
        Err(FromHexError::OutOfMemory) => Err(NoMemory::from(AllocError)),
        Err(_) => Ok(Vec::new(alloc)),
    }
}
