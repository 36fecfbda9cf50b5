//! Bytes as hexadecimal digits.

ghost use Rattle.std.specs.Prelude.{◌≡◌, IfOk};
ghost use Rattle.hex.specs.Hex.{encode_lower};

use no_memory::NoMemory;
use std::alloc::Global;

/// Two digits in lower case for each byte. It gives up with NoMemory alone.
pub(crate) fn hexadecimal(alloc: Global, bytes: &[u8]) -> Result<Vec<u8>, NoMemory>
    ensures { IfOk result (λ text. text.items ≡ encode_lower bytes.now) }
{
    let digits = hex::encode(alloc, bytes)?;
    Ok(digits.into_bytes())
}
