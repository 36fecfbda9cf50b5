//! The lines that are printed of a run.

ghost use Rattle.std.specs.Prelude.{◌≡◌, ◌++◌, codes, IfOk, OnOk};
ghost use Rattle.hex.specs.Hex.{encode_lower};
ghost use Rattle.order_gateway.specs.Lines.{numbers_text, digest_line};

use crate::Numbers;
use no_memory::NoMemory;
use run_output::push_number;
use std::alloc::Global;

/// The length of the longest text: names, blanks and line feeds, six numbers of 20 digits, and a digest of 64.
const MOST_BYTES: usize = 236;

/// Appends the line of a digest.
fn push_digest(out: &mut Vec<u8>, digest: &[u8; 32]) -> Result<(), NoMemory>
    ensures { OnOk result (out.new.items ≡ out.old.items ++ digest_line digest.now) }
{
    let mut digits = [0; 64];
    let _ = hex::encode_to_slice(digest.as_slice(), &mut digits);
    out.extend_from_slice(b"report ")?;
    out.extend_from_slice(&digits)?;
    out.push(b'\n')?;
    Ok(())
}

/// The seven lines of these numbers: `steps N`, `epochs N`, `sinks N`, `pairs N`, `asked N`, `report H` and `events N`, each
/// with a line feed. Numbers are decimals, and H is the digest in 64 lower-case hexadecimal digits. It gives up with
/// NoMemory alone.
pub fn text_of(alloc: Global, numbers: &Numbers) -> Result<Vec<u8>, NoMemory>
    ensures { IfOk result (λ text. text.items ≡ numbers_text numbers.now) }
{
    let mut out = Vec::with_capacity(alloc, MOST_BYTES)?;
    push_number(&mut out, b"steps", numbers.steps)?;
    push_number(&mut out, b"epochs", numbers.epochs)?;
    push_number(&mut out, b"sinks", numbers.sinks)?;
    push_number(&mut out, b"pairs", numbers.pairs)?;
    push_number(&mut out, b"asked", numbers.asked)?;
    push_digest(&mut out, &numbers.digest)?;
    push_number(&mut out, b"events", numbers.events)?;
    Ok(out)
}
