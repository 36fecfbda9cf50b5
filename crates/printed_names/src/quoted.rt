//! Bytes as a quoted text.

ghost use Rattle.std.specs.Prelude.{◌≡◌, ◌++◌, take, OnOk};
ghost use Rattle.printed_names.specs.Quoted.{is_plain, quoted_byte, left_out, quoted_text};

use no_memory::NoMemory;

/// How many bytes a quoted text shows at most.
const MOST_SHOWN: usize = 24;

/// Whether a byte stands for itself between quotation marks.
fn stands_for_itself(byte: u8) -> bool
    ensures { result ≡ is_plain byte }
{
    byte >= b' ' && byte <= b'~' && byte != b'"' && byte != b'\\'
}

/// Appends a byte as itself, or as `\x` and two hexadecimal digits in lower case.
fn push_quoted_byte(out: &mut Vec<u8>, byte: u8) -> Result<(), NoMemory>
    ensures { OnOk result (out.new.items ≡ out.old.items ++ quoted_byte byte) }
{
    if stands_for_itself(byte) {
        return Ok(out.push(byte)?);
    }
    let mut digits = [0; 2];
    let bytes = [byte];
    let _ = hex::encode_to_slice(bytes.as_slice(), &mut digits);
    out.extend_from_slice(b"\\x")?;
    out.extend_from_slice(&digits)?;
    Ok(())
}

/// The first bytes, at most as many as are shown.
fn first_bytes(bytes: &[u8]) -> &[u8]
    ensures { result.now ≡ take 24 bytes.now }
{
    &bytes[..bytes.len().min(MOST_SHOWN)]
}

/// Appends two dots where bytes are left out.
fn push_left_out(out: &mut Vec<u8>, bytes: &[u8]) -> Result<(), NoMemory>
    ensures { OnOk result (out.new.items ≡ out.old.items ++ left_out bytes.now) }
{
    if bytes.len() > MOST_SHOWN {
        out.extend_from_slice(b"..")?;
    }
    Ok(())
}

/// Appends bytes as a quoted text: `"`, then of the first 24 each that is 0x20 to 0x7e and neither `"` nor `\` as
/// itself, every other as `\x` and two hexadecimal digits in lower case, then `"`, then `..` where there are more.
pub fn push_quoted(out: &mut Vec<u8>, bytes: &[u8]) -> Result<(), NoMemory>
    ensures { OnOk result (out.new.items ≡ out.old.items ++ quoted_text bytes.now) }
{
    let shown = first_bytes(bytes);
    out.push(b'"')?;
    for byte in shown {
        push_quoted_byte(out, *byte)?;
    }
    out.push(b'"')?;
    push_left_out(out, bytes)
}
