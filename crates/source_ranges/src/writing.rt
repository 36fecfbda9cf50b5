//! The names of ranges.

ghost use Rattle.std.specs.Prelude.{◌≡◌, ◌++◌, OnOk};
ghost use Rattle.std.specs.Fmt.{decimal};
ghost use Rattle.source_ranges.specs.Ranges.{span_text, range_text};

use crate::SourceRange;
use itoa::Buffer;
use no_memory::NoMemory;

/// Appends `c:a-b`, the bytes of channel c from offset a on, up to offset b, which isn't one of them. It fails only
/// where there is no memory.
pub fn push_span(out: &mut Vec<u8>, channel: u8, from: u64, past: u64) -> Result<(), NoMemory>
    ensures { OnOk result (out.new.items ≡ out.old.items ++ span_text channel from past) }
{
    push_number(out, u64::from(channel))?;
    out.push(b':')?;
    push_number(out, from)?;
    out.push(b'-')?;
    push_number(out, past)
}

/// Appends a number in plain decimal.
fn push_number(out: &mut Vec<u8>, number: u64) -> Result<(), NoMemory>
    ensures { OnOk result (out.new.items ≡ out.old.items ++ decimal number) }
{
    let mut buffer = Buffer::new();
    out.extend_from_slice(buffer.format(number).as_bytes())?;
    Ok(())
}

/// Appends a range's name, `c:a-b`. It fails only where there is no memory.
pub fn push_range(out: &mut Vec<u8>, range: SourceRange) -> Result<(), NoMemory>
    ensures { OnOk result (out.new.items ≡ out.old.items ++ range_text range) }
{
    push_span(out, range.channel, range.from, range.past)
}
