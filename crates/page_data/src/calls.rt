//! The calls that moved bytes.

ghost use Rattle.std.specs.Prelude.{◌≡◌, ◌++◌, ◌∷◌, [], OnOk};
ghost use Rattle.std.specs.Fmt.{decimal};
ghost use Rattle.std.specs.List.{flat_map};
ghost use Rattle.page_data.specs.Data.{moved_line, call_line};

use itoa::Buffer;
use log_model::{CallRecord, Data};
use no_memory::NoMemory;

/// Appends a number, and a byte after it.
pub(crate) fn push_decimal(out: &mut Vec<u8>, number: u64, after: u8) -> Result<(), NoMemory>
    ensures { OnOk result (out.new.items ≡ out.old.items ++ decimal number ++ after ∷ []) }
{
    let mut buffer = Buffer::new();
    out.extend_from_slice(buffer.format(number).as_bytes())?;
    out.push(after)?;
    Ok(())
}

/// Appends the line of a call on this channel, if it moved bytes.
fn push_moved(
    out: &mut Vec<u8>,
    word: &[u8],
    channel: u32,
    bytes: &Data,
    at: u64,
) -> Result<(), NoMemory>
    ensures { OnOk result (out.new.items ≡ out.old.items ++ moved_line word.now channel bytes.now at) }
{
    if bytes.len() == 0 {
        return Ok(());
    }
    out.extend_from_slice(word)?;
    push_decimal(out, channel as u64, b' ')?;
    push_decimal(out, bytes.len() as u64, b' ')?;
    push_decimal(out, at, b'\n')
}

/// Appends the line of a call, if it has one.
fn push_call(out: &mut Vec<u8>, call: &CallRecord) -> Result<(), NoMemory>
    ensures { OnOk result (out.new.items ≡ out.old.items ++ call_line call.now) }
{
    match call {
        CallRecord::Read {
            at,
            args,
            bytes,
            ..
        } => push_moved(out, b"r ", args[0], bytes, *at),
        CallRecord::Write {
            at,
            args,
            bytes,
            ..
        } => push_moved(out, b"w ", args[0], bytes, *at),
        CallRecord::Clock { .. } => Ok(()),
        CallRecord::Other { .. } => Ok(()),
    }
}

/// Appends the lines of all calls.
pub(crate) fn push_calls(out: &mut Vec<u8>, calls: &[CallRecord]) -> Result<(), NoMemory>
    ensures { OnOk result (out.new.items ≡ out.old.items ++ flat_map call_line calls.now) }
{
    for call in calls {
        push_call(out, call)?;
    }
    Ok(())
}
