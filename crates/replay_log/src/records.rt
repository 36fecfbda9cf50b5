//! The record at the front of the bytes that are left, put together.

ghost use Rattle.std.specs.Prelude.{◌≡◌, ◌≤◌, false, length, Some, IfOk, IfErr};
ghost use Rattle.log_model.specs.Faults.{fields_length, are_bytes_wrong, record_fault};
ghost use Rattle.log_model.specs.Reading.{arguments_of, item_of};
ghost use Rattle.no_memory.specs.Faults.{IsCausedBy};
ghost use Rattle.replay_log.specs.Tags.{number};
ghost use Rattle.replay_log.specs.Records.{bytes_read, left_by, ArePartsOf, IsFirst};

use crate::channels::Channels;
use crate::record_parts::{RecordParts, moved, parts_of};
use crate::tags::Tag;
use crate::words::{long_at, word_at};
use log_model::{CallRecord, Data, Item, LogKind, RunEnd, Version};
use no_memory::Fault;
use std::alloc::{AllocError, Global};

/// The three arguments of a read or a write.
fn arguments_of(fields: &[u8]) -> [u32; 3]
    requires { 12 ≤ length fields.now }
    ensures { result ≡ arguments_of fields.now }
{
    [word_at(fields, 0), word_at(fields, 4), word_at(fields, 8)]
}

/// The bytes of a read with these parts: they follow its fields, or are the front of what its channel has left.
fn bytes_read<'a>(version: Version, left: &Channels<'a>, parts: &RecordParts<'a>) -> &'a [u8]
    requires fields { 16 ≤ length parts.now.fields.now }
    requires left { are_bytes_wrong version 1 left.now parts.now.fields.now ≡ false }
    ensures { result.now ≡ bytes_read version left.now parts.now.fields.now parts.now.bytes.now }
{
    match version {
        Version::One => parts.bytes,
        Version::Two => {
            let channel = left.left_on(word_at(parts.fields, 0));
            &channel[..moved(parts.fields)]
        }
    }
}

/// Does nothing: it says that the fields of a record with these parts are all there.
fn form(version: Version, least: u64, left: &Channels, rest: &[u8], parts: &RecordParts)
    requires { ArePartsOf version least left.now rest.now parts.now }
    ensures { fields_length (number parts.now.tag) ≤ length parts.now.fields.now }
{
    let _ = &parts.tag;
}

/// What the record at the front says, which has these parts.
fn item_from(
    alloc: Global,
    version: Version,
    least: u64,
    left: &Channels,
    rest: &[u8],
    parts: &RecordParts,
) -> Result<Item, AllocError>
    requires { ArePartsOf version least left.now rest.now parts.now }
    ensures { IfOk result (λ item. item ≡ item_of version left.now rest.now) }
{
    form(version, least, left, rest, parts);
    let at = parts.at;
    let fields = parts.fields;
    let item = match parts.tag {
        Tag::Read => Item::Call(CallRecord::Read {
            at,
            args: arguments_of(fields),
            result: word_at(fields, 12).cast_signed(),
            bytes: Data::from_vec(Vec::from_slice(alloc, bytes_read(version, left, parts))?),
        }),
        Tag::Write => Item::Call(CallRecord::Write {
            at,
            args: arguments_of(fields),
            result: word_at(fields, 12).cast_signed(),
            bytes: Data::from_vec(Vec::from_slice(alloc, parts.bytes)?),
        }),
        Tag::Clock => Item::Call(CallRecord::Clock {
            at,
            value: long_at(fields, 0),
        }),
        Tag::Other => Item::Call(CallRecord::Other {
            at,
            number: word_at(fields, 0),
        }),
        Tag::Exit => Item::End(RunEnd::Exit {
            at,
            code: word_at(fields, 0),
        }),
        Tag::Trap => Item::End(RunEnd::Trap {
            at,
            kind: word_at(fields, 0),
            pc: word_at(fields, 4),
        }),
        Tag::Limit => Item::End(RunEnd::Limit { at }),
    };
    Ok(item)
}

/// A read takes its bytes off the front of its channel.
fn leave(left: &mut Channels, item: &Item)
    ensures { left.new ≡ left_by item.now left.old }
{
    match item {
        Item::Call(CallRecord::Read { args, bytes, .. }) => left.skip(args[0], bytes.len()),
        _ => {}
    }
}

/// Reads the record at the front, where its step number has to be at least `least` and this is left of the channels.
/// The second part of the answer is the bytes after it.
pub fn item_of<'a>(
    alloc: Global,
    version: Version,
    least: u64,
    left: &mut Channels,
    rest: &'a [u8],
) -> Result<(Item, &'a [u8]), Fault<LogKind>>
    ensures ok { IfOk result (λ x. IsFirst version least left.old rest.now x.0 x.1.now left.new) }
    ensures fault { IfErr result (IsCausedBy (λ kind. record_fault version least left.old rest.now ≡ Some kind)) }
{
    let parts = match parts_of(version, least, left, rest) {
        Ok(parts) => parts,
        Err(kind) => return Err(Fault::At(kind)),
    };
    let item = item_from(alloc, version, least, left, rest, &parts)?;
    leave(left, &item);
    Ok((item, parts.after))
}
