//! The record at the front of the bytes that are left, taken apart: here each fault of a record is found.

ghost use Rattle.std.specs.Prelude.{◌≡◌, ◌≤◌, IfOk, IfErr, length};
ghost use Rattle.log_model.specs.Faults.{fields_length, moved, step_bound, data_length, is_step_wrong, is_read_result_wrong, is_write_result_wrong, is_trap_kind_wrong, is_result_wrong, are_bytes_wrong, record_fault};
ghost use Rattle.log_model.specs.Faults.{is_refusal as is_refusal_word};
ghost use Rattle.replay_log.specs.Tags.{number};
ghost use Rattle.replay_log.specs.Records.{ArePartsOf, data_count};

use crate::channels::Channels;
use crate::steps::{fields_of, step_of};
use crate::tags::Tag;
use crate::words::word_at;
use log_model::{LogKind, Version};

/// A record's kind and step number, what follows the step number, the bytes of its data, and the bytes after the
/// record.
#[derive(Drop)]
pub struct RecordParts<'a> {
    pub tag: Tag,
    pub at: u64,
    pub fields: &'a [u8],
    pub bytes: &'a [u8],
    pub after: &'a [u8],
}

/// A call's step number is below this.
const CALL_BOUND: u64 = 1 << 40;

/// Step numbers of records of this kind are below this.
fn step_bound(tag: Tag) -> u64
    ensures { result ≡ step_bound (number tag) }
{
    match tag {
        Tag::Read | Tag::Write | Tag::Clock | Tag::Other | Tag::Exit => CALL_BOUND,
        Tag::Trap | Tag::Limit => CALL_BOUND + 1,
    }
}

/// Whether the step number isn't above that of the record before, or is too high.
fn is_step_wrong(least: u64, tag: Tag, at: u64) -> bool
    ensures { result ≡ is_step_wrong least (number tag) at }
{
    at < least || at >= step_bound(tag)
}

/// Whether the result says that the call was refused: there is no such channel, or the buffer isn't in the window.
fn is_refusal(word: u32) -> bool
    ensures { result ≡ is_refusal_word word }
{
    matches!(word.cast_signed(), -9 | -14)
}

/// Whether a read of at most so many bytes has no such result.
fn is_read_result_wrong(requested: u32, moved: u32) -> bool
    ensures { result ≡ is_read_result_wrong requested moved }
{
    !(is_refusal(moved) || (moved <= requested && moved < 1 << 31))
}

/// Whether a write of so many bytes has no such result.
fn is_write_result_wrong(requested: u32, moved: u32) -> bool
    ensures { result ≡ is_write_result_wrong requested moved }
{
    !(is_refusal(moved) || (moved == requested && moved < 1 << 31))
}

/// Whether no trap has this kind.
fn is_trap_kind_wrong(kind: u32) -> bool
    ensures { result ≡ is_trap_kind_wrong kind }
{
    !matches!(kind, 0..=3 | 5 | 7)
}

/// Whether the result of a read or a write, or the kind of a trap, is none that there is.
fn is_outcome_wrong(tag: Tag, fields: &[u8]) -> bool
    requires { fields_length (number tag) ≤ length fields.now }
    ensures { result ≡ is_result_wrong (number tag) fields.now }
{
    match tag {
        Tag::Read => is_read_result_wrong(word_at(fields, 8), word_at(fields, 12)),
        Tag::Write => is_write_result_wrong(word_at(fields, 8), word_at(fields, 12)),
        Tag::Trap => is_trap_kind_wrong(word_at(fields, 0)),
        Tag::Clock | Tag::Other | Tag::Exit | Tag::Limit => false,
    }
}

/// How many bytes a read or a write with these fields moved.
pub fn moved(fields: &[u8]) -> usize
    requires { 16 ≤ length fields.now }
    ensures { result ≡ moved fields.now }
{
    let outcome = word_at(fields, 12);
    if outcome < 1 << 31 {
        outcome as usize
    } else {
        0
    }
}

/// Whether a read takes more than its channel has left.
fn is_too_much(version: Version, left: &Channels, fields: &[u8]) -> bool
    requires { 16 ≤ length fields.now }
    ensures { result ≡ are_bytes_wrong version 1 left.now fields.now }
{
    match version {
        Version::One => false,
        Version::Two => left.left_on(word_at(fields, 0)).len() < moved(fields),
    }
}

/// Whether a read takes more than its channel has left, or a channel has bytes left at the end.
fn are_bytes_wrong(version: Version, tag: Tag, left: &Channels, fields: &[u8]) -> bool
    requires { fields_length (number tag) ≤ length fields.now }
    ensures { result ≡ are_bytes_wrong version (number tag) left.now fields.now }
{
    match tag {
        Tag::Read => is_too_much(version, left, fields),
        Tag::Write | Tag::Clock | Tag::Other => false,
        Tag::Exit | Tag::Trap | Tag::Limit => left.are_left(),
    }
}

/// How many bytes of data follow the fields.
fn length_of_data(version: Version, tag: Tag, fields: &[u8]) -> usize
    requires { fields_length (number tag) ≤ length fields.now }
    ensures { result ≡ data_count version (number tag) fields.now }
{
    match tag {
        Tag::Read => match version {
            Version::One => moved(fields),
            Version::Two => 0,
        },
        Tag::Write => moved(fields),
        Tag::Clock | Tag::Other | Tag::Exit | Tag::Trap | Tag::Limit => 0,
    }
}

/// The record at the front, where its step number has to be at least `least` and this is left of the channels; or its
/// first fault.
pub fn parts_of<'a>(
    version: Version,
    least: u64,
    left: &Channels,
    rest: &'a [u8],
) -> Result<RecordParts<'a>, LogKind>
    ensures ok { IfOk result (ArePartsOf version least left.now rest.now) }
    ensures fault { IfErr result (λ kind. record_fault version least left.now rest.now ≡ Some kind) }
{
    let Some(first) = rest.first() else {
        return Err(LogKind::Short);
    };
    let Some(tag) = Tag::of(*first) else {
        return Err(LogKind::Tag);
    };
    let fixed = tag.fixed_length(version);
    if rest.len() < fixed {
        return Err(LogKind::Short);
    }
    let at = step_of(version, rest);
    if is_step_wrong(least, tag, at) {
        return Err(LogKind::Order);
    }
    let fields = fields_of(version, rest);
    if is_outcome_wrong(tag, fields) {
        return Err(LogKind::Result);
    }
    if are_bytes_wrong(version, tag, left, fields) {
        return Err(LogKind::Bytes);
    }
    let unfixed = &fields[tag.fields_length()..];
    let length = length_of_data(version, tag, fields);
    if unfixed.len() < length {
        return Err(LogKind::Short);
    }
    let (bytes, after) = unfixed.split_at(length);
    Ok(RecordParts {
        tag,
        at,
        fields,
        bytes,
        after,
    })
}
