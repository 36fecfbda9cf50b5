//! Writing logs, in version 2. Each function appends to the bytes written before.

ghost use Rattle.std.specs.Prelude.{◌≡◌, ◌∷◌, ◌++◌, ◌^◌, ◌<◌, ◌↔◌, true, length, IfOk, OnOk};
ghost use Rattle.std.specs.List.{flat_map};
ghost use Rattle.log_model.specs.declared.Version.TheVariants.{Two};
ghost use Rattle.log_model.specs.Moved.{received, received_by};
ghost use Rattle.log_model.specs.Logs.{word32, word64, signed32, header_text, channel_text, kept_channels, record_text, end_text, log_text, CanHold};
ghost use Rattle.replay_log.specs.Logs.{IsKept};
ghost use Rattle.replay_log.specs.Tags.{number};

use crate::header::magic;
use crate::logs::Log;
use crate::tags::Tag;
use log_model::{CallRecord, RunEnd, Version};
use no_memory::NoMemory;
use std::alloc::Global;

/// Appends the four bytes of a number.
fn push_word(out: &mut Vec<u8>, word: u32) -> Result<(), NoMemory>
    ensures { OnOk result (out.new.items ≡ out.old.items ++ word32 word) }
{
    out.extend_from_slice(&word.to_le_bytes())?;
    Ok(())
}

/// Appends a list of numbers.
fn push_words(out: &mut Vec<u8>, words: &[u32]) -> Result<(), NoMemory>
    ensures { OnOk result (out.new.items ≡ out.old.items ++ flat_map word32 words.now) }
{
    for word in words {
        push_word(out, *word)?;
    }
    Ok(())
}

/// Appends the header.
fn push_header(out: &mut Vec<u8>, log: &Log) -> Result<(), NoMemory>
    ensures { OnOk result (out.new.items ≡ out.old.items ++ header_text Two log.now) }
{
    out.extend_from_slice(&magic(Version::Two))?;
    out.extend_from_slice(&log.digest())?;
    push_word(out, log.pages())?;
    push_word(out, log.inputs())?;
    Ok(())
}

/// Appends what each record begins with: the tag and the step number.
fn push_start(out: &mut Vec<u8>, tag: Tag, at: u64) -> Result<(), NoMemory>
    ensures { OnOk result (out.new.items ≡ out.old.items ++ (number tag ∷ word64 at)) }
{
    out.push(tag.number())?;
    out.extend_from_slice(&at.to_le_bytes())?;
    Ok(())
}

/// Appends what follows in the record of a read or a write: the arguments and the result.
fn push_transfer(out: &mut Vec<u8>, args: &[u32], outcome: i32) -> Result<(), NoMemory>
    ensures { OnOk result (out.new.items ≡ out.old.items ++ flat_map word32 args.now ++ signed32 outcome) }
{
    push_words(out, args)?;
    push_word(out, outcome.cast_unsigned())?;
    Ok(())
}

/// Appends the record of a call.
fn push_record(out: &mut Vec<u8>, call: &CallRecord) -> Result<(), NoMemory>
    ensures { OnOk result (out.new.items ≡ out.old.items ++ record_text Two call.now) }
{
    match call {
        CallRecord::Read {
            at,
            args,
            result: outcome,
            ..
        } => {
            push_start(out, Tag::Read, *at)?;
            push_transfer(out, args, *outcome)?;
            Ok(())
        }
        CallRecord::Write {
            at,
            args,
            result: outcome,
            bytes,
        } => {
            push_start(out, Tag::Write, *at)?;
            push_transfer(out, args, *outcome)?;
            out.extend_from_slice(bytes.as_slice())?;
            Ok(())
        }
        CallRecord::Clock { at, value } => {
            push_start(out, Tag::Clock, *at)?;
            out.extend_from_slice(&value.to_le_bytes())?;
            Ok(())
        }
        CallRecord::Other { at, number } => {
            push_start(out, Tag::Other, *at)?;
            push_word(out, *number)?;
            Ok(())
        }
    }
}

/// Appends the records of the calls, one after another.
fn push_records(out: &mut Vec<u8>, calls: &[CallRecord]) -> Result<(), NoMemory>
    ensures { OnOk result (out.new.items ≡ out.old.items ++ flat_map (record_text Two) calls.now) }
{
    for call in calls {
        push_record(out, call)?;
    }
    Ok(())
}

/// Appends the end record.
fn push_end(out: &mut Vec<u8>, end: RunEnd) -> Result<(), NoMemory>
    ensures { OnOk result (out.new.items ≡ out.old.items ++ end_text Two end) }
{
    match end {
        RunEnd::Exit { at, code } => {
            push_start(out, Tag::Exit, at)?;
            push_word(out, code)?;
            Ok(())
        }
        RunEnd::Trap { at, kind, pc } => {
            push_start(out, Tag::Trap, at)?;
            push_word(out, kind)?;
            push_word(out, pc)?;
            Ok(())
        }
        RunEnd::Limit { at } => push_start(out, Tag::Limit, at),
    }
}

/// The bytes that a call read on a channel: none where it is no read, or one on another channel.
fn bytes_on(call: &CallRecord, channel: u32) -> &[u8]
    ensures { result.now ≡ received_by channel call.now }
{
    match call {
        CallRecord::Read { args, bytes, .. } => {
            if args[0] == channel {
                bytes.as_slice()
            } else {
                &[]
            }
        }
        CallRecord::Write { .. } => &[],
        CallRecord::Clock { .. } => &[],
        CallRecord::Other { .. } => &[],
    }
}

/// The bytes that these calls read on a channel, in the order of the calls.
fn received_on(alloc: Global, calls: &[CallRecord], channel: u32) -> Result<Vec<u8>, NoMemory>
    ensures { IfOk result (λ bytes. bytes.items ≡ received channel calls.now) }
{
    let mut bytes = Vec::new(alloc);
    for call in calls {
        bytes.extend_from_slice(bytes_on(call, channel))?;
    }
    Ok(bytes)
}

/// Appends a channel: its length and its bytes.
fn push_channel(out: &mut Vec<u8>, bytes: &[u8]) -> Result<(), NoMemory>
    requires { length bytes.now < 2 ^ 32 }
    ensures { OnOk result (out.new.items ≡ out.old.items ++ channel_text bytes.now) }
{
    push_word(out, bytes.len() as u32)?;
    out.extend_from_slice(bytes)?;
    Ok(())
}

/// Appends what was read on each channel. It goes over the calls once for each of the channels, of which there are at
/// most 16: so it takes a time that is linear in the log.
fn push_channels(alloc: Global, out: &mut Vec<u8>, log: &Log) -> Result<(), NoMemory>
    requires { CanHold Two log.now }
    ensures { OnOk result (out.new.items ≡ out.old.items ++ flat_map channel_text (kept_channels Two log.now)) }
{
    let calls = log.records();
    for channel in 0..log.inputs() {
        let bytes = received_on(alloc, calls, channel)?;
        push_channel(out, bytes.as_slice())?;
    }
    Ok(())
}

/// Whether a call takes no bytes from a channel that there isn't.
fn is_kept(inputs: u32, call: &CallRecord) -> bool
    ensures { result ≡ true ↔ IsKept inputs call.now }
{
    match call {
        CallRecord::Read { args, bytes, .. } => bytes.len() == 0 || args[0] < inputs,
        CallRecord::Write { .. } => true,
        CallRecord::Clock { .. } => true,
        CallRecord::Other { .. } => true,
    }
}

/// Whether version 2 can hold the log: each read that got bytes is on one of the run's channels. A log that was read
/// from version 1 may have others.
pub fn can_write(log: &Log) -> bool
    ensures { result ≡ true ↔ CanHold Two log.now }
{
    let _size = log.size();
    for call in log.records() {
        if !is_kept(log.inputs(), call) {
            return false;
        }
    }
    true
}

/// Writes a log, which version 2 can hold: the bytes are its text in that version, and `read_log` reads it from them.
/// The room for the text is taken once, before the first byte is written. It gives up with NoMemory alone.
pub fn write_log(alloc: Global, log: &Log) -> Result<Vec<u8>, NoMemory>
    requires { CanHold Two log.now }
    ensures { IfOk result (λ bytes. bytes.items ≡ log_text Two log.now) }
{
    let mut out = Vec::with_capacity(alloc, log.size() as usize)?;
    push_header(&mut out, log)?;
    push_channels(alloc, &mut out, log)?;
    push_records(&mut out, log.records())?;
    push_end(&mut out, log.end())?;
    Ok(out)
}
