//! Reading logs.

ghost use Rattle.std.specs.Prelude.{◌≡◌, ◌+◌, ◌≤◌, ◌^◌, ◌<◌, ◌-◌, length, Ok, IfOk, IfErr};
ghost use Rattle.lists.specs.Fields.{word_at};
ghost use Rattle.log_model.specs.Logs.{at_of};
ghost use Rattle.log_model.specs.Reading.{body_of, log_of};
ghost use Rattle.no_memory.specs.Faults.{IsCausedBy};
ghost use Rattle.replay_log.specs.Answers.{IsFaultOf};
ghost use Rattle.replay_log.specs.Header.{body};
ghost use Rattle.replay_log.specs.Records.{at_offset};

use crate::channels::{Channels, channels_of};
use crate::fault::LogFault;
use crate::header::header_of;
use crate::lengths::text_length;
use crate::logs::Log;
use crate::records::item_of;
use log_model::{CallRecord, FaultInLog, Item, LogKind, RunEnd, Version};
use no_memory::Fault;
use std::alloc::Global;

/// The fault of the bytes, where the record at fault begins at this offset.
fn at_offset(fault: Fault<LogKind>, offset: u64) -> LogFault
    ensures { result ≡ at_offset fault offset }
{
    match fault {
        Fault::At(kind) => Fault::At(FaultInLog { kind, offset }),
        Fault::NoMemory(no_memory) => Fault::NoMemory(no_memory),
    }
}

/// The number of steps done before the call.
fn step_of(record: &CallRecord) -> u64
    ensures { result ≡ at_of «record».now }
{
    match record {
        CallRecord::Read { at, .. } => *at,
        CallRecord::Write { at, .. } => *at,
        CallRecord::Clock { at, .. } => *at,
        CallRecord::Other { at, .. } => *at,
    }
}

/// The records and the end, which follow the channels and are the rest of so many bytes. Reads take their bytes from
/// what is left of the channels.
fn records_of(
    alloc: Global,
    version: Version,
    size: usize,
    left: &mut Channels,
    bytes: &[u8],
) -> Result<(Vec<CallRecord>, RunEnd), LogFault>
    requires { length bytes.now < size }
    ensures ok { IfOk result (λ x.
        body_of version size 0 (size - length bytes.now) left.old bytes.now ≡ Ok (x.0.items, x.1)) }
    ensures fault { IfErr result
        (IsCausedBy (IsFaultOf (body_of version size 0 (size - length bytes.now) left.old bytes.now))) }
{
    let mut records = Vec::new(alloc);
    let mut least = 0;
    let mut rest = bytes;
    loop {
        let offset = (size - rest.len()) as u64;
        let (item, after) = match item_of(alloc, version, least, left, rest) {
            Ok(first) => first,
            Err(fault) => return Err(at_offset(fault, offset)),
        };
        match item {
            Item::Call(call) => {
                least = step_of(&call) + 1;
                records.push(call)?;
                rest = after;
            }
            Item::End(end) => {
                if after.is_empty() {
                    return Ok((records, end));
                }
                let offset = (size - after.len()) as u64;
                return Err(Fault::At(FaultInLog {
                    kind: LogKind::Trailing,
                    offset,
                }));
            }
        }
    }
}

/// The records and the end of bytes whose header says this version and so many inputs.
fn body_of(
    alloc: Global,
    version: Version,
    inputs: u32,
    bytes: &[u8],
) -> Result<(Vec<CallRecord>, RunEnd), LogFault>
    requires whole { 48 ≤ length bytes.now }
    requires inputs { inputs ≡ word_at bytes.now 44 }
    ensures ok { IfOk result (λ x. body version bytes.now ≡ Ok (x.0.items, x.1)) }
    ensures fault { IfErr result (IsCausedBy (IsFaultOf (body version bytes.now))) }
{
    let (mut left, rest) = channels_of(alloc, version, inputs, bytes)?;
    records_of(alloc, version, bytes.len(), &mut left, rest)
}

/// Reads the log that these bytes are a text of, in either version. Otherwise it answers `At` with the first fault that
/// is met from the front and its offset in bytes, or NoMemory where memory runs out.
pub fn read_log(alloc: Global, bytes: &[u8]) -> Result<Log, LogFault>
    requires { length bytes.now ≤ 2 ^ 26 }
    ensures ok { IfOk result (λ log. log_of bytes.now ≡ Ok log) }
    ensures fault { IfErr result (IsCausedBy (IsFaultOf (log_of bytes.now))) }
{
    let header = match header_of(bytes) {
        Ok(header) => header,
        Err(fault) => return Err(Fault::At(fault)),
    };
    let (records, end) = body_of(alloc, header.version, header.inputs, bytes)?;
    let size = text_length(header.inputs, &records, end);
    Ok(Log::from_parts(
        header.pages,
        header.inputs,
        header.digest,
        records,
        end,
        size,
    ))
}
