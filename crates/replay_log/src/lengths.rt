//! How many bytes the parts of a log's text take, in version 2, which alone is written. Before the records stand
//! HEADER_LENGTH bytes and four for each channel, and what its reads got (`log_model::laws::text_length`).

ghost use Rattle.std.specs.Prelude.{◌≡◌, ◌+◌, ◌*◌, ◌^◌, ◌≤◌, length};
ghost use Rattle.std.specs.List.{sum_by, AllByRecursion};
ghost use Rattle.log_model.specs.declared.Version.TheVariants.{Two};
ghost use Rattle.log_model.specs.Logs.{IsRecord, end_text, share};

use crate::header::HEADER_LENGTH;
use crate::tags::Tag;
use log_model::{CallRecord, RunEnd, Version};

/// How many bytes a call adds to the text of a run with so many channels: its record, and what its channel keeps of
/// it. The record has the form of one in a log.
pub fn share(inputs: u32, record: &CallRecord) -> u64
    requires { IsRecord «record».now }
    ensures { result ≡ share inputs «record».now }
{
    match record {
        CallRecord::Read { args, bytes, .. } => {
            let kept = if args[0] < inputs { bytes.len() } else { 0 };
            (Tag::Read.fixed_length(Version::Two) + kept) as u64
        }
        CallRecord::Write { bytes, .. } => {
            (Tag::Write.fixed_length(Version::Two) + bytes.len()) as u64
        }
        CallRecord::Clock { .. } => Tag::Clock.fixed_length(Version::Two) as u64,
        CallRecord::Other { .. } => Tag::Other.fixed_length(Version::Two) as u64,
    }
}

/// The length of an end record in bytes.
pub fn end_length(end: RunEnd) -> u64
    ensures { result ≡ length (end_text Two end) }
{
    match end {
        RunEnd::Exit { .. } => Tag::Exit.fixed_length(Version::Two) as u64,
        RunEnd::Trap { .. } => Tag::Trap.fixed_length(Version::Two) as u64,
        RunEnd::Limit { .. } => Tag::Limit.fixed_length(Version::Two) as u64,
    }
}

/// The length of the text of a log with so many channels, these calls and this end, where it is at most 2^27.
pub fn text_length(inputs: u32, records: &[CallRecord], end: RunEnd) -> u64
    requires form { AllByRecursion IsRecord records.now }
    requires limit { sum_by (share inputs) records.now ≤ 2 ^ 27 }
    ensures { result ≡ 48 + 4 * inputs + sum_by (share inputs) records.now + length (end_text Two end) }
{
    let mut length = HEADER_LENGTH as u64 + 4 * u64::from(inputs);
    for call in records {
        length += share(inputs, call);
    }
    length + end_length(end)
}
