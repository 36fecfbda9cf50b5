//! The records that a run has made so far.

ghost use Rattle.std.specs.Prelude.{◌≡◌, ◌+◌, ◌*◌, ◌^◌, ◌≤◌, [], length, IfOk, IfErr, OnOk};
ghost use Rattle.log_model.specs.declared.Version.TheVariants.{Two};
ghost use Rattle.log_model.specs.Logs.{end_text, IsRecord};
ghost use Rattle.no_memory.specs.Faults.{IsCausedBy};
ghost use Rattle.call_record.specs.Entries.{record_of};
ghost use Rattle.call_record.specs.Tapes.{Adds, IsTooLongWith, log_of, IsComplete};

use crate::entry::LentRecord;
use crate::fault::CaptureFault;
use log_model::{CallRecord, RunEnd};
use no_memory::{Fault, NoMemory};
use record_model::Unrecorded;
use replay_log::{HEADER_LENGTH, Log, end_length};
use std::alloc::Global;

/// How many bytes a recorded log has at most.
const LIMIT: u64 = 1 << 26;

/// The records that a run has made so far, the number of its input channels, and the length of the log's text without
/// its end. Where the text is longer than a recorded log may be, it is counted on, but no more records are kept. The
/// count stands still at 2^64 - 1.
#[derive(Drop)]
pub(crate) struct Tape {
    pub records: Vec<CallRecord>,
    pub inputs: u32,
    pub size: u64,
}

impl Tape {
    /// No records, of a run with so many input channels.
    pub(crate) fn new(alloc: Global, inputs: u32) -> Tape
        requires { inputs ≤ 16 }
        ensures records { result.records.items ≡ [] }
        ensures inputs { result.inputs ≡ inputs }
        ensures size { result.size ≡ 48 + 4 * inputs }
    {
        Tape {
            records: Vec::new(alloc),
            inputs,
            size: HEADER_LENGTH as u64 + 4 * u64::from(inputs),
        }
    }

    /// Adds the record of a call.
    pub(crate) fn add(&mut self, alloc: Global, entry: LentRecord<'_>) -> Result<(), NoMemory>
        requires { IsRecord (record_of entry) }
        ensures { OnOk result (Adds self.old (record_of entry.entry) self.new) }
    {
        self.size = self.size.saturating_add(entry.share(self.inputs));
        if self.size <= LIMIT {
            self.records.push(entry.to_record(alloc)?)?;
        }
        Ok(())
    }

    /// The log with these records and this end, or its length where that is more than 2^26 bytes.
    pub(crate) fn into_log(
        self,
        pages: u32,
        digest: [u8; 32],
        end: RunEnd,
    ) -> Result<Log, CaptureFault>
        requires { self.size ≤ 2 ^ 26 → IsComplete (log_of self pages digest end) self.size }
        ensures ok { IfOk result (λ log. (log ≡ log_of self pages digest end)
            × (self.size + length (end_text Two end) ≤ 2 ^ 26)) }
        ensures fault { IfErr result (IsCausedBy (IsTooLongWith (self.size + length (end_text Two end)))) }
    {
        let size = self.size.saturating_add(end_length(end));
        if size > LIMIT {
            return Err(Fault::At(Unrecorded::LogTooLong(size)));
        }
        Ok(Log::from_parts(pages, self.inputs, digest, self.records, end, size))
    }
}
