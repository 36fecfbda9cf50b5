//! A log in memory.

ghost use Rattle.std.specs.Prelude.{◌≡◌, ◌≤◌, ◌^◌, length};
ghost use Rattle.log_model.specs.declared.Version.TheVariants.{Two};
ghost use Rattle.log_model.specs.Logs.{log_text, IsLog};
ghost use Rattle.replay_log.specs.Logs.{log_of_parts};

use log_model::{CallRecord, RunEnd};
use std::marker::Model;

/// A log of a run: the window's pages, the number of input channels, the digest of the program's file, the calls
/// and the end. Each value has the form of a log, and its text in version 2 is at most 2^27 bytes long.
#[derive(Drop)]
pub struct Log {
    pages: u32,
    inputs: u32,
    digest: [u8; 32],
    records: Vec<CallRecord>,
    end: RunEnd,
    size: u64,
}

impl Model for Log {
    ghost use Rattle.log_model.specs.Logs.{Log as LogOf};

    ghost Value = { LogOf };

    ghost use Rattle.replay_log.specs.Logs.{IsLogOfSize, log_of_parts};

    ghost view = { λ l. log_of_parts l.pages l.inputs l.digest l.records.items l.end };

    ghost invariant = { λ l. IsLogOfSize (log_of_parts l.pages l.inputs l.digest l.records.items l.end) l.size };
}

impl Log {
    /// The log of these parts: a log's form is theirs, and `size` is the length of its text of version 2 in bytes,
    /// at most 2^27. It takes no memory.
    pub fn from_parts(
        pages: u32,
        inputs: u32,
        digest: [u8; 32],
        records: Vec<CallRecord>,
        end: RunEnd,
        size: u64,
    ) -> Log
        requires form { IsLog (log_of_parts pages inputs digest records.items end) }
        requires size { size ≡ length (log_text Two (log_of_parts pages inputs digest records.items end)) }
        requires limit { size ≤ 2 ^ 27 }
        ensures { result ≡ log_of_parts pages inputs digest records.items end }
    {
        Log {
            pages,
            inputs,
            digest,
            records,
            end,
            size,
        }
    }

    /// The number of pages of 4096 bytes in the run's window, 1 to 4096.
    pub fn pages(&self) -> u32
        ensures { result ≡ self.now.pages }
    {
        self.pages
    }

    /// The number of input channels, at most 16.
    pub fn inputs(&self) -> u32
        ensures { result ≡ self.now.inputs }
    {
        self.inputs
    }

    /// The SHA-256 digest of the program's file.
    pub fn digest(&self) -> [u8; 32]
        ensures { result ≡ self.now.digest }
    {
        self.digest
    }

    /// The guest calls, in the order of their step numbers.
    pub fn records(&self) -> &[CallRecord]
        ensures { result.now ≡ self.now.records }
    {
        self.records.as_slice()
    }

    /// The guest calls, taken out of the log. It takes no memory.
    pub fn into_records(self) -> Vec<CallRecord>
        ensures { result.items ≡ self.records }
    {
        self.records
    }

    /// How the run ended.
    pub fn end(&self) -> RunEnd
        ensures { result ≡ self.now.end }
    {
        self.end
    }

    /// The length of the log's text of version 2 in bytes, at most 2^27.
    pub fn size(&self) -> u64
        ensures length { result ≡ length (log_text Two self.now) }
        ensures limit { result ≤ 2 ^ 27 }
    {
        self.size
    }

    /// Does nothing: it says that each log has the form of one.
    pub fn form(&self)
        ensures { IsLog self.now }
    {
        let _ = &self.pages;
    }
}
