//! Logs of runs as definitions: what a log holds, its text in bytes in each of two versions, and the first fault of
//! bytes that are no log. The format is this project's own (docs/FORMATS.md).
//!
//! What there is to read stands in specs/. Proved (`laws`), over both versions: bytes are read as a log exactly where
//! they are a text of it, and as a fault exactly where they have it; bytes are a text of one log; what version 2 can
//! hold is read from its text as it was; faulty bytes are no log; bytes are a log's text or have a fault, and have one
//! fault; a text's length is that of its parts; no proper prefix of a log's text is a log's text.
#![tactic(auto)]

pub mod laws;

use std::marker::Model;
use thiserror::Error;

/// Bytes, seen as their list.
#[derive(Drop)]
pub struct Data {
    bytes: Vec<u8>,
}

impl Model for Data {
    ghost use Rattle.std.specs.Prelude.{List, ℕ};

    ghost Value = { List ℕ };

    ghost view = { λ d. d.bytes.items };
}

ghost use Rattle.std.specs.Prelude.{◌≡◌, length};

impl Data {
    /// The bytes of a vector. It takes no memory.
    pub fn from_vec(bytes: Vec<u8>) -> Data
        ensures { result ≡ bytes.items }
    {
        Data { bytes }
    }

    /// The bytes.
    pub fn as_slice(&self) -> &[u8]
        ensures { result.now ≡ self.now }
    {
        self.bytes.as_slice()
    }

    /// How many bytes there are.
    pub fn len(&self) -> usize
        ensures { result ≡ length self.now }
    {
        self.bytes.len()
    }

    /// The vector of the bytes. It takes no memory.
    pub fn into_vec(self) -> Vec<u8>
        ensures { result.items ≡ self }
    {
        self.bytes
    }
}

/// How a log's bytes are laid out: their first eight say in which version.
#[derive(Clone, Copy)]
pub enum Version {
    /// Step numbers take four bytes, and the bytes of a read stand in its record.
    One,
    /// Step numbers take eight bytes, and all that was read on a channel stands before the records.
    Two,
}

/// What a guest call got. `at` is the number of steps done before it, and so the call's own step number. It is
/// below 2^40.
#[derive(Drop)]
pub enum CallRecord {
    /// A read: its arguments channel, address and length, the result, and as many bytes as a positive
    /// result says. A negative result is -9 or -14.
    Read {
        at: u64,
        args: [u32; 3],
        result: i32,
        bytes: Data,
    },
    /// A write, alike: the bytes are those that the guest wrote.
    Write {
        at: u64,
        args: [u32; 3],
        result: i32,
        bytes: Data,
    },
    /// The clock's answer.
    Clock {
        at: u64,
        value: u64,
    },
    /// A call of another number.
    Other {
        at: u64,
        number: u32,
    },
}

/// How a run ended.
#[derive(Clone, Copy, Debug, PartialEq, Eq)]
pub enum RunEnd {
    /// The exit call was step number `at`, below 2^40; it counts as a step.
    Exit { at: u64, code: u32 },
    /// After `at` steps, at most 2^40, the instruction at `pc` trapped, with the exception code `kind`.
    Trap { at: u64, kind: u32, pc: u32 },
    /// The run was cut off after `at` steps, at most 2^40.
    Limit { at: u64 },
}

/// What one record of a log says.
#[derive(Drop)]
pub enum Item {
    /// A guest call.
    Call(CallRecord),
    /// The end of the run.
    End(RunEnd),
}

/// The faults of bytes that are no log, by number: Magic is 1, Bytes is 8.
#[derive(Clone, Copy, Debug, PartialEq, Eq)]
pub enum LogKind {
    /// The bytes begin neither with `JETLOG1` nor with `JETLOG2`, and a line feed.
    Magic,
    /// The header isn't whole, its pages aren't 1 to 4096, its inputs are above 16, or a channel after it isn't
    /// whole.
    Header,
    /// The bytes end without an end record, or within a record.
    Short,
    /// A record's tag isn't 1 to 7.
    Tag,
    /// A record's step number isn't above that of the record before, or is too high: above 2^40, or equal to it
    /// in a call.
    Order,
    /// A read's or write's result, or a trap's kind, is none that there is.
    Result,
    /// There are bytes after the end record.
    Trailing,
    /// A read takes more bytes than its channel has left, or there is no such channel; or the end record comes
    /// while a channel has bytes left. Version 2 alone has this fault.
    Bytes,
}

/// Why bytes are no log: their first fault, met by reading from the front, and its offset in bytes: of a record that is at
/// fault that of its tag, of a channel that isn't whole that of its length.
#[derive(Clone, Copy, Debug, Error)]
#[error("no log: {kind:?} at byte {offset}")]
pub struct FaultInLog {
    pub kind: LogKind,
    pub offset: u64,
}
