//! A call as it is recorded.

ghost use Rattle.std.specs.Prelude.{◌≡◌, IfOk};
ghost use Rattle.log_model.specs.Logs.{share, IsRecord};
ghost use Rattle.call_record.specs.Entries.{record_of};

use log_model::{CallRecord, Data};
use no_memory::NoMemory;
use std::alloc::Global;

/// What a guest call got, before it is kept: the bytes are lent. `at` is the number of steps done before it.
#[derive(Clone, Copy)]
pub(crate) enum LentRecord<'a> {
    Read {
        at: u64,
        args: [u32; 3],
        result: i32,
        bytes: &'a [u8],
    },
    Write {
        at: u64,
        args: [u32; 3],
        result: i32,
        bytes: &'a [u8],
    },
    Clock {
        at: u64,
        value: u64,
    },
    Other {
        at: u64,
        number: u32,
    },
}

impl LentRecord<'_> {
    /// How many bytes the call adds to the text of a log with so many input channels: its record, and what its
    /// channel keeps of a read.
    pub(crate) fn share(&self, inputs: u32) -> u64
        requires { IsRecord (record_of self.now) }
        ensures { result ≡ share inputs (record_of self.now) }
    {
        match self {
            LentRecord::Read { args, bytes, .. } => {
                if args[0] < inputs {
                    25 + bytes.len() as u64
                } else {
                    25
                }
            }
            LentRecord::Write { bytes, .. } => 25 + bytes.len() as u64,
            LentRecord::Clock { .. } => 17,
            LentRecord::Other { .. } => 13,
        }
    }

    /// The record, with the bytes copied.
    pub(crate) fn to_record(self, alloc: Global) -> Result<CallRecord, NoMemory>
        ensures { IfOk result (λ r. r ≡ record_of self.entry) }
    {
        match self {
            LentRecord::Read {
                at,
                args,
                result: outcome,
                bytes,
            } => {
                let bytes = Data::from_vec(bytes.to_vec(alloc)?);
                Ok(CallRecord::Read {
                    at,
                    args,
                    result: outcome,
                    bytes,
                })
            }
            LentRecord::Write {
                at,
                args,
                result: outcome,
                bytes,
            } => {
                let bytes = Data::from_vec(bytes.to_vec(alloc)?);
                Ok(CallRecord::Write {
                    at,
                    args,
                    result: outcome,
                    bytes,
                })
            }
            LentRecord::Clock { at, value } => Ok(CallRecord::Clock { at, value }),
            LentRecord::Other { at, number } => Ok(CallRecord::Other { at, number }),
        }
    }
}
