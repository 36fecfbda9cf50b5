//! The bytes that a run moved on a channel, by the way that they went.

ghost use Rattle.std.specs.Prelude.{◌≡◌, ◌++◌, ◌==◌, ◌-◌, ◌^◌, if◌then◌else◌, [], length, min, slice_index, IfOk, OnOk};
ghost use Rattle.log_model.specs.Moved.{received, written};
ghost use Rattle.run_output.specs.Ways.{moved, moved_by};

use log_model::{CallRecord, Data};
use no_memory::NoMemory;
use std::alloc::Global;

/// Which way bytes went.
#[derive(Clone, Copy)]
pub enum Way {
    /// Into the program, by a read.
    Received,
    /// Out of it, by a write.
    Written,
}

/// The bytes of a call with these arguments, where it is on this channel.
fn bytes_if_on<'a>(args: &[u32; 3], bytes: &'a Data, channel: u32) -> &'a [u8]
    ensures { result.now ≡ (if slice_index args.now 0 == channel then bytes.now else []) }
{
    if args[0] == channel {
        bytes.as_slice()
    } else {
        &[]
    }
}

/// The bytes that a call moved this way on a channel: none where it is another call, or one on another channel.
fn bytes_on(call: &CallRecord, way: Way, channel: u32) -> &[u8]
    ensures { result.now ≡ moved_by way channel call.now }
{
    match call {
        CallRecord::Read { args, bytes, .. } => match way {
            Way::Received => bytes_if_on(args, bytes, channel),
            Way::Written => &[],
        },
        CallRecord::Write { args, bytes, .. } => match way {
            Way::Received => &[],
            Way::Written => bytes_if_on(args, bytes, channel),
        },
        CallRecord::Clock { .. } => &[],
        CallRecord::Other { .. } => &[],
    }
}

/// How many bytes these calls moved this way on a channel, or 2^64 - 1 where they are more.
fn length_on(calls: &[CallRecord], way: Way, channel: u32) -> usize
    ensures { result ≡ min (2 ^ 64 - 1) (length (moved way channel calls.now)) }
{
    let mut count = 0usize;
    for call in calls {
        count = count.saturating_add(bytes_on(call, way, channel).len());
    }
    count
}

/// The bytes that these calls moved this way on a channel, in the order of the calls.
fn moved_on(
    alloc: Global,
    calls: &[CallRecord],
    way: Way,
    channel: u32,
) -> Result<Vec<u8>, NoMemory>
    ensures { IfOk result (λ all. all.items ≡ moved way channel calls.now) }
{
    let mut out = Vec::with_capacity(alloc, length_on(calls, way, channel))?;
    for call in calls {
        out.extend_from_slice(bytes_on(call, way, channel))?;
    }
    Ok(out)
}

/// The bytes that these calls wrote on a channel, in the order of the calls. It gives up with NoMemory alone.
pub fn output_on(alloc: Global, calls: &[CallRecord], channel: u32) -> Result<Vec<u8>, NoMemory>
    ensures { IfOk result (λ output. output.items ≡ written channel calls.now) }
{
    moved_on(alloc, calls, Way::Written, channel)
}

/// The bytes that these calls read on a channel, in the order of the calls. It gives up with NoMemory alone.
pub fn input_on(alloc: Global, calls: &[CallRecord], channel: u32) -> Result<Vec<u8>, NoMemory>
    ensures { IfOk result (λ input. input.items ≡ received channel calls.now) }
{
    moved_on(alloc, calls, Way::Received, channel)
}
