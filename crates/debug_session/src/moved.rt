//! The steps that moved bytes.

ghost use Rattle.std.specs.Prelude.{◌≡◌, ◌==◌, if◌then◌else◌, [], slice_index};
ghost use Rattle.log_model.specs.Logs.{at_of};
ghost use Rattle.run_output.specs.Ways.{moved_by};
ghost use Rattle.debug_model.specs.Commands.{step_of_byte as step_of_log};

use log_model::{CallRecord, Data};
use replay_log::Log;
use run_output::Way;

/// The bytes of a call with these arguments, where it is on this channel.
fn bytes_if_on<'a>(args: &[u32; 3], bytes: &'a Data, channel: u64) -> &'a [u8]
    ensures { result.now ≡ (if slice_index args.now 0 == channel then bytes.now else []) }
{
    if u64::from(args[0]) == channel {
        bytes.as_slice()
    } else {
        &[]
    }
}

/// The bytes that a call moved this way on a channel.
fn bytes_on(call: &CallRecord, way: Way, channel: u64) -> &[u8]
    ensures { result.now ≡ moved_by way channel call.now }
{
    match call {
        CallRecord::Read { args, bytes, .. } => match way {
            Way::Received => bytes_if_on(args, bytes, channel),
            Way::Written => &[],
        },
        CallRecord::Write { args, bytes, .. } => match way {
            Way::Received => &[],
            Way::Written => bytes_if_on(args, bytes, channel),
        },
        CallRecord::Clock { .. } => &[],
        CallRecord::Other { .. } => &[],
    }
}

/// The number of steps done before a call.
fn time_of(call: &CallRecord) -> u64
    ensures { result ≡ at_of call.now }
{
    match call {
        CallRecord::Read { at, .. } => *at,
        CallRecord::Write { at, .. } => *at,
        CallRecord::Clock { at, .. } => *at,
        CallRecord::Other { at, .. } => *at,
    }
}

/// The number of the step that moved a byte this way: the one at this offset of a channel. None where there is none.
pub(crate) fn step_of_byte(log: &Log, way: Way, channel: u64, offset: u64) -> Option<u64>
    ensures { result ≡ step_of_log way log.now (channel, offset) }
{
    log.form();
    let mut left = offset;
    for call in log.records() {
        let count = bytes_on(call, way, channel).len() as u64;
        if left < count {
            return Some(time_of(call));
        }
        left -= count;
    }
    None
}
