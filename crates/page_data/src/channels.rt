//! The bytes of channels, in base64.

ghost use Rattle.std.specs.Prelude.{◌≡◌, ◌++◌, IfOk, OnOk};
ghost use Rattle.base64.specs.Engines.{standard};
ghost use Rattle.base64.specs.GeneralPurpose.{encode_of};
ghost use Rattle.run_output.specs.Ways.{moved};
ghost use Rattle.page_data.specs.Data.{way_word, channel_line, channel_lines};

use crate::calls::push_decimal;
use base64::engine::general_purpose::STANDARD;
use log_model::CallRecord;
use no_memory::NoMemory;
use replay_log::Log;
use run_output::{Way, input_on, output_on};
use std::alloc::Global;

/// There are so many channels of each way.
const CHANNELS: u32 = 16;

/// What stands before the bytes of a channel.
fn way_word(way: Way) -> &'static [u8]
    ensures { result.now ≡ way_word way }
{
    match way {
        Way::Received => b"in ",
        Way::Written => b"out ",
    }
}

/// The bytes that went this way on a channel.
fn bytes_on(
    alloc: Global,
    calls: &[CallRecord],
    way: Way,
    channel: u32,
) -> Result<Vec<u8>, NoMemory>
    ensures { IfOk result (λ bytes. bytes.items ≡ moved way channel calls.now) }
{
    match way {
        Way::Received => input_on(alloc, calls, channel),
        Way::Written => output_on(alloc, calls, channel),
    }
}

/// Appends bytes in base64.
fn push_encoded(alloc: Global, out: &mut Vec<u8>, bytes: &[u8]) -> Result<(), NoMemory>
    ensures { OnOk result (out.new.items ≡ out.old.items ++ encode_of standard bytes.now) }
{
    let text = STANDARD.encode(alloc, bytes)?;
    out.extend_from_slice(text.as_bytes())?;
    Ok(())
}

/// Appends the line of a channel with these bytes.
fn push_channel(
    alloc: Global,
    out: &mut Vec<u8>,
    way: Way,
    channel: u32,
    bytes: &[u8],
) -> Result<(), NoMemory>
    ensures { OnOk result (out.new.items ≡ out.old.items ++ channel_line way channel bytes.now) }
{
    out.extend_from_slice(way_word(way))?;
    push_decimal(out, channel as u64, b' ')?;
    push_encoded(alloc, out, bytes)?;
    out.push(b'\n')?;
    Ok(())
}

/// Appends a line for each channel, with all that went this way on it.
#[tactic(auto, unfolding(crate::specs::Data::channel_lines))]
pub(crate) fn push_channels(
    alloc: Global,
    out: &mut Vec<u8>,
    way: Way,
    log: &Log,
) -> Result<(), NoMemory>
    ensures { OnOk result (out.new.items ≡ out.old.items ++ channel_lines way log.now) }
{
    for channel in 0..CHANNELS {
        let bytes = bytes_on(alloc, log.records(), way, channel)?;
        push_channel(alloc, out, way, channel, &bytes)?;
    }
    Ok(())
}
