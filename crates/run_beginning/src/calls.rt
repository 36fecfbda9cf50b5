//! What one call of a run needs.

ghost use Rattle.std.specs.Prelude.{◌≡◌, ◌≢◌, ℕ, ◌+◌, ◌<◌, ◌^◌, true, length, slice_index};
ghost use Rattle.std.specs.List.{list_any};
ghost use Rattle.log_model.specs.Logs.{at_of};
ghost use Rattle.log_model.specs.Moved.{written_by};
ghost use Rattle.report_model.specs.Query.{has_sink};
ghost use Rattle.run_beginning.specs.Need.{output_bytes, steps_for_call as steps_of_call};

use flow_model::SinkByte;
use log_model::CallRecord;
use query_lang::Query;

/// How many bytes were written on each channel. There are no others.
pub(crate) type Written = [u32; 16];

/// Whether a query chooses one of so many output bytes of a channel, from an offset on.
fn chooses_some(query: &Query, channel: u8, from: u32, count: u32) -> bool
    requires { from + count < 2 ^ 32 }
    ensures { result ≡ list_any (has_sink query.now) (output_bytes true channel from count) }
{
    for i in 0..count {
        let offset = from + i;
        if query.sink_has(SinkByte { channel, offset }) {
            return true;
        }
    }
    false
}

/// Counts the bytes of a write, and gives the offset of the first.
fn count(written: &mut Written, channel: u32, length: u32) -> u32
    requires channel { channel < 16 }
    requires room { slice_index written.old channel + length < 2 ^ 32 }
    ensures offset { result ≡ slice_index written.old channel }
    ensures same { slice_index written.new channel ≡ slice_index written.old channel + length }
    ensures others { (c : ℕ) → c ≢ channel → slice_index written.new c ≡ slice_index written.old c }
{
    let offset = written[channel as usize];
    written[channel as usize] = offset + length;
    offset
}

/// How many steps a call needs: its own and those before it, where the query chooses one of its output bytes. These are
/// counted.
pub(crate) fn steps_for_call(query: &Query, written: &mut Written, call: &CallRecord) -> u64
    requires time { at_of call.now < 2 ^ 40 }
    requires room { (c : ℕ) → c < 16 → slice_index written.old c + length (written_by c call.now) < 2 ^ 32 }
    ensures needed { result ≡ steps_of_call query.now (λ c. slice_index written.old c) call.now }
    ensures counted { (c : ℕ) → c < 16
        → slice_index written.new c ≡ slice_index written.old c + length (written_by c call.now) }
{
    match call {
        CallRecord::Write {
            at,
            args,
            bytes,
            ..
        } => {
            if args[0] >= 16 {
                return 0;
            }
            let length = bytes.len() as u32;
            let from = count(written, args[0], length);
            if chooses_some(query, args[0] as u8, from, length) {
                *at + 1
            } else {
                0
            }
        }
        CallRecord::Read { .. } => 0,
        CallRecord::Clock { .. } => 0,
        CallRecord::Other { .. } => 0,
    }
}
