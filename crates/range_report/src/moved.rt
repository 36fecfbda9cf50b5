//! The bytes that calls moved, by channel.

ghost use Rattle.std.specs.Prelude.{◌≡◌, IfOk};
ghost use Rattle.std.specs.List.{slice_range};
ghost use Rattle.log_model.specs.Moved.{received as received_on, written as written_on};
ghost use Rattle.range_report.specs.Channels.{IsTable};

use crate::channels::Channels;
use log_model::CallRecord;
use no_memory::NoMemory;
use std::alloc::Global;

/// Calls of a run, and all bytes that they received on each channel and wrote on it.
#[derive(Drop)]
pub struct MovedBytes<'a> {
    pub calls: &'a [CallRecord],
    pub received: Channels,
    pub written: Channels,
    ghost received_is: { IsTable received_on calls.now received },
    ghost written_is: { IsTable written_on calls.now written },
}

impl<'a> MovedBytes<'a> {
    /// The bytes that these calls moved.
    pub fn new(alloc: Global, calls: &'a [CallRecord]) -> Result<MovedBytes<'a>, NoMemory>
        ensures { IfOk result (λ moved. moved.calls.now ≡ calls.now) }
    {
        let mut received = Channels::new(alloc)?;
        let mut written = Channels::new(alloc)?;
        for call in calls {
            match call {
                CallRecord::Read { args, bytes, .. } => received.add(args[0], bytes.as_slice())?,
                CallRecord::Write { args, bytes, .. } => written.add(args[0], bytes.as_slice())?,
                CallRecord::Clock { .. } => {}
                CallRecord::Other { .. } => {}
            }
        }
        Ok(MovedBytes {
            calls,
            received,
            written,
        })
    }

    /// The bytes received on a channel.
    pub fn received_on(&self, channel: u8) -> &[u8]
        ensures { result.now ≡ received_on channel self.now.calls.now }
    {
        self.received.of(channel)
    }

    /// The bytes written on a channel.
    pub fn written_on(&self, channel: u8) -> &[u8]
        ensures { result.now ≡ written_on channel self.now.calls.now }
    {
        self.written.of(channel)
    }
}
