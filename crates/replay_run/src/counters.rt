//! The numbers of a run.

ghost use Rattle.std.specs.Prelude.{◌≡◌};

use std::marker::Model;

/// The numbers that a run keeps beside its machine and its log: how many steps are done, how many records' calls are
/// done, and how many bytes were read and written on each channel.
#[derive(Clone, Copy)]
pub struct Counters {
    pub(crate) time: u64,
    pub(crate) done: usize,
    pub(crate) read: [u32; 16],
    pub(crate) written: [u32; 16],
}

impl Model for Counters {
    ghost use Rattle.replay_run.specs.Counters.{RunCounters};

    ghost Value = { RunCounters };

    ghost view = { λ c. record { time = c.time; done = c.done; read = c.read; written = c.written } };

    ghost inverse = { λ v. record { time = v.time; done = v.done; read = v.read; written = v.written } };
}

impl Counters {
    /// How many steps are done.
    pub fn time(&self) -> u64
        ensures { result ≡ self.now.time }
    {
        self.time
    }
}
