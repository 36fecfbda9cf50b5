//! Gates for tests: one that counts how often each epoch enters, and one in which two epochs wait for each other.
use outer_io::Gate;
use std::alloc::{AllocError, Global};
use std::sync::atomic::{AtomicU64, Ordering};
use std::thread;

/// A gate that counts how often each of the first epochs enters, and how often another one does.
#[derive(Drop)]
pub struct CountingGate {
    entries: Vec<AtomicU64>,
    others: AtomicU64,
}

impl CountingGate {
    /// A gate that counts so many epochs. It gives up where there is no memory.
    pub fn new(alloc: Global, epochs: u32) -> Result<CountingGate, AllocError> {
        let mut entries = Vec::new(alloc);
        for _ in 0..epochs {
            entries.push(AtomicU64::new(0))?;
        }
        Ok(CountingGate {
            entries,
            others: AtomicU64::new(0),
        })
    }

    /// What counts an epoch.
    fn count_of(&self, epoch: u32) -> &AtomicU64 {
        self.entries.get(epoch as usize).unwrap_or(&self.others)
    }

    /// Whether each epoch entered once, and no other did.
    pub fn is_entered_by_each_once(&self) -> bool {
        for count in &self.entries {
            if count.load(Ordering::SeqCst) != 1 {
                return false;
            }
        }
        self.others.load(Ordering::SeqCst) == 0
    }
}

impl Gate for CountingGate {
    fn enter(&self, epoch: u32) {
        self.count_of(epoch).fetch_add(1, Ordering::SeqCst);
    }
}

/// How often one epoch looks whether the other one has entered.
const LOOKS: u64 = 100_000_000;

/// A gate that holds each of two epochs until the other one has entered, or until it has looked often enough.
#[derive(Drop)]
pub struct MeetingGate {
    both: CountingGate,
    given_up: AtomicU64,
}

impl MeetingGate {
    /// A gate for two epochs. It gives up where there is no memory.
    pub fn new(alloc: Global) -> Result<MeetingGate, AllocError> {
        Ok(MeetingGate {
            both: CountingGate::new(alloc, 2)?,
            given_up: AtomicU64::new(0),
        })
    }

    /// Whether both were inside at once: each entered once, and none gave up.
    pub fn is_met(&self) -> bool {
        self.given_up.load(Ordering::SeqCst) == 0 && self.both.is_entered_by_each_once()
    }
}

impl Gate for MeetingGate {
    fn enter(&self, epoch: u32) {
        self.both.enter(epoch);
        let other = if epoch == 0 { 1 } else { 0 };
        for _ in 0..LOOKS {
            if self.both.count_of(other).load(Ordering::SeqCst) > 0 {
                return;
            }
            thread::yield_now();
        }
        self.given_up.fetch_add(1, Ordering::SeqCst);
    }
}
