//! How many bytes were moved on each channel.

ghost use Rattle.std.specs.Prelude.{◌≡◌, ℕ, ◌+◌, ◌^◌, ◌<◌, ◌==◌, if◌then◌else◌, nat_eq, unwrap_or, IfOk, OnOk};
ghost use Rattle.std.specs.HashMap.{get};
ghost use Rattle.run_output.specs.declared.ways.Way.{Way as WayOf};

use crate::Way;
use no_memory::NoMemory;
use std::alloc::Global;
use std::collections::HashMap;

/// How many bytes were read, and how many were written, on each channel: none on one that isn't among the keys.
#[derive(Drop)]
pub(crate) struct ByteCounts {
    received: HashMap<u32, u64>,
    written: HashMap<u32, u64>,
}

/// Adds to the count of a channel, and gives what it was.
fn add(counts: &mut HashMap<u32, u64>, channel: u32, length: u64) -> Result<u64, NoMemory>
    requires { unwrap_or (get nat_eq counts.old channel) 0 + length < 2 ^ 64 }
    ensures before { IfOk result (λ n. n ≡ unwrap_or (get nat_eq counts.old channel) 0) }
    ensures added { OnOk result ((c : ℕ) → unwrap_or (get nat_eq counts.new c) 0
        ≡ unwrap_or (get nat_eq counts.old c) 0 + (if channel == c then length else 0)) }
{
    let before = counts.get(&channel).copied().unwrap_or(0);
    counts.insert(channel, before + length)?;
    Ok(before)
}

impl ByteCounts {
    ghost use Rattle.run_output.specs.Counts.{count_of, AreAdded};

    /// None are counted.
    pub(crate) fn new(alloc: Global) -> ByteCounts
        ensures { (way : WayOf) (c : ℕ) → count_of result way c ≡ 0 }
    {
        ByteCounts {
            received: HashMap::new(alloc),
            written: HashMap::new(alloc),
        }
    }

    /// Counts bytes that are moved on a channel, and gives how many were moved on it that way before.
    pub(crate) fn add(&mut self, way: Way, channel: u32, length: u64) -> Result<u64, NoMemory>
        requires { count_of self.old way channel + length < 2 ^ 64 }
        ensures before { IfOk result (λ n. n ≡ count_of self.old way channel) }
        ensures added { OnOk result (AreAdded self.old way channel length self.new) }
    {
        match way {
            Way::Received => add(&mut self.received, channel, length),
            Way::Written => add(&mut self.written, channel, length),
        }
    }
}
