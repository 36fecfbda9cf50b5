//! Turns in a row that moved nothing.

ghost use Rattle.std.specs.Prelude.{◌≤◌};
ghost use Rattle.std.specs.Duration.{as_nanos};

use crate::task::Turn;
use std::sync::Wait;
use std::sync::atomic::AtomicU64;
use std::thread;
use std::time::Duration;

/// How many turns in a row may move nothing before a worker lets other threads run. A worker whose thread stands still holds a
/// task that others may wait for.
const MOST_IDLE_TURNS: u32 = 64;

/// How often in a row a worker lets other threads run before it sleeps: with the turns before them that is more than a round of a
/// thousand tasks.
const MOST_IDLE_RESTS: u32 = 16;

/// How long a worker then sleeps. What it waits for may come at once after it fell asleep.
fn nap() -> Duration
    ensures { as_nanos result ≤ 1_000_000 }
{
    Duration::from_micros(100)
}

/// Counts a worker's turns in a row that moved nothing, and how often it rested since one moved something.
#[derive(Drop)]
pub struct Idle {
    turns: u32,
    rests: u32,
    // Nobody wakes it.
    bed: AtomicU64,
}

impl Idle {
    pub fn new() -> Idle {
        Idle {
            turns: 0,
            rests: 0,
            bed: AtomicU64::new(0),
        }
    }

    /// Counts a turn with this answer.
    pub fn note(&mut self, answer: Turn) {
        match answer {
            Turn::NotYet => self.turns = self.turns.saturating_add(1),
            Turn::Moved | Turn::Done => {
                self.turns = 0;
                self.rests = 0;
            }
        }
    }

    /// Lets other threads run, where too many turns moved nothing, and sleeps where that was so again and again.
    pub fn rest<R: Wait>(&mut self, rt: &R) {
        if self.turns < MOST_IDLE_TURNS {
            return;
        }
        self.turns = 0;
        if self.rests < MOST_IDLE_RESTS {
            self.rests += 1;
            thread::yield_now();
        } else {
            self.bed.park_timeout(rt, 0, nap());
        }
    }
}
