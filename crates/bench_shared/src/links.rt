//! How fast two threads pass messages: over the ring of `epoch_link`, over `rtrb`, and through a queue under a lock.
//!
//! Standard output tells what a link within one thread and a ring answer, which numbers come over rings of other
//! capacities and are left in them, and then how many messages came in order.

use crate::ends::{Locked, Sends, Takes};
use crate::{answers, numbers};
use epoch_link::Capacity;
use rtrb::RingBuffer;
use std::alloc::{AllocError, Global};
use std::collections::VecDeque;
use std::sync::{Mutex, Wait};
use std::thread::Threads;
use std::time::{Clock, Duration, Instant};
use std::{io, thread};

const MESSAGES: u64 = 1_000_000;

const CAPACITY: u32 = 1024;

// Tries until the message is sent.
fn send_one<S: Sends>(sender: &mut S, number: u64) {
    for _ in 0..u64::MAX {
        if sender.send(number) {
            return;
        }
        thread::yield_now();
    }
}

// Tries until a message comes.
fn take_one<T: Takes>(taker: &mut T) -> Option<u64> {
    for _ in 0..u64::MAX {
        if let Some(number) = taker.take() {
            return Some(number);
        }
        thread::yield_now();
    }
    None
}

fn send_all<S: Sends + Drop>(mut sender: S) {
    for number in 0..MESSAGES {
        send_one(&mut sender, number);
    }
}

// How many messages came in order.
fn take_all<T: Takes + Drop>(mut taker: T) -> u64 {
    let mut in_order = 0u64;
    for number in 0..MESSAGES {
        if take_one(&mut taker) == Some(number) {
            in_order = in_order.saturating_add(1);
        }
    }
    in_order
}

// Passes all messages from one thread to another, and answers how many came in order and how long it took.
fn pass<R: Threads + Clock, S: Sends + Send + Drop, T: Takes + Send + Drop>(
    rt: &R,
    sender: S,
    taker: T,
) -> io::Result<(u64, Duration)> {
    let start = Instant::now(rt)?;
    let ((), in_order) = thread::join(rt, move || send_all(sender), move || take_all(taker));
    Ok((in_order, start.elapsed(rt)?))
}

fn over_ring<R: Threads + Clock>(rt: &R, alloc: Global) -> io::Result<(u64, Duration)> {
    let Ok((producer, consumer)) = epoch_link::ring(alloc, Capacity::of(CAPACITY)) else {
        return Err(AllocError.into());
    };
    pass(rt, producer, consumer)
}

fn over_rtrb<R: Threads + Clock>(rt: &R, alloc: Global) -> io::Result<(u64, Duration)> {
    let (producer, consumer) = RingBuffer::new(alloc, CAPACITY as usize)?;
    pass(rt, producer, consumer)
}

fn under_lock<R: Threads + Clock + Wait + Sync>(
    rt: &R,
    alloc: Global,
) -> io::Result<(u64, Duration)> {
    let queue = Mutex::new(VecDeque::with_capacity(alloc, CAPACITY as usize)?);
    let queue = &queue;
    pass(rt, Locked { rt, queue }, Locked { rt, queue })
}

/// Answers and numbers, which aren't timed.
pub fn untimed(rt: &(impl Print + Threads), alloc: Global) -> io::Result<()> {
    answers::of_list_link(rt, alloc)?;
    answers::of_ring(rt, alloc)?;
    numbers::pass(rt, alloc, Capacity::of(3), 10_000, 10_000)?;
    numbers::pass(rt, alloc, Capacity::of(16), 10_000, 9_990)?;
    numbers::pass(rt, alloc, Capacity::of(1), 1_000, 1_000)?;
    numbers::pass(rt, alloc, Capacity::of(65_536), 100_000, 40_000)
}

/// Passes all messages in each of the three ways, in so many rounds.
pub fn timed<R: Print + Eprint + Threads + Clock + Wait + Sync>(
    rt: &R,
    alloc: Global,
    rounds: u32,
) -> io::Result<()> {
    let mut fastest = [Duration::MAX; 3];
    for _ in 0..rounds {
        let passed = [
            over_ring(rt, alloc)?,
            over_rtrb(rt, alloc)?,
            under_lock(rt, alloc)?,
        ];
        for (best, (in_order, took)) in fastest.iter_mut().zip(&passed) {
            println!(rt; "{in_order} messages in order")?;
            *best = (*best).min(*took);
        }
    }
    for (name, best) in ["ring", "rtrb", "lock"].iter().zip(&fastest) {
        eprintln!(rt; "{name}: {} us", best.as_micros())?;
    }
    Ok(())
}
