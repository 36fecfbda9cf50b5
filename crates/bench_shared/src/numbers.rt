//! Numbers that one thread sends over a ring and another takes, and those that are left when the ends are closed.
ghost use Rattle.std.specs.Prelude.{◌≡◌};

use epoch_link::{Capacity, Consumer, Left, Popped, Producer, Pushed, close, ring};
use std::alloc::{AllocError, Global};
use std::thread::Threads;
use std::{io, thread};

/// So many tries are enough, unless a thread stands still.
const TRIES: u32 = 100_000_000;

// Sends the numbers below `count`, and answers how many went through.
fn send_numbers(mut producer: Producer<u32>, count: u32) -> (Producer<u32>, u32)
    ensures { result.0.link ≡ producer.link }
{
    let mut sent = 0;
    for _ in 0..TRIES {
        if sent >= count {
            break;
        }
        match producer.push(sent) {
            Pushed::Done => sent += 1,
            Pushed::Full(_) => thread::yield_now(),
        }
    }
    (producer, sent)
}

// Takes the numbers below `count`, and answers how many came in order.
fn take_numbers(mut consumer: Consumer<u32>, count: u32) -> (Consumer<u32>, u32)
    ensures { result.0.link ≡ consumer.link }
{
    let mut got = 0;
    for _ in 0..TRIES {
        if got >= count {
            break;
        }
        match consumer.pop() {
            Popped::Item(number) if number == got => got += 1,
            Popped::Item(_) => break,
            Popped::Empty => thread::yield_now(),
        }
    }
    (consumer, got)
}

// How many of the numbers that are left follow each other from `first` on.
fn left_in_order(mut left: Left<u32>, first: u32, count: u32) -> u32 {
    let mut next = first;
    for _ in first..count {
        if left.next() != Some(next) {
            break;
        }
        next = next.saturating_add(1);
    }
    if left.next().is_some() {
        0
    } else {
        next.saturating_sub(first)
    }
}

/// One thread sends the numbers below `count`, and another takes those below `taken`.
pub fn pass<R: Threads + Print>(
    rt: &R,
    alloc: Global,
    capacity: Capacity,
    count: u32,
    taken: u32,
) -> io::Result<()> {
    let Ok((producer, consumer)) = ring(alloc, capacity) else {
        return Err(AllocError.into());
    };
    let ((producer, sent), (consumer, got)) = thread::join(
        rt,
        move || -> (Producer<u32>, u32)
            ensures { result.0.link ≡ producer.link }
        { send_numbers(producer, count) },
        move || -> (Consumer<u32>, u32)
            ensures { result.0.link ≡ consumer.link }
        { take_numbers(consumer, taken) },
    );
    let left = left_in_order(close(producer, consumer), taken, count);
    println!(rt;
        "ring of {}: {sent} sent, {got} came in order, {left} left in order",
        capacity.get()
    )
}
