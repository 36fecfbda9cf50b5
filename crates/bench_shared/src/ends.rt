//! The two ends that are timed, by one pair of traits.
use epoch_link::{Popped, Pushed};
use std::collections::VecDeque;
use std::sync::{Mutex, Wait};

/// Sends a message, if there is room for it.
pub trait Sends {
    fn send(&mut self, number: u64) -> bool;
}

/// Takes the next message, if there is one.
pub trait Takes {
    fn take(&mut self) -> Option<u64>;
}

impl Sends for epoch_link::Producer<u64> {
    fn send(&mut self, number: u64) -> bool {
        self.push(number) == Pushed::Done
    }
}

impl Takes for epoch_link::Consumer<u64> {
    fn take(&mut self) -> Option<u64> {
        match self.pop() {
            Popped::Item(number) => Some(number),
            Popped::Empty => None,
        }
    }
}

impl Sends for rtrb::Producer<u64> {
    fn send(&mut self, number: u64) -> bool {
        self.push(number).is_ok()
    }
}

impl Takes for rtrb::Consumer<u64> {
    fn take(&mut self) -> Option<u64> {
        self.pop().ok()
    }
}

/// A queue under a lock.
#[derive(Drop)]
pub struct Locked<'a, R: Wait> {
    pub rt: &'a R,
    pub queue: &'a Mutex<VecDeque<u64>>,
}

impl<R: Wait> Sends for Locked<'_, R> {
    fn send(&mut self, number: u64) -> bool {
        let mut queue = self.queue.lock(self.rt);
        if queue.len() >= queue.capacity() {
            return false;
        }
        queue.push_back_reserved(number);
        true
    }
}

impl<R: Wait> Takes for Locked<'_, R> {
    fn take(&mut self) -> Option<u64> {
        self.queue.lock(self.rt).pop_front()
    }
}
