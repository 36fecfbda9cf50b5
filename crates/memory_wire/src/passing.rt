//! What passed over a wire, and what is still to come.

ghost use Rattle.std.specs.Prelude.{◌≡◌, ◌≤◌, ◌<◌, [], length, map, min, take, IfOk};
ghost use Rattle.outer_wire.specs.Wires.{went};
ghost use Rattle.memory_wire.specs.Passing.{step_of, after_receive, after_send};

use crate::step::Step;
use outer_io::Buffer;
use std::alloc::{AllocError, Global};
use std::marker::Model;

/// The bytes that come, those that went, and at which call how many of them passed.
#[derive(Drop)]
pub struct Passing {
    bytes: Vec<u8>,
    came: usize,
    gone: Buffer,
    steps: Vec<Step>,
    calls_left: usize,
}

impl Model for Passing {
    ghost use Rattle.std.specs.Prelude.{drop};
    ghost use Rattle.memory_wire.specs.Passing.{PassingAt, passed_in};
    ghost use Rattle.memory_wire.specs.PassingRoom.{IsRoomy};

    ghost Value = { PassingAt };

    ghost view = { λ p. record {
      coming = drop p.came p.bytes.items;
      history = passed_in p.bytes.items p.gone.bytes p.steps.items;
      room = p.gone.room;
      calls_left = p.calls_left;
    } };

    ghost invariant = { IsRoomy };
}

impl Passing {
    /// Nothing passed yet. These bytes come; there is room for so many that go, and for as many calls.
    pub fn new(alloc: Global, bytes: Vec<u8>, room: usize) -> Result<Passing, AllocError>
        ensures { IfOk result (λ passing. passing ≡ record {
          coming = bytes.items;
          history = [];
          room = room;
          calls_left = room;
        }) }
    {
        Ok(Passing {
            bytes,
            came: 0,
            gone: Buffer::new(alloc, room)?,
            steps: Vec::with_capacity(alloc, room)?,
            calls_left: room,
        })
    }

    /// How many bytes that go there is room for.
    pub fn room(&self) -> usize
        ensures { result ≡ self.now.room }
    {
        self.gone.room()
    }

    /// How many calls there is room for.
    pub fn calls_left(&self) -> usize
        ensures { result ≡ self.now.calls_left }
    {
        self.calls_left
    }

    /// All that went.
    pub fn gone(&self) -> &[u8]
        ensures { result.now ≡ went self.now.history }
    {
        self.gone.bytes()
    }

    /// What passed, a step for each call in which something did.
    pub fn steps(&self) -> &[Step]
        ensures { result.now ≡ map step_of self.now.history }
    {
        &self.steps
    }

    /// Receives at most this many of the bytes that come into the front of the buffer, and answers how many.
    pub fn receive(&mut self, into: &mut [u8], most: usize) -> usize
        requires { 0 < self.old.calls_left }
        ensures count { result ≡ min (min (length into.old) most) (length self.old.coming) }
        ensures bytes { take result into.new ≡ take result self.old.coming }
        ensures received { self.new ≡ after_receive (length into.old) result self.old }
    {
        self.calls_left -= 1;
        if into.is_empty() {
            return 0;
        }
        let rest = &self.bytes[self.came..];
        let count = into.len().min(most).min(rest.len());
        into[..count].copy_from_slice(&rest[..count]);
        self.came += count;
        let Ok(()) = self.steps.push(Step::Received(count)) else {
            unreachable!();
        };
        count
    }

    /// Sends the piece.
    pub fn send(&mut self, piece: &[u8])
        requires room { length piece.now ≤ self.old.room }
        requires call { 0 < self.old.calls_left }
        ensures { self.new ≡ after_send piece.now self.old }
    {
        self.calls_left -= 1;
        if piece.is_empty() {
            return;
        }
        self.gone.push(piece);
        let Ok(()) = self.steps.push(Step::Sent(piece.len())) else {
            unreachable!();
        };
    }
}
