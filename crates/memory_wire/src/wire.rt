//! A wire in memory that can fail.

ghost use Rattle.std.specs.Prelude.{◌≡◌, ◌<◌, [], map, is_ok, IfOk};
ghost use Rattle.std.proofs.Common.{arith};
ghost use Rattle.memory_outside.specs.Calls.{goes_through, after_call};
ghost use Rattle.outer_wire.specs.Wires.{went};
ghost use Rattle.memory_wire.specs.Passing.{step_of};
ghost use Rattle.memory_wire.specs.MemoryWires.{memory_wire_shown, memory_receive, memory_send};

use crate::passing::Passing;
use crate::step::Step;
use outer_io::{Failed, Faults};
use outer_wire::Wire;
use std::alloc::{AllocError, Global};
use std::marker::Model;

/// A wire in memory, of which calls of chosen numbers fail. A call past its room is a fault too.
#[derive(Drop)]
pub struct MemoryWire {
    passing: Passing,
    failing: Vec<u64>,
    number: u64,
    faults: Faults,
    piece: usize,
}

impl Model for MemoryWire {
    ghost use Rattle.std.specs.Prelude.{◌<◌};
    ghost use Rattle.memory_wire.specs.MemoryWires.{MemoryWired};

    ghost Value = { MemoryWired };

    ghost view = { λ w. record {
      passing = w.passing;
      calls = record { failing = w.failing.items; next = w.number; faults = w.faults.count };
      piece = w.piece;
    } };

    ghost invariant = { λ w. 0 < w.piece };
}

impl MemoryWire {
    /// A wire over which these bytes come, with room for `room` bytes that go, and for as many calls.
    ///
    /// Its calls are numbered together from 0: those whose numbers are in `failing` fail, and the others move at most
    /// `piece` bytes. It fails where there is no memory for the room.
    pub fn new(
        alloc: Global,
        bytes: Vec<u8>,
        failing: Vec<u64>,
        piece: usize,
        room: usize,
    ) -> Result<MemoryWire, AllocError>
        requires { 0 < piece }
        ensures { IfOk result (λ wire. wire ≡ record {
          passing = record { coming = bytes.items; history = []; room = room; calls_left = room };
          calls = record { failing = failing.items; next = 0; faults = 0 };
          piece = piece;
        }) }
    {
        Ok(MemoryWire {
            passing: Passing::new(alloc, bytes, room)?,
            failing,
            number: 0,
            faults: Faults::none(),
            piece,
        })
    }

    /// All that went.
    pub fn gone(&self) -> &[u8]
        ensures { result.now ≡ went self.now.passing.history }
    {
        self.passing.gone()
    }

    /// What passed, in order: a step for each call in which something did.
    pub fn steps(&self) -> &[Step]
        ensures { result.now ≡ map step_of self.now.passing.history }
    {
        self.passing.steps()
    }

    /// Counts a call, which can go through or can't. It fails where it can't, or where its number is one of those.
    fn count(&mut self, can: bool) -> Result<(), Failed>
        ensures went { is_ok result ≡ goes_through can self.old.calls }
        ensures calls { self.new ≡ record self.old { calls = after_call (is_ok result) self.old.calls } }
    {
        let number = self.number;
        self.number = number.saturating_add(1);
        if !can || self.failing.contains(&number) {
            return Err(self.faults.fault());
        }
        Ok(())
    }
}

impl Wire for MemoryWire {
    ghost shown = { memory_wire_shown };

    ghost receive_gives = { λ w room count after. (count, after) ≡ memory_receive room w };

    ghost send_gives = { λ w piece count after. (count, after) ≡ memory_send piece w };

    ghost counted = { λ w. Prim.omega arith };

    fn receive(&mut self, into: &mut [u8]) -> Result<usize, Failed> {
        let can = self.passing.calls_left() > 0;
        self.count(can)?;
        Ok(self.passing.receive(into, self.piece))
    }

    fn send(&mut self, piece: &[u8]) -> Result<usize, Failed> {
        let moved = &piece[..piece.len().min(self.piece)];
        let can = moved.len() <= self.passing.room() && self.passing.calls_left() > 0;
        self.count(can)?;
        self.passing.send(moved);
        Ok(moved.len())
    }
}
