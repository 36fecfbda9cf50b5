//! A sink in memory that can fail.

ghost use Rattle.std.specs.Prelude.{◌≡◌, ◌<◌, [], IfOk};
ghost use Rattle.std.proofs.Common.{arith};
ghost use Rattle.memory_outside.specs.MemorySinks.{memory_sink_shown, memory_write};

use crate::calls::Calls;
use outer_io::{Buffer, Failed, Sink};
use std::alloc::{AllocError, Global};
use std::marker::Model;

/// A sink in memory, of which calls of chosen numbers fail. A put past its room is a fault.
#[derive(Drop)]
pub struct MemorySink {
    buffer: Buffer,
    calls: Calls,
    piece: usize,
}

impl Model for MemorySink {
    ghost use Rattle.std.specs.Prelude.{◌<◌};
    ghost use Rattle.memory_outside.specs.MemorySinks.{MemoryWritten};

    ghost Value = { MemoryWritten };

    ghost view = { λ s. record { buffer = s.buffer; calls = s.calls; piece = s.piece } };

    ghost invariant = { λ s. 0 < s.piece };
}

impl MemorySink {
    /// A sink with room for `room` bytes.
    ///
    /// Its puts are numbered from 0: those whose numbers are in `failing` fail, and the others move
    /// at most `piece` bytes. It fails where there is no memory for the room.
    pub fn new(
        alloc: Global,
        failing: Vec<u64>,
        piece: usize,
        room: usize,
    ) -> Result<MemorySink, AllocError>
        requires { 0 < piece }
        ensures { IfOk result (λ sink. sink ≡ record {
          buffer = record { bytes = []; room = room };
          calls = record { failing = failing.items; next = 0; faults = 0 };
          piece = piece;
        }) }
    {
        Ok(MemorySink {
            buffer: Buffer::new(alloc, room)?,
            calls: Calls::new(failing),
            piece,
        })
    }

    /// What was written.
    pub fn bytes(&self) -> &[u8]
        ensures { result.now ≡ self.now.buffer.bytes }
    {
        self.buffer.bytes()
    }
}

impl Sink for MemorySink {
    ghost shown = { memory_sink_shown };

    ghost put_gives = { λ s piece count after. (count, after) ≡ memory_write piece s };

    ghost counted = { λ s. Prim.omega arith };

    fn put(&mut self, piece: &[u8]) -> Result<usize, Failed> {
        let moved = &piece[..piece.len().min(self.piece)];
        let can = moved.len() <= self.buffer.room();
        self.calls.count(can)?;
        self.buffer.push(moved);
        Ok(moved.len())
    }
}
