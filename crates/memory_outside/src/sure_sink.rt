//! A sink in memory that never fails.

ghost use Rattle.std.specs.Prelude.{◌≡◌, [], false, IfOk};
ghost use Rattle.std.proofs.Common.{arith};
ghost use Rattle.memory_outside.specs.MemorySinks.{sure_sink_shown, sure_write};

use outer_io::{Buffer, Failed, Sink};
use std::alloc::{AllocError, Global};
use std::marker::Model;

/// A sink in memory that never fails. It goes on taking past its room, and then tells no more.
#[derive(Drop)]
pub struct SureSink {
    buffer: Buffer,
    is_lost: bool,
}

impl Model for SureSink {
    ghost use Rattle.memory_outside.specs.MemorySinks.{SureWritten};

    ghost Value = { SureWritten };

    ghost view = { λ s. record { buffer = s.buffer; is_lost = s.is_lost } };
}

impl SureSink {
    /// A sink with room for `room` bytes. It fails where there is no memory for the room.
    pub fn new(alloc: Global, room: usize) -> Result<SureSink, AllocError>
        ensures { IfOk result (λ sink. sink ≡ record { buffer = record { bytes = []; room = room }; is_lost = false }) }
    {
        Ok(SureSink {
            buffer: Buffer::new(alloc, room)?,
            is_lost: false,
        })
    }

    /// What was written, where it is told, and otherwise what there was room for.
    pub fn bytes(&self) -> &[u8]
        ensures { result.now ≡ self.now.buffer.bytes }
    {
        self.buffer.bytes()
    }
}

impl Sink for SureSink {
    ghost shown = { sure_sink_shown };

    ghost put_gives = { λ s piece count after. (count, after) ≡ sure_write piece s };

    ghost counted = { λ s. Prim.omega arith };

    fn put(&mut self, piece: &[u8]) -> Result<usize, Failed> {
        if piece.len() <= self.buffer.room() {
            self.buffer.push(piece);
        } else {
            self.is_lost = true;
        }
        Ok(piece.len())
    }
}
