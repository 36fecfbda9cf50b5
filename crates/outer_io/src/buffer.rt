//! A buffer that keeps its room.

ghost use Rattle.std.specs.Prelude.{◌≡◌, ◌≤◌, [], length, IfOk};
ghost use Rattle.outer_io.specs.Buffered.{after_push, emptied};

use std::alloc::{AllocError, Global};
use std::marker::Model;

/// Bytes, and the room for more. Its calls take no memory.
#[derive(Drop)]
pub struct Buffer {
    bytes: Vec<u8>,
    room: usize,
}

impl Model for Buffer {
    ghost use Rattle.std.specs.Prelude.{◌≤◌, ◌+◌, length, vec_capacity};
    ghost use Rattle.outer_io.specs.Buffered.{Buffered};

    ghost Value = { Buffered };

    ghost view = { λ b. record { bytes = b.bytes.items; room = b.room } };

    ghost invariant = { λ b. length b.bytes.items + b.room ≤ vec_capacity b.bytes };
}

impl Buffer {
    /// An empty buffer with this room.
    pub fn new(alloc: Global, room: usize) -> Result<Buffer, AllocError>
        ensures { IfOk result (λ buffer. buffer ≡ record { bytes = []; room = room }) }
    {
        Ok(Buffer {
            bytes: Vec::with_capacity(alloc, room)?,
            room,
        })
    }

    /// Puts the piece at the end.
    pub fn push(&mut self, piece: &[u8])
        requires { length piece.now ≤ self.old.room }
        ensures { self.new ≡ after_push piece.now self.old }
    {
        let Ok(()) = self.bytes.extend_from_slice(piece) else {
            unreachable!();
        };
        self.room -= piece.len();
    }

    /// Drops the bytes.
    pub fn clear(&mut self)
        ensures { self.new ≡ emptied self.old }
    {
        self.room += self.bytes.len();
        self.bytes.clear();
    }

    /// How many bytes more there is room for.
    pub fn room(&self) -> usize
        ensures { result ≡ self.now.room }
    {
        self.room
    }

    /// The bytes.
    pub fn bytes(&self) -> &[u8]
        ensures { result.now ≡ self.now.bytes }
    {
        &self.bytes
    }
}
