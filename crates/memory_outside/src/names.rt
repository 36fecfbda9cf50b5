//! The names that were handed to a store.

ghost use Rattle.std.specs.Prelude.{◌≡◌, IfOk};
ghost use Rattle.memory_outside.specs.Names.{after_note, has_room_for, no_names};

use std::alloc::{AllocError, Global};
use std::marker::Model;

/// How many names there is room for, and how many bytes of them in all.
const NAMES: usize = 256;

const BYTES: usize = 16384;

/// Names one after another, which are told while the room for them lasts.
#[derive(Drop)]
pub struct OpenedNames {
    bytes: Vec<u8>,
    lengths: Vec<usize>,
    is_lost: bool,
}

impl Model for OpenedNames {
    ghost use Rattle.memory_outside.specs.Names.{Opened, opened_of};

    ghost Value = { Opened };

    ghost use Rattle.memory_outside.specs.NamesRoom.{IsRoomy};

    ghost view = { λ a. opened_of a.bytes.items a.lengths.items a.is_lost };

    ghost invariant = { IsRoomy };
}

impl OpenedNames {
    pub fn new(alloc: Global) -> Result<OpenedNames, AllocError>
        ensures { IfOk result (λ opened. opened ≡ no_names) }
    {
        Ok(OpenedNames {
            bytes: Vec::with_capacity(alloc, BYTES)?,
            lengths: Vec::with_capacity(alloc, NAMES)?,
            is_lost: false,
        })
    }

    /// Adds a name. Where there is no room for it, the names are told no more.
    pub fn note(&mut self, name: &str)
        ensures { self.new ≡ after_note name.now self.old }
    {
        if !self.has_room_for(name) {
            self.is_lost = true;
            return;
        }
        let Ok(()) = self.bytes.extend_from_slice(name.as_bytes()) else {
            unreachable!();
        };
        let Ok(()) = self.lengths.push(name.len()) else {
            unreachable!();
        };
    }

    fn has_room_for(&self, name: &str) -> bool
        ensures { result ≡ has_room_for name.now self.now }
    {
        name.len() <= BYTES - self.bytes.len() && NAMES - self.lengths.len() > 0
    }
}
