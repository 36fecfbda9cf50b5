//! A store in memory that can fail.

ghost use Rattle.std.specs.Prelude.{◌≡◌, ◌<◌, false, IfOk};
ghost use Rattle.std.proofs.Common.{arith};
ghost use Rattle.memory_outside.specs.Held.{entries_of, held_of};
ghost use Rattle.memory_outside.specs.Names.{no_names};
ghost use Rattle.memory_outside.specs.MemoryStores.{memory_store_shown, memory_begin_read, memory_read, memory_create, memory_put, memory_finish};

use crate::calls::Calls;
use crate::file::MemoryFile;
use crate::files::{MemoryFiles, name_has_room};
use crate::names::OpenedNames;
use outer_io::{Failed, Store};
use std::alloc::{AllocError, Global};
use std::marker::Model;

/// Files in memory, of which calls of chosen numbers fail.
///
/// Other faults are a file to be read that is missing, a put past the room, a name of more than 4,096
/// bytes, and the finish of a file after eight were finished.
#[derive(Drop)]
pub struct MemoryStore {
    files: MemoryFiles,
    opened: OpenedNames,
    calls: Calls,
    piece: usize,
    is_open: bool,
    is_created: bool,
}

impl Model for MemoryStore {
    ghost use Rattle.std.specs.Prelude.{◌<◌};
    ghost use Rattle.memory_outside.specs.MemoryStores.{MemoryStored};

    ghost Value = { MemoryStored };

    ghost view = { λ s. record { held = s.files; opened = s.opened; calls = s.calls; piece = s.piece; is_open = s.is_open; is_created = s.is_created } };

    ghost invariant = { λ s. 0 < s.piece };
}

impl MemoryStore {
    /// A store of these files, of which the first counts where several have one name, with room for
    /// files of `room` bytes to be written.
    ///
    /// The five calls are numbered together from 0: those whose numbers are in `failing` fail, and a
    /// read or a put moves at most `piece` bytes. It fails where there is no memory for the room.
    pub fn new(
        alloc: Global,
        files: Vec<MemoryFile>,
        failing: Vec<u64>,
        piece: usize,
        room: usize,
    ) -> Result<MemoryStore, AllocError>
        requires { 0 < piece }
        ensures { IfOk result (λ store. store ≡ record {
          held = held_of (entries_of files.items) room;
          opened = no_names;
          calls = record { failing = failing.items; next = 0; faults = 0 };
          piece = piece;
          is_open = false;
          is_created = false;
        }) }
    {
        Ok(MemoryStore {
            files: MemoryFiles::new(alloc, files, room)?,
            opened: OpenedNames::new(alloc)?,
            calls: Calls::new(failing),
            piece,
            is_open: false,
            is_created: false,
        })
    }
}

impl Store for MemoryStore {
    ghost shown = { memory_store_shown };

    ghost is_open = { λ s. s.is_open };

    ghost is_created = { λ s. s.is_created };

    ghost begin_read_gives = { λ s name went after. (went, after) ≡ memory_begin_read name s };

    ghost read_gives = { λ s room count after. (count, after) ≡ memory_read room s };

    ghost create_gives = { λ s name went after. (went, after) ≡ memory_create name s };

    ghost put_gives = { λ s piece count after. (count, after) ≡ memory_put piece s };

    ghost finish_gives = { λ s went after. (went, after) ≡ memory_finish s };

    ghost counted = { λ s. Prim.omega arith };

    fn begin_read(&mut self, name: &str) -> Result<(), Failed> {
        let can = self.files.can_read(name);
        self.is_open = false;
        self.opened.note(name);
        self.calls.count(can)?;
        self.files.begin_read(name);
        self.is_open = true;
        Ok(())
    }

    fn read(&mut self, into: &mut [u8]) -> Result<usize, Failed> {
        self.calls.count(true)?;
        Ok(self.files.read(into, self.piece))
    }

    fn create(&mut self, name: &str) -> Result<(), Failed> {
        let can = name_has_room(name);
        self.is_created = false;
        self.opened.note(name);
        self.calls.count(can)?;
        self.files.create(name);
        self.is_created = true;
        Ok(())
    }

    fn put(&mut self, piece: &[u8]) -> Result<usize, Failed> {
        let moved = &piece[..piece.len().min(self.piece)];
        let can = self.files.can_put(moved);
        self.calls.count(can)?;
        self.files.put(moved);
        Ok(moved.len())
    }

    fn finish(&mut self) -> Result<(), Failed> {
        let can = self.files.can_finish();
        self.is_created = false;
        self.calls.count(can)?;
        self.files.finish();
        Ok(())
    }
}
