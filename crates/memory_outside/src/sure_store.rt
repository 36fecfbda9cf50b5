//! A store in memory that never fails.

ghost use Rattle.std.specs.Prelude.{◌≡◌, ◌↔◌, false, IsTrue, IfOk};
ghost use Rattle.std.proofs.Common.{arith};
ghost use Rattle.memory_outside.specs.Held.{entries_of, held_of};
ghost use Rattle.memory_outside.specs.Names.{no_names};
ghost use Rattle.memory_outside.specs.SureStores.{sure_store_shown, StaysWithinRoom, sure_begin_read, sure_read, sure_create, sure_put, sure_finish};

use crate::file::MemoryFile;
use crate::files::{MemoryFiles, name_has_room};
use crate::names::OpenedNames;
use outer_io::{Failed, Store};
use std::alloc::{AllocError, Global};
use std::marker::Model;

/// Files in memory, of which no call fails: a missing file is an empty one.
///
/// It goes on taking past its room, and then tells its files no more: after a put past the room, a
/// name of more than 4,096 bytes, or the finish of a file after eight were finished.
#[derive(Drop)]
pub struct SureStore {
    files: MemoryFiles,
    opened: OpenedNames,
    is_lost: bool,
    is_open: bool,
    is_created: bool,
}

impl Model for SureStore {
    ghost use Rattle.memory_outside.specs.SureStores.{SureStored};

    ghost Value = { SureStored };

    ghost view = { λ s. record { held = s.files; opened = s.opened; is_lost = s.is_lost; is_open = s.is_open; is_created = s.is_created } };
}

impl SureStore {
    /// A store of these files, of which the first counts where several have one name, with room for
    /// files of `room` bytes to be written. It fails where there is no memory for the room.
    pub fn new(alloc: Global, files: Vec<MemoryFile>, room: usize) -> Result<SureStore, AllocError>
        ensures { IfOk result (λ store. store ≡ record {
          held = held_of (entries_of files.items) room;
          opened = no_names;
          is_lost = false;
          is_open = false;
          is_created = false;
        }) }
    {
        Ok(SureStore {
            files: MemoryFiles::new(alloc, files, room)?,
            opened: OpenedNames::new(alloc)?,
            is_lost: false,
            is_open: false,
            is_created: false,
        })
    }

    /// Whether the files are still told: no call so far wanted more than the room.
    pub fn is_told(&self) -> bool
        ensures { IsTrue result ↔ StaysWithinRoom self.now }
    {
        !self.is_lost
    }
}

impl Store for SureStore {
    ghost shown = { sure_store_shown };

    ghost is_open = { λ s. s.is_open };

    ghost is_created = { λ s. s.is_created };

    ghost begin_read_gives = { λ s name went after. (went, after) ≡ sure_begin_read name s };

    ghost read_gives = { λ s room count after. (count, after) ≡ sure_read room s };

    ghost create_gives = { λ s name went after. (went, after) ≡ sure_create name s };

    ghost put_gives = { λ s piece count after. (count, after) ≡ sure_put piece s };

    ghost finish_gives = { λ s went after. (went, after) ≡ sure_finish s };

    ghost counted = { λ s. Prim.omega arith };

    fn begin_read(&mut self, name: &str) -> Result<(), Failed> {
        self.opened.note(name);
        if name_has_room(name) {
            self.files.begin_read(name);
        } else {
            // There is no room for the name: the file of the empty name is read.
            self.files.begin_read("");
            self.is_lost = true;
        }
        self.is_open = true;
        Ok(())
    }

    fn read(&mut self, into: &mut [u8]) -> Result<usize, Failed> {
        Ok(self.files.read(into, usize::MAX))
    }

    fn create(&mut self, name: &str) -> Result<(), Failed> {
        self.opened.note(name);
        if name_has_room(name) {
            self.files.create(name);
        } else {
            self.files.create("");
            self.is_lost = true;
        }
        self.is_created = true;
        Ok(())
    }

    fn put(&mut self, piece: &[u8]) -> Result<usize, Failed> {
        if self.files.can_put(piece) {
            self.files.put(piece);
        } else {
            self.is_lost = true;
        }
        Ok(piece.len())
    }

    fn finish(&mut self) -> Result<(), Failed> {
        if self.files.can_finish() {
            self.files.finish();
        } else {
            self.is_lost = true;
        }
        self.is_created = false;
        Ok(())
    }
}
