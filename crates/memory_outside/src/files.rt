//! Files in memory, of which one is read and one is written.

ghost use Rattle.std.specs.Prelude.{◌≡◌, ◌≤◌, ◌<◌, ◌&&◌, [], ◌++◌, None, take, drop, length, is_some, IsTrue, IfOk, MatchOption, unwrap_or, string_bytes, vec_len};
ghost use Rattle.std.specs.List.{AllByRecursion};
ghost use Rattle.std.specs.String.{string_capacity};
ghost use Rattle.memory_outside.specs.Held.{entries_of, content_of, held_of, left_of, count_read, name_fits, put_fits, file_fits, after_begin_read, after_read, after_create, after_put, after_finish};
ghost use Rattle.memory_outside.specs.FilesRoom.{IsSpare, IsWithin};

use crate::file::MemoryFile;
use std::alloc::{AllocError, Global};
use std::marker::Model;
use std::mem;

/// How long a name can be, and how many files can be finished.
const NAME_BYTES: usize = 4096;

const SPARES: usize = 8;

/// The files, the newest first, and the room for what is read and written. Its calls take no memory.
#[derive(Drop)]
pub struct MemoryFiles {
    files: Vec<MemoryFile>,
    spares: Vec<MemoryFile>,
    reading: String,
    taken: Vec<u8>,
    draft: MemoryFile,
    room: usize,
    longest: usize,
}

impl Model for MemoryFiles {
    ghost use Rattle.std.specs.Prelude.{length, string_bytes};
    ghost use Rattle.memory_outside.specs.Held.{Held, entries_of};

    ghost Value = { Held };

    ghost use Rattle.memory_outside.specs.FilesRoom.{IsRoomy};

    ghost view = { λ f. record { files = entries_of f.files.items; reading = string_bytes f.reading; taken = f.taken.items; writing = string_bytes f.draft.name; put = f.draft.bytes.items; room = f.room; files_left = length f.spares.items } };

    ghost invariant = { IsRoomy };
}

// An empty file with room for a name and so many bytes.
fn spare(alloc: Global, room: usize) -> Result<MemoryFile, AllocError>
    ensures { IfOk result (IsSpare room) }
{
    Ok(MemoryFile {
        name: String::with_capacity(alloc, NAME_BYTES)?,
        bytes: Vec::with_capacity(alloc, room)?,
    })
}

// So many of them as files can be finished.
fn all_spares(alloc: Global, room: usize) -> Result<Vec<MemoryFile>, AllocError>
    ensures count { IfOk result (λ files. vec_len files ≡ 8) }
    ensures spare { IfOk result (λ files. AllByRecursion (IsSpare room) files.items) }
{
    let mut files = Vec::with_capacity(alloc, SPARES)?;
    while files.len() < SPARES {
        files.push(spare(alloc, room)?)?;
    }
    Ok(files)
}

// The length of the longest of the files, or this one where it is longer.
fn longest_of(files: &[MemoryFile], least: usize) -> usize
    ensures least { least ≤ result }
    ensures all { AllByRecursion (IsWithin result) files.now }
{
    let Some((first, rest)) = files.split_first() else {
        return least;
    };
    longest_of(rest, least).max(first.bytes.len())
}

// The content of the first file of this name.
fn content<'a>(files: &'a [MemoryFile], name: &str) -> Option<&'a [u8]>
    ensures { MatchOption result (content_of (entries_of files.now) name.now ≡ None) (λ bytes.
        content_of (entries_of files.now) name.now ≡ Some bytes.now) }
{
    for file in files {
        if file.name.as_str() == name {
            return Some(&file.bytes);
        }
    }
    None
}

// What is left of the first file of this name from the place `at` on, and nothing where there is none.
fn left<'a>(files: &'a [MemoryFile], name: &str, at: usize) -> &'a [u8]
    ensures { result.now ≡ drop at (unwrap_or (content_of (entries_of files.now) name.now) []) }
{
    match content(files, name) {
        Some(bytes) if at < bytes.len() => &bytes[at..],
        _ => &[],
    }
}

// Replaces the text, for which there is room.
fn rename(text: &mut String, name: &str)
    requires { length name.now ≤ string_capacity text.old }
    ensures text { string_bytes text.new ≡ name.now }
    ensures room { string_capacity text.old ≤ string_capacity text.new }
{
    text.clear();
    let Ok(()) = text.push_str(name) else {
        unreachable!();
    };
}

/// Whether there is room for a name.
pub fn name_has_room(name: &str) -> bool
    ensures { result ≡ name_fits name.now }
{
    name.len() <= NAME_BYTES
}

impl MemoryFiles {
    /// These files, of which the first of a name counts, and room for files of so many bytes.
    pub fn new(
        alloc: Global,
        mut files: Vec<MemoryFile>,
        room: usize,
    ) -> Result<MemoryFiles, AllocError>
        ensures { IfOk result (λ held. held ≡ held_of (entries_of files.items) room) }
    {
        files.reserve(SPARES)?;
        let longest = longest_of(&files, room);
        Ok(MemoryFiles {
            spares: all_spares(alloc, room)?,
            reading: String::with_capacity(alloc, NAME_BYTES)?,
            taken: Vec::with_capacity(alloc, longest)?,
            draft: spare(alloc, room)?,
            files,
            room,
            longest,
        })
    }

    /// Whether there is a file of this name, for which there is room.
    pub fn can_read(&self, name: &str) -> bool
        ensures { result ≡ (is_some (content_of self.now.files name.now) && name_fits name.now) }
    {
        content(&self.files, name).is_some() && name_has_room(name)
    }

    /// Whether there is room for so many bytes more of the file that is written.
    pub fn can_put(&self, piece: &[u8]) -> bool
        ensures { result ≡ put_fits piece.now self.now }
    {
        piece.len() <= self.room - self.draft.bytes.len()
    }

    /// Whether one more file can be finished.
    pub fn can_finish(&self) -> bool
        ensures { result ≡ file_fits self.now }
    {
        self.spares.len() > 0
    }

    /// Goes to the start of the file of this name.
    pub fn begin_read(&mut self, name: &str)
        requires { IsTrue (name_fits name.now) }
        ensures { self.new ≡ after_begin_read name.now self.old }
    {
        rename(&mut self.reading, name);
        self.taken.clear();
    }

    /// Reads at most this many of the next bytes into the front of the buffer, and answers how many.
    pub fn read(&mut self, into: &mut [u8], most: usize) -> usize
        ensures count { result ≡ count_read (length into.old) most self.old }
        ensures bytes { take result into.new ≡ take result (left_of self.old) }
        ensures taken { self.new ≡ after_read result self.old }
    {
        let rest = left(&self.files, self.reading.as_str(), self.taken.len());
        let count = into.len().min(most).min(rest.len());
        into[..count].copy_from_slice(&rest[..count]);
        let Ok(()) = self.taken.extend_from_slice(&rest[..count]) else {
            unreachable!();
        };
        count
    }

    /// Begins to write the file of this name.
    pub fn create(&mut self, name: &str)
        requires { IsTrue (name_fits name.now) }
        ensures { self.new ≡ after_create name.now self.old }
    {
        rename(&mut self.draft.name, name);
        self.draft.bytes.clear();
    }

    /// Puts the piece after what is put.
    pub fn put(&mut self, piece: &[u8])
        requires { IsTrue (put_fits piece.now self.old) }
        ensures { self.new ≡ after_put piece.now self.old }
    {
        let Ok(()) = self.draft.bytes.extend_from_slice(piece) else {
            unreachable!();
        };
    }

    /// Makes what is put the content of the file that is written.
    pub fn finish(&mut self)
        requires { IsTrue (file_fits self.old) }
        ensures { self.new ≡ after_finish self.old }
    {
        let Some(spare) = self.spares.pop() else {
            unreachable!();
        };
        let file = mem::replace(&mut self.draft, spare);
        let Ok(()) = self.files.insert(0, file) else {
            unreachable!();
        };
    }
}
