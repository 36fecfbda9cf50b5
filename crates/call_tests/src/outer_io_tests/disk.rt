//! A disk in memory, of which each name stands for one file that moves a byte at a time.

ghost use Rattle.std.specs.Prelude.{IsErr};

use std::alloc::Allocator;
use std::fs::{Metadata, OpenFile, OpenOptions};
use std::io;
use std::io::{Read, Seek, SeekFrom, Write};
use std::rt::Files;

/// What is told of each name.
#[derive(Clone, Copy)]
pub enum Told {
    /// Nothing stands under it.
    Missing,
    /// A file that is no regular one.
    Device,
    /// A regular file.
    Regular,
    /// A regular file that can't be opened to be read.
    Locked,
    /// That it can't be told.
    Unknown,
}

/// What the disk tells of each name, what is read there, where anything can be, and what is to be written there.
#[derive(Clone, Copy)]
pub struct Disk {
    pub told: Told,
    pub bytes: Option<&'static [u8]>,
    pub wanted: &'static [u8],
}

/// A file of the disk: what is left to be read, and what is left to be written. Any other byte is refused, and so is an
/// end that comes before all are written.
#[derive(Drop)]
pub struct DiskFile {
    bytes: Option<&'static [u8]>,
    wanted: &'static [u8],
}

fn broken<T>() -> io::Result<T>
    ensures { IsErr result }
{
    Err(io::Error::from(io::ErrorKind::Other))
}

impl Read for DiskFile {
    fn read(&mut self, into: &mut [u8]) -> io::Result<usize> {
        let Some(bytes) = self.bytes else {
            return broken();
        };
        match (bytes.split_first(), into.first_mut()) {
            (Some((byte, rest)), Some(place)) => {
                *place = *byte;
                self.bytes = Some(rest);
                Ok(1)
            }
            _ => Ok(0),
        }
    }
}

impl Write for DiskFile {
    fn write(&mut self, piece: &[u8]) -> io::Result<usize> {
        match (piece.split_first(), self.wanted.split_first()) {
            (None, _) => Ok(0),
            (Some((byte, _)), Some((wanted, rest))) if byte == wanted => {
                self.wanted = rest;
                Ok(1)
            }
            _ => broken(),
        }
    }

    fn flush(&mut self) -> io::Result<()> {
        if self.wanted.is_empty() {
            Ok(())
        } else {
            broken()
        }
    }
}

impl Seek for DiskFile {
    fn seek(&mut self, _to: SeekFrom) -> io::Result<u64> {
        broken()
    }
}

impl OpenFile for DiskFile {
    fn metadata(&self) -> io::Result<Metadata> {
        broken()
    }

    fn set_len(&self, _size: u64) -> io::Result<()> {
        broken()
    }

    fn sync_all(&self) -> io::Result<()> {
        broken()
    }

    fn sync_data(&self) -> io::Result<()> {
        broken()
    }
}

impl Files for Disk {
    type File = DiskFile;

    type Dir = DiskFile;

    fn open_file(&self, how: &OpenOptions, _path: &str) -> io::Result<DiskFile> {
        match self.told {
            Told::Locked if how.asks_read() => return broken(),
            _ => {}
        }
        Ok(DiskFile {
            bytes: self.bytes,
            wanted: self.wanted,
        })
    }

    fn open_dir(&self, _path: &str) -> io::Result<DiskFile> {
        broken()
    }

    fn metadata(&self, _path: &str) -> io::Result<Metadata> {
        match self.told {
            Told::Missing => Err(io::Error::from(io::ErrorKind::NotFound)),
            Told::Device => Ok(Metadata::of_dir()),
            Told::Regular => Ok(Metadata::of_file(0)),
            Told::Locked => Ok(Metadata::of_file(0)),
            Told::Unknown => broken(),
        }
    }

    fn symlink_metadata(&self, _path: &str) -> io::Result<Metadata> {
        broken()
    }

    fn copy(&self, _from: &str, _to: &str) -> io::Result<u64> {
        broken()
    }

    fn rename(&self, _from: &str, _to: &str) -> io::Result<()> {
        broken()
    }

    fn remove_file(&self, _path: &str) -> io::Result<()> {
        broken()
    }

    fn create_dir(&self, _path: &str) -> io::Result<()> {
        broken()
    }

    fn remove_dir(&self, _path: &str) -> io::Result<()> {
        broken()
    }

    fn remove_dir_all<B: Allocator>(&self, _alloc: B, _path: &str) -> io::Result<()> {
        broken()
    }
}
