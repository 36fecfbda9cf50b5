//! Which of the machine's files may be replaced.

ghost use Rattle.std.specs.Prelude.{◌≤◌, ◌↔◌, IsTrue, IfSome, length};
ghost use Rattle.outer_io.specs.Replacing.{IsReplaceable};

use std::fs;
use std::io::{ErrorKind, Read};
use std::rt::Files;

/// How many bytes a mark has at most.
pub(crate) const LONGEST_MARK: usize = 84;

/// What is known of a name, as far as the file system tells it.
#[derive(Clone, Copy)]
pub enum FileKind<'a> {
    /// No file has it.
    Missing,
    /// A regular file has it, through links, which begins with these bytes.
    Regular(&'a [u8]),
    /// A regular file has it that can't be opened or read.
    Unreadable,
    /// It is that of no regular file, as of a device or a pipe.
    Other,
    /// The file system doesn't tell.
    Unknown,
}

/// Whether the name may be written: no file has it, or one that is no regular file, or a regular one that is empty, or
/// begins with the mark.
pub fn may_replace(kind: FileKind<'_>, mark: &[u8]) -> bool
    ensures { IsTrue result ↔ IsReplaceable kind.entry mark.now }
{
    match kind {
        FileKind::Missing => true,
        FileKind::Regular(front) => front.is_empty() || front.starts_with(mark),
        FileKind::Unreadable => false,
        FileKind::Other => true,
        FileKind::Unknown => false,
    }
}

/// Reads the file's first bytes into the front of the buffer, until it is full or the file ends, and answers how many;
/// none where the file can't be read.
fn read_front<F: Read>(file: &mut F, into: &mut [u8]) -> Option<usize>
    ensures { IfSome result (λ count. count ≤ length into.old) }
{
    let mut count = 0;
    while count < into.len() {
        match file.read(&mut into[count..]) {
            Ok(0) => break,
            Ok(taken) => count += taken,
            Err(_) => return None,
        }
    }
    Some(count)
}

/// What is known of a regular file. As many of its first bytes are read as there is room for.
fn regular_kind<'a, R: Files>(files: &R, name: &str, front: &'a mut [u8]) -> FileKind<'a> {
    let Ok(mut file) = fs::open(files, name) else {
        return FileKind::Unreadable;
    };
    match read_front(&mut file, front) {
        Some(count) => FileKind::Regular(&front[..count]),
        None => FileKind::Unreadable,
    }
}

/// What is known of a name. Only a regular file is opened, of which as many first bytes are read as there is room for.
fn file_kind<'a, R: Files>(files: &R, name: &str, front: &'a mut [u8]) -> FileKind<'a> {
    match fs::metadata(files, name) {
        Ok(metadata) if metadata.is_file() => regular_kind(files, name, front),
        Ok(_) => FileKind::Other,
        Err(error) if error.kind() == ErrorKind::NotFound => FileKind::Missing,
        Err(_) => FileKind::Unknown,
    }
}

/// Whether the name may be written, by what the file system tells of it.
pub(crate) fn may_write<R: Files>(files: &R, name: &str, mark: &[u8]) -> bool
    requires { length mark.now ≤ 84 }
{
    let mut front = [0u8; LONGEST_MARK];
    may_replace(file_kind(files, name, &mut front[..mark.len()]), mark)
}
