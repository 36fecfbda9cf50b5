//! Whole files and whole texts, over calls that move a piece.

ghost use Rattle.std.specs.Prelude.{◌≡◌, ◌≤◌, ◌+◌, ◌-◌, ◌^◌, ◌∷◌, [], true, vec_len, IsTrue, IfOk, IfErr, OnOk, OnErr};
ghost use Rattle.no_memory.specs.Faults.{IsCausedBy};
ghost use Rattle.outer_io.specs.Faults.{HasCause};
ghost use Rattle.outer_io.specs.Tells.{Tells, Gains, GainsPrefix};
ghost use Rattle.outer_io.specs.Files.{Puts};
ghost use Rattle.outer_io.specs.Reads.{Reads};
ghost use Rattle.outer_io.specs.WriteFile.{KeepsOtherFiles, IsWritten, PutsPart, PutsFront};
ghost use Rattle.outer_io.specs.ReadWhole.{HasContent, ReadCause, TakesAtMost, ComesByReads};

use crate::sink::Sink;
use crate::store::Store;
use no_memory::Fault;
use std::alloc::Global;
use thiserror::Error;

/// What kept a file from being read whole.
#[derive(Clone, Copy, Debug, Error)]
pub enum Unread {
    /// The store failed.
    #[error("the store failed")]
    ReadFault,
    /// This many bytes were taken, one more than are allowed.
    #[error("more than the file may have: {0} bytes were taken")]
    TooLong(usize),
}

/// Why a file was not read whole: what kept it from that, or out of memory.
pub type ReadWhole = Fault<Unread>;

/// The sink or the store failed before all bytes were written.
#[derive(Debug, Drop, Error)]
#[error("not all bytes were written")]
pub struct WriteFault;

// How many bytes one read takes at most.
const PIECE: usize = 65536;

/// Reads the file of this name to its end. `max` is how many bytes it may have, at most 2^26.
///
/// It asks the store for this name alone, once, and then reads pieces of at most 65,536 bytes, and
/// at most `max + 1` bytes in all. Where it answers the bytes, no call failed.
///
/// - `ReadFault`: the store failed, before more than `max` bytes were taken; its count of faults rose, or stands at
///   2^64 - 1.
/// - `TooLong(taken)`: the file has more than `max` bytes, of which `taken`, `max + 1`, were taken.
pub fn read_whole<S: Store>(
    alloc: Global,
    store: &mut S,
    name: &str,
    max: usize,
) -> Result<Vec<u8>, ReadWhole>
    requires { max ≤ 2 ^ 26 }
    ensures short { IfOk result (λ bytes. vec_len bytes ≤ max) }
    ensures content { IfOk result (λ bytes.
        Tells (S.shown store.old).files (S.shown store.new).files (HasContent name.now bytes.items)) }
    ensures cause { IfErr result (IsCausedBy (ReadCause name.now max (S.shown store.old) (S.shown store.new))) }
    ensures most { Tells (S.shown store.old).files (S.shown store.new).files (TakesAtMost name.now (max + 1)) }
    ensures pieces { ComesByReads S.begin_read_gives S.read_gives name.now 65536 store.old store.new }
    ensures reads { Reads (name.now ∷ []) true (S.shown store.old) (S.shown store.new) }
    ensures created { S.is_created store.new ≡ S.is_created store.old }
    ensures stood { OnOk result ((S.shown store.new).faults ≡ (S.shown store.old).faults) }
{
    let Ok(()) = store.begin_read(name) else {
        return Err(Fault::At(Unread::ReadFault));
    };
    let mut buffer = vec![in alloc; 0u8; PIECE]?;
    let piece = buffer.as_mut_slice();
    let mut bytes = Vec::new(alloc);
    while bytes.len() <= max {
        let room = PIECE.min(max + 1 - bytes.len());
        let Ok(count) = store.read(&mut piece[..room]) else {
            return Err(Fault::At(Unread::ReadFault));
        };
        if count == 0 {
            return Ok(bytes);
        }
        bytes.extend_from_slice(&piece[..count])?;
    }
    Err(Fault::At(Unread::TooLong(bytes.len())))
}

/// Writes all the bytes.
///
/// It fails where the sink failed; its count of faults then rose, or stands at 2^64 - 1, and what
/// went out is a prefix of the bytes. Else no put failed.
pub fn write_whole<O: Sink>(sink: &mut O, bytes: &[u8]) -> Result<(), WriteFault>
    ensures cause { HasCause (O.shown sink.old).faults (O.shown sink.new).faults result }
    ensures ok { OnOk result (Tells (O.shown sink.old).written (O.shown sink.new).written (Gains bytes.now)) }
    ensures err { OnErr result (Tells (O.shown sink.old).written (O.shown sink.new).written (GainsPrefix bytes.now)) }
{
    let mut rest = bytes;
    while !rest.is_empty() {
        let Ok(count) = sink.put(rest) else {
            return Err(WriteFault);
        };
        rest = &rest[count..];
    }
    Ok(())
}

// Puts all the bytes into the file that is being written.
fn put_whole<S: Store>(store: &mut S, bytes: &[u8]) -> Result<(), WriteFault>
    requires { IsTrue (S.is_created store.old) }
    ensures whole { OnOk result (Tells (S.shown store.old).files (S.shown store.new).files (Puts bytes.now)) }
    ensures part { OnErr result (Tells (S.shown store.old).files (S.shown store.new).files (PutsFront bytes.now)) }
    ensures cause { HasCause (S.shown store.old).faults (S.shown store.new).faults result }
    ensures created { S.is_created store.new ≡ S.is_created store.old }
    ensures opened { Tells (S.shown store.old).opened (S.shown store.new).opened (Gains []) }
{
    let mut rest = bytes;
    while !rest.is_empty() {
        let Ok(count) = store.put(rest) else {
            return Err(WriteFault);
        };
        rest = &rest[count..];
    }
    Ok(())
}

/// Makes the file of this name these bytes.
///
/// It fails where the store failed; its count of faults then rose, or stands at 2^64 - 1, the file may
/// be anything, and what was put is a prefix of the bytes. Else no call failed.
pub fn write_file<S: Store>(store: &mut S, name: &str, bytes: &[u8]) -> Result<(), WriteFault>
    ensures whole { OnOk result
        (Tells (S.shown store.old).files (S.shown store.new).files (IsWritten name.now bytes.now)) }
    ensures part { OnErr result
        (Tells (S.shown store.old).files (S.shown store.new).files (PutsPart name.now bytes.now)) }
    ensures cause { HasCause (S.shown store.old).faults (S.shown store.new).faults result }
    ensures others { Tells (S.shown store.old).files (S.shown store.new).files (KeepsOtherFiles name.now) }
    ensures opened { Tells (S.shown store.old).opened (S.shown store.new).opened (Gains (name.now ∷ [])) }
{
    let Ok(()) = store.create(name) else {
        return Err(WriteFault);
    };
    put_whole(store, bytes)?;
    match store.finish() {
        Ok(()) => Ok(()),
        Err(_) => Err(WriteFault),
    }
}
