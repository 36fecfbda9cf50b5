//! Files read whole.
ghost use Rattle.std.specs.Prelude.{◌≡◌, ◌≤◌, ◌^◌, ◌∷◌, [], true, length, IfOk};
ghost use Rattle.outer_io.specs.Reads.{Reads};
ghost use Rattle.jet_model.specs.Contents.{file_at};
ghost use Rattle.command_parts.specs.Outcome.{IsOutcomeOf, seen_by, bytes_of};

use jet_refusal::Refusal;
use no_memory::Fault;
use outer_io::{Store, Unread, read_whole};
use std::alloc::Global;

/// The greatest length of a file, in bytes.
pub const LONGEST_FILE: usize = 1 << 26;

/// Reads a file whole. It gives up with `TooLong`, where the file has more than 2^26 bytes, with `ReadFault`, where the
/// store failed, or is out of memory.
pub fn read_file<S: Store>(alloc: Global, store: &mut S, name: &str) -> Result<Vec<u8>, Refusal>
    ensures outcome { IsOutcomeOf (λ file. file_at file name.now) (S.shown store.old) (S.shown store.new)
        (seen_by bytes_of result) }
    ensures short { IfOk result (λ bytes. length bytes.items ≤ 2 ^ 26) }
    ensures reads { Reads (name.now ∷ []) true (S.shown store.old) (S.shown store.new) }
{
    match read_whole(alloc, store, name, LONGEST_FILE) {
        Ok(bytes) => Ok(bytes),
        Err(Fault::At(Unread::ReadFault)) => Err(Refusal::ReadFault),
        Err(Fault::At(Unread::TooLong(_))) => Err(Refusal::TooLong),
        Err(Fault::NoMemory(no_memory)) => Err(Refusal::NoMemory(no_memory)),
    }
}
