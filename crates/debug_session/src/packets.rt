//! The frames of an answer.

ghost use Rattle.std.specs.Prelude.{◌≡◌, ◌*◌, ◌<◌, [], ◌∷◌, ◌++◌, length, OnOk};
ghost use Rattle.std.specs.List.{flat_map};
ghost use Rattle.std.specs.Slice.Iter.{chunk_count};
ghost use Rattle.remote_frames.specs.Frames.{frame};
ghost use Rattle.debug_model.specs.Answers.{console_packet, console_packets};

use crate::hexadecimal::hexadecimal;
use crate::slices::{first_of, rest_from};
use no_memory::NoMemory;
use remote_frames::push_frame;
use std::alloc::Global;

/// How many bytes of a command's text a packet tells at most.
const MOST_BYTES: usize = 4000;

/// Appends the frame of a packet. It gives up with NoMemory alone.
pub(crate) fn push_packet(frames: &mut Vec<u8>, packet: &[u8]) -> Result<(), NoMemory>
    ensures { OnOk result (frames.new.items ≡ frames.old.items ++ flat_map frame (packet.now ∷ [])) }
{
    push_frame(frames, packet)
}

/// How many packets tell a command's text.
fn count_of_parts(text: &[u8]) -> usize
    ensures { result ≡ chunk_count (length text.now) 4000 }
{
    text.len().div_ceil(MOST_BYTES)
}

/// Appends the frame of the packet that tells this part of a command's text.
fn push_part(
    alloc: Global,
    frames: &mut Vec<u8>,
    text: &[u8],
    number: usize,
) -> Result<(), NoMemory>
    requires { number * 4000 < length text.now }
    ensures { OnOk result (frames.new.items ≡ frames.old.items ++ frame (console_packet text.now number)) }
{
    let part = first_of(rest_from(text, number * MOST_BYTES), MOST_BYTES);
    let mut packet = Vec::from_slice(alloc, b"O")?;
    packet.extend_from_slice(&hexadecimal(alloc, part)?)?;
    push_frame(frames, &packet)
}

/// Appends the frames of the packets that tell a command's text. It gives up with NoMemory alone.
pub(crate) fn push_console(alloc: Global, frames: &mut Vec<u8>, text: &[u8]) -> Result<(), NoMemory>
    ensures { OnOk result (frames.new.items ≡ frames.old.items ++ flat_map frame (console_packets text.now)) }
{
    for number in 0..count_of_parts(text) {
        push_part(alloc, frames, text, number)?;
    }
    Ok(())
}
