//! Talks over a wire.

ghost use Rattle.std.specs.Prelude.{◌≡◌};
ghost use Rattle.outer_wire.specs.Talks.{Talks};
ghost use Rattle.outer_wire.specs.Answering.{AnswersPiece};

use crate::answerer::Answerer;
use crate::broken::Broken;
use crate::whole::send_whole;
use crate::wire::Wire;
use no_memory::{Fault, NoMemory};
use outer_io::WriteFault;
use std::alloc::{AllocError, Global};

/// How many bytes are received at once at most.
const ROOM: usize = 4096;

/// Sends what is said in answer to bytes, one after another, and tells whether these end the talk.
fn answer_piece<W: Wire, A: Answerer>(
    wire: &mut W,
    answerer: &mut A,
    bytes: &[u8],
    said: &mut Vec<u8>,
) -> Result<bool, Fault<Broken>>
    ensures { AnswersPiece (A.answers answerer.old) (A.answers answerer.new) bytes.now (W.shown wire.old)
        (W.shown wire.new) result }
{
    for byte in bytes {
        said.clear();
        let is_over = answerer.hear(*byte, said)?;
        match send_whole(wire, said) {
            Ok(()) => {}
            Err(WriteFault) => return Err(Fault::At(Broken::Sending)),
        }
        if is_over {
            return Ok(true);
        }
    }
    Ok(false)
}

/// Answers over a wire what comes over it, until what came ends the talk, or the wire is found at its end. Each answer is
/// sent whole before more is asked for.
///
/// - `Receiving`: bytes could not be received. All was said by then.
/// - `Sending`: what was said could not be sent whole. A beginning of it went.
///
/// In both the wire's count of faults rose, or stands at 2^64 - 1. Else it gives up with NoMemory alone.
pub fn talk<W: Wire, A: Answerer>(
    alloc: Global,
    wire: &mut W,
    answerer: &mut A,
) -> Result<(), Fault<Broken>>
    ensures { Talks (A.answers answerer.old) (W.shown wire.old) (W.shown wire.new) result }
{
    let mut buffer = vec![in alloc; 0u8; ROOM]?;
    let piece = buffer.as_mut_slice();
    let mut said = Vec::new(alloc);
    for _receive in 0..u64::MAX {
        answerer.form();
        let Ok(count) = wire.receive(piece) else {
            return Err(Fault::At(Broken::Receiving));
        };
        if count == 0 {
            return Ok(());
        }
        if answer_piece(wire, answerer, &piece[..count], &mut said)? {
            return Ok(());
        }
    }
    // More calls than can be counted are told as out of memory.
    Err(Fault::NoMemory(NoMemory::from(AllocError)))
}
