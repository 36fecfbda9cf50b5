//! Where the pieces of a text go, and texts that are made a piece at a time.

ghost use Rattle.std.specs.Prelude.{◌≡◌, ℕ, List, [], ◌++◌, OnOk, OnErr};
ghost use Rattle.outer_io.specs.Faults.{HasCause};
ghost use Rattle.outer_io.specs.Tells.{Tells, Gains, GainsPrefix};
ghost use Rattle.outer_io.specs.Pieces.{Putting, Puts, Laws, at_end, at_end_laws};
ghost use Rattle.outer_io.specs.Passing.{through, through_laws};

use crate::buffer::Buffer;
use crate::sink::Sink;
use crate::whole::{WriteFault, write_whole};
use no_memory::NoMemory;

/// A place where the pieces of a text go, one after another.
pub trait Pieces {
    /// Why a piece was not put.
    type Fault;

    /// What is said of the place before and after a text was put there, and where a fault came.
    ghost putting: { Putting Self };

    /// Puts a piece after those before it.
    fn put(&mut self, piece: &[u8]) -> Result<(), Self::Fault>
        ensures { Puts putting self.old piece.now self.new result };

    /// One text after another is one text.
    ghost laws: { Laws putting };
}

/// A text that is made a piece at a time.
pub trait InPieces {
    /// Its bytes.
    ghost text: { Self → List ℕ };

    /// Puts the text, one piece after another.
    fn put_to<P: Pieces>(&self, place: &mut P) -> Result<(), P::Fault>
        ensures { Puts P.putting place.old (text self.now) place.new result };
}

/// A vector gains the text at its end. It fails only where there is no memory.
impl Pieces for Vec<u8> {
    type Fault = NoMemory;

    ghost putting = { at_end };

    fn put(&mut self, piece: &[u8]) -> Result<(), NoMemory> {
        self.extend_from_slice(piece)?;
        Ok(())
    }

    ghost laws = { at_end_laws };
}

/// A sink behind a buffer, where a piece waits until there is no room for the next one.
#[derive(Drop)]
struct BufferedSink<'a, O> {
    sink: &'a mut O,
    buffer: Buffer,
}

impl<'a, O: Sink> BufferedSink<'a, O> {
    /// Writes what waits in the buffer.
    fn flush(&mut self) -> Result<(), WriteFault>
        ensures puts { Puts (through O.shown) self.old [] self.new result }
        ensures empty { OnOk result (self.new.buffer.bytes ≡ []) }
    {
        write_whole(self.sink, self.buffer.bytes())?;
        self.buffer.clear();
        Ok(())
    }

    /// Writes a piece past the buffer, in which nothing waits.
    fn write_past(&mut self, piece: &[u8]) -> Result<(), WriteFault>
        requires { self.old.buffer.bytes ≡ [] }
        ensures { Puts (through O.shown) self.old piece.now self.new result }
    {
        write_whole(self.sink, piece)
    }

    /// Puts a piece for which the buffer has no room now.
    fn put_after_flush(&mut self, piece: &[u8]) -> Result<(), WriteFault>
        ensures { Puts (through O.shown) self.old piece.now self.new result }
    {
        self.flush()?;
        if piece.len() > self.buffer.room() {
            return self.write_past(piece);
        }
        self.buffer.push(piece);
        Ok(())
    }
}

impl<O: Sink> Pieces for BufferedSink<'_, O> {
    type Fault = WriteFault;

    ghost putting = { through O.shown };

    fn put(&mut self, piece: &[u8]) -> Result<(), WriteFault> {
        if piece.len() > self.buffer.room() {
            return self.put_after_flush(piece);
        }
        self.buffer.push(piece);
        Ok(())
    }

    ghost laws = { through_laws O.shown };
}

/// Puts a text, where nothing waits in the buffer, and writes what then does.
fn put_through<O: Sink, X: InPieces>(
    pieces: &mut BufferedSink<'_, O>,
    text: &X,
) -> Result<(), WriteFault>
    requires { pieces.old.buffer.bytes ≡ [] }
    ensures same_reference { pieces.new.sink.ghost_name ≡ pieces.old.sink.ghost_name }
    ensures cause { HasCause (O.shown pieces.old.sink.now).faults (O.shown pieces.new.sink.now).faults result }
    ensures ok { OnOk result
        (Tells (O.shown pieces.old.sink.now).written (O.shown pieces.new.sink.now).written (Gains (X.text text.now))) }
    ensures err { OnErr result
        (Tells (O.shown pieces.old.sink.now).written (O.shown pieces.new.sink.now).written
        (GainsPrefix (X.text text.now))) }
{
    text.put_to(pieces)?;
    pieces.flush()
}

/// Writes a text as it is made, in pieces as long as the buffer has room. It takes no memory.
///
/// It fails where the sink failed; its count of faults then rose, or stands at 2^64 - 1, and what
/// went out is a prefix of the text. Else no put failed.
pub fn write_in_pieces<O: Sink, X: InPieces>(
    sink: &mut O,
    buffer: Buffer,
    text: &X,
) -> Result<(), WriteFault>
    ensures cause { HasCause (O.shown sink.old).faults (O.shown sink.new).faults result }
    ensures ok { OnOk result (Tells (O.shown sink.old).written (O.shown sink.new).written (Gains (X.text text.now))) }
    ensures err { OnErr result
        (Tells (O.shown sink.old).written (O.shown sink.new).written (GainsPrefix (X.text text.now))) }
{
    let mut buffer = buffer;
    buffer.clear();
    let mut pieces = BufferedSink { sink, buffer };
    let result = put_through(&mut pieces, text);
    // No effect at run time. The proof reads what the sink is now from this use of it.
    let BufferedSink {
        sink,
        buffer: _buffer,
    } = pieces;
    let _ = &*sink;
    result
}
