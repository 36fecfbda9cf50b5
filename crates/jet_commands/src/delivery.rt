//! What a command gives, and where that goes.
ghost use Rattle.std.specs.Prelude.{◌≡◌};
ghost use Rattle.jet_commands.specs.Obeying.{given_text, given_target, Delivery};

use crate::pieces::{Answer, Telling};
use epoch_engine::Engine;
use outer_io::{Buffer, Sink, Store, WriteFault, write_file, write_in_pieces};

/// What a command gives.
#[derive(Drop)]
pub enum Given<'a> {
    /// A text, for the output.
    Told(Answer),
    /// What a file of this name is to hold.
    Made { name: &'a str, content: Vec<u8> },
}

/// Writes what a command gives: a file, or a text to the output, in pieces that go through the buffer. The engine makes the lines
/// of reports, by at most so many workers at once; out of memory, it makes them one after another. Where the answer is Ok, neither
/// the store nor the output failed.
pub fn deliver<E: Engine, S: Store, O: Sink>(
    engine: &E,
    store: &mut S,
    out: &mut O,
    given: &Given<'_>,
    buffer: Buffer,
    workers: u32,
) -> Result<(), WriteFault>
    requires ready { E.ready engine.now }
    ensures { Delivery (given_target given.now) (given_text given.now) (S.shown store.old) (S.shown store.new)
        (O.shown out.old) (O.shown out.new) (out.new ≡ out.old) result }
{
    match given {
        Given::Told(answer) => write_in_pieces(out, buffer, &Telling::new(engine, answer, workers)),
        Given::Made { name, content } => write_file(store, name, content),
    }
}
