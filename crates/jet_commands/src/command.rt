//! A command, from its words to its end.
ghost use Rattle.std.specs.Prelude.{◌≡◌, ◌⊎◌, false, map, string_bytes, Some, Err, IsErrAnd};
ghost use Rattle.clap.specs.Words.{takes};
ghost use Rattle.jet_refusal.specs.Faults.{IsOutOfMemory};
ghost use Rattle.jet_words.specs.CommandLine.{jet_app};
ghost use Rattle.jet_words.specs.Commands.{plain_command, IsInRange};
ghost use Rattle.outer_io.specs.Outside.{change};
ghost use Rattle.jet_commands.specs.Plans.{command_in};
ghost use Rattle.jet_commands.specs.Obeying.{Obeys};

use crate::answer::answer;
use crate::delivery::deliver;
use crate::resources::{Resources, workers_of};
use epoch_engine::Engine;
use jet_refusal::Refusal;
use jet_words::{Command, read_words};
use no_memory::Fault;
use outer_io::{Buffer, Clock, Sink, Store, WriteFault};
use std::alloc::Global;

/// How many bytes of a text are written at once.
const PIECE: usize = 65536;

/// Does what a command stands for: makes its text of its files, and writes it. The buffer for it is there before anything is
/// read, so nothing is refused while a text is written.
fn carry_out<E: Engine, S: Store, O: Sink, K: Clock>(
    resources: &Resources<'_, E>,
    command: &Command,
    store: &mut S,
    out: &mut O,
    clock: &mut K,
) -> Result<(), Refusal>
    requires ready { E.ready resources.now.engine.now }
    requires ranges { IsInRange (plain_command command.now) }
    ensures { Obeys (Some (plain_command command.now))
        (change S.shown O.shown K.answers store.old out.old clock.old store.new out.new clock.new)
        (out.new ≡ out.old) (clock.new ≡ clock.old) result }
{
    let buffer = Buffer::new(resources.alloc, PIECE)?;
    let given = answer(resources, store, clock, command)?;
    let workers = workers_of(command);
    match deliver(resources.engine, store, out, &given, buffer, workers) {
        Ok(()) => Ok(()),
        Err(WriteFault) => Err(Refusal::WriteFault),
    }
}

/// Does what the words stand for, of which the first is the program's name. It gives up with `Usage`, where they stand
/// for no command; with what the files are refused for, `ReadFault` or `WriteFault`, where the store or the output fails,
/// or it is out of memory. Epochs are analysed by the engine, which also makes the lines of reports.
pub fn obey<E: Engine, S: Store, O: Sink, K: Clock>(
    engine: &E,
    alloc: Global,
    words: &[String],
    store: &mut S,
    out: &mut O,
    clock: &mut K,
) -> Result<(), Refusal>
    requires { E.ready engine.now }
    // It is `Usage` exactly where the command line doesn't take the words, out of memory aside.
    ensures usage { result ≡ Err Refusal.Usage → takes jet_app (map string_bytes words.now) ≡ false }
    ensures unread { takes jet_app (map string_bytes words.now) ≡ false
        → IsErrAnd result (λ r. (r ≡ Refusal.Usage) ⊎ IsOutOfMemory r) }
    // The text was written whole, or a refusal has its cause; and what is opened, and what stays.
    ensures obeys { Obeys (command_in words.now)
        (change S.shown O.shown K.answers store.old out.old clock.old store.new out.new clock.new)
        (out.new ≡ out.old) (clock.new ≡ clock.old) result }
{
    let resources = Resources { engine, alloc };
    match read_words(alloc, words) {
        Ok(command) => carry_out(&resources, &command, store, out, clock),
        Err(Fault::At(_)) => Err(Refusal::Usage),
        Err(Fault::NoMemory(no_memory)) => Err(Refusal::NoMemory(no_memory)),
    }
}
