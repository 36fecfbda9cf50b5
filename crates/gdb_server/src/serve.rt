//! What a request stands for: its files are read, the log is checked, and the run is debugged over the wire.

ghost use Rattle.std.specs.Prelude.{◌≡◌};
ghost use Rattle.gdb_words.specs.Requests.{plain_request};
ghost use Rattle.gdb_server.specs.Serving.{Serves, change};

use crate::checked::{checked, cuts_of};
use command_parts::open_run;
use debug_talk::debug_over;
use gdb_words::Request;
use jet_refusal::Refusal;
use no_memory::Fault;
use outer_io::Store;
use outer_wire::{Broken, Wire};
use std::alloc::Global;

/// Debugs the run of a request over the wire, until the session or the wire is at its end. Before the log is checked
/// nothing is received or sent.
///
/// It gives up with what the files are refused for; with `ReadFault`, where the store failed, or the wire in receiving; with
/// `WriteFault`, where the wire failed in sending; or is out of memory.
pub(crate) fn serve<S: Store, W: Wire>(
    alloc: Global,
    request: Request<'_>,
    store: &mut S,
    wire: &mut W,
) -> Result<(), Refusal>
    ensures { Serves (plain_request request.entry)
        (change S.shown W.shown store.old wire.old store.new wire.new) (wire.new ≡ wire.old) result }
{
    let run = open_run(alloc, store, request.program, request.log)?;
    let cuts = cuts_of(&run.log);
    let (job, taker) = checked(alloc, run, &cuts)?;
    let checkpoints = taker.finish(&job)?;
    match debug_over(alloc, wire, &job, &checkpoints, &cuts, request.time) {
        Ok(()) => Ok(()),
        Err(Fault::At(Broken::Receiving)) => Err(Refusal::ReadFault),
        Err(Fault::At(Broken::Sending)) => Err(Refusal::WriteFault),
        Err(Fault::NoMemory(no_memory)) => Err(Refusal::NoMemory(no_memory)),
    }
}
