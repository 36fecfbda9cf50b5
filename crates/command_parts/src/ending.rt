//! The end of a command: its status, and its line on standard error.
ghost use Rattle.std.specs.Prelude.{◌≡◌, IfErr, OnOk};
ghost use Rattle.jet_refusal.specs.Refusals.{line_of};
ghost use Rattle.command_parts.specs.Saying.{status_after, Says};

use jet_refusal::Refusal;
use outer_io::{Sink, write_whole};

/// Says on standard error why a command gave up: the line, or a beginning of it where that fails, which changes nothing.
fn say<E: Sink>(err: &mut E, refusal: &Refusal)
    ensures { Says (E.shown err.old) (E.shown err.new) (line_of refusal.now) }
{
    let line = refusal.line();
    let _ = write_whole(err, line.as_bytes());
}

/// The status of what came of a command, whatever the error output does; a refusal's line is said there.
pub fn conclude<E: Sink>(err: &mut E, outcome: Result<(), Refusal>) -> u8
    ensures status { result ≡ status_after outcome }
    ensures quiet { OnOk outcome (err.new ≡ err.old) }
    ensures says { IfErr outcome (λ refusal. Says (E.shown err.old) (E.shown err.new) (line_of refusal)) }
{
    match outcome {
        Ok(()) => 0,
        Err(refusal) => {
            say(err, &refusal);
            refusal.status()
        }
    }
}
