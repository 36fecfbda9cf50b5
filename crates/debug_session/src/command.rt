//! Commands in words: what they ask.

ghost use Rattle.std.specs.Prelude.{◌≡◌};
ghost use Rattle.debug_model.specs.Commands.{command_named as command_of_words};

use crate::number::{byte_named, number_of};
use debug_model::Command;

/// What a command asks, by its words.
pub(crate) fn command_named(words: &[u8]) -> Command
    ensures { result ≡ command_of_words words.now }
{
    if words == b"time".as_slice() {
        return Command::Time;
    }
    if words == b"steps".as_slice() {
        return Command::Steps;
    }
    if words == b"calls".as_slice() {
        return Command::Calls;
    }
    if let Some(time) = words.strip_prefix(b"goto ") {
        return Command::GoTo(number_of(time));
    }
    if let Some(byte) = words.strip_prefix(b"read ") {
        return Command::Read(byte_named(byte));
    }
    if let Some(byte) = words.strip_prefix(b"wrote ") {
        return Command::Wrote(byte_named(byte));
    }
    Command::Other
}
