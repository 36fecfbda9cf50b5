//! The mark of the files that a command may replace.
ghost use Rattle.std.specs.Prelude.{◌≡◌, ◌≤◌, length, IfOk};
ghost use Rattle.jet_words.specs.Commands.{plain_command};
ghost use Rattle.jet_commands.specs.Plans.{command_in, log_mark, plan_of, mark_in};

use core_file::core_mark;
use jet_words::{Command, read_words};
use no_memory::{Fault, NoMemory};
use page_text::mark as page_mark;
use std::alloc::Global;

/// What each log begins with.
fn log_mark() -> &'static [u8]
    ensures short { length result.now ≤ 84 }
    ensures mark { result.now ≡ log_mark }
{
    b"JETLOG"
}

/// What a file begins with that a command may replace.
fn mark_of(command: &Command) -> &'static [u8]
    ensures short { length result.now ≤ 84 }
    ensures mark { result.now ≡ (plan_of (plain_command command.now)).mark }
{
    match command {
        Command::Page { .. } => page_mark(),
        Command::Core { .. } => core_mark(),
        _ => log_mark(),
    }
}

/// What a file begins with that the command of these words may replace: a page by a page, a core by a core, and any other
/// by a log. It gives up with NoMemory alone.
pub fn mark_for(alloc: Global, words: &[String]) -> Result<&'static [u8], NoMemory>
    ensures short { IfOk result (λ mark. length mark.now ≤ 84) }
    ensures mark { IfOk result (λ mark. mark.now ≡ mark_in (command_in words.now)) }
{
    match read_words(alloc, words) {
        Ok(command) => Ok(mark_of(&command)),
        Err(Fault::At(_)) => Ok(log_mark()),
        Err(Fault::NoMemory(no_memory)) => Err(no_memory),
    }
}
