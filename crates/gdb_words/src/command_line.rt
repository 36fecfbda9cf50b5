//! The command line of the program.

ghost use Rattle.std.specs.Prelude.{◌≡◌, IfOk};
ghost use Rattle.clap.specs.Words.{app_of};
ghost use Rattle.gdb_words.specs.Requests.{gdb_app};

use clap::Command;
use clap_command::{number_or, positional, with_argument};
use std::alloc::{AllocError, Global};

/// The command line. The error is out of memory.
pub(crate) fn command_line<'a>(alloc: Global) -> Result<Command<'a>, AllocError>
    ensures { IfOk result (λ c. app_of c ≡ gdb_app) }
{
    let command = Command::new(alloc, "jet-gdb");
    let command = with_argument(command, positional(alloc, "PROG"))?;
    let command = with_argument(command, positional(alloc, "LOG"))?;
    with_argument(command, number_or(alloc, "T", 0, 1099511627776, "0"))
}
