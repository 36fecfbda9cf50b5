//! The command line of the program.
ghost use Rattle.std.specs.Prelude.{◌≡◌, false, IfOk};
ghost use Rattle.clap.specs.Words.{app_of, rule_of};
ghost use Rattle.clap.specs.declared.builder.Command.TheViews.{out-Command as fields_of};
ghost use Rattle.jet_words.specs.CommandLine.{jet_app};
ghost use Rattle.jet_words.specs.Table.{rule_by, subcommand_by, with_row, with_rows};

use crate::subcommands::{Argument, SUBCOMMANDS, Subcommand};
use clap::{Arg, Command};
use clap_command::{
    list, number, number_option, optional_number, positional, required_list, required_numbers,
    with_argument, with_command,
};
use std::alloc::{AllocError, Global};

/// The greatest number of words in a list.
const MOST_WORDS: usize = 16;

/// The greatest number of numbers in a list.
const MOST_NUMBERS: usize = 4096;

// The argument, for `clap`.
fn argument_of<'a>(alloc: Global, argument: &Argument) -> Arg<'a>
    ensures rule { rule_of result ≡ rule_by argument.now }
    ensures local { result.global ≡ false }
{
    match *argument {
        Argument::Positional(id) => positional(alloc, id),
        Argument::Number(id, least, most) => number(alloc, id, least, most),
        Argument::List(id) => list(alloc, id, MOST_WORDS),
        Argument::RequiredList(id) => required_list(alloc, id, MOST_WORDS),
        Argument::RequiredNumbers(id, least, most) => {
            required_numbers(alloc, id, MOST_NUMBERS, least, most)
        }
        Argument::OptionalNumber(name, least, most) => optional_number(alloc, name, least, most),
        Argument::NumberOption(name, least, most, default) => {
            number_option(alloc, name, least, most, default)
        }
    }
}

// The subcommand of this name with these arguments. The error is out of memory.
fn subcommand_of<'a>(
    alloc: Global,
    name: &'static str,
    arguments: &[Argument],
) -> Result<Command<'a>, AllocError>
    ensures app { IfOk result (λ c. app_of c ≡ subcommand_by name.now arguments.now) }
    ensures globals { IfOk result (λ c. (fields_of c).has_globals ≡ false) }
{
    let mut command = Command::new(alloc, name);
    for argument in arguments {
        command = with_argument(command, argument_of(alloc, argument))?;
    }
    Ok(command)
}

// The command with one more subcommand. The error is out of memory.
fn with_row<'a>(
    alloc: Global,
    command: Command<'a>,
    row: &Subcommand,
) -> Result<Command<'a>, AllocError>
    ensures { IfOk result (λ c. app_of c ≡ with_row (app_of command.entry) row.now) }
{
    let subcommand = subcommand_of(alloc, row.name, row.arguments)?;
    with_command(command, subcommand)
}

// The command with these subcommands besides. The error is out of memory.
fn with_rows<'a>(
    alloc: Global,
    command: Command<'a>,
    rows: &[Subcommand],
) -> Result<Command<'a>, AllocError>
    ensures { IfOk result (λ c. app_of c ≡ with_rows (app_of command.entry) rows.now) }
{
    let mut command = command;
    for row in rows {
        command = with_row(alloc, command, row)?;
    }
    Ok(command)
}

/// The command line. The error is out of memory.
pub fn command_line<'a>(alloc: Global) -> Result<Command<'a>, AllocError>
    ensures app { IfOk result (λ c. app_of c ≡ jet_app) }
{
    let command = Command::new(alloc, "jet").subcommand_required(true);
    with_rows(alloc, command, SUBCOMMANDS)
}
