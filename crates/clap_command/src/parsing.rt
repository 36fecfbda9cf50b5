//! Words as a command takes them.
ghost use Rattle.std.specs.Prelude.{◌≡◌, map, string_bytes, true, false, OnOk, IfOk, IfErr};
ghost use Rattle.clap.specs.Words.{app_of, takes, subcommand_of, subcommand_rows_of, kind_of, matches_of, rows_of, found_of};
ghost use Rattle.no_memory.specs.Faults.{IsCausedBy};
ghost use Rattle.clap_command.specs.Plain.{is_plain_command, is_single_command, is_sound_command};

use crate::fault::{Usage, WordsFault};
use clap::error::ErrorKind;
use clap::{ArgMatches, Command, Error};
use no_memory::Fault;
use std::alloc::AllocError;

// The words as `clap` takes them.
fn try_parse<'a>(command: Command<'a>, words: &'a [String]) -> Result<ArgMatches<'a>, Error>
    requires { is_sound_command (app_of command) ≡ true }
    ensures taken { OnOk result (takes (app_of command.entry) (map string_bytes words.entry.now) ≡ true) }
    ensures memory { IfErr result (λ e.
        takes (app_of command.entry) (map string_bytes words.entry.now) ≡ true → kind_of e ≡ ErrorKind.OutOfMemory) }
    ensures rows { IfOk result (λ m.
        rows_of (found_of m) ≡ matches_of (app_of command.entry) (map string_bytes words.entry.now)) }
    ensures subcommand { IfOk result (λ m.
        subcommand_rows_of m ≡ subcommand_of (app_of command.entry) (map string_bytes words.entry.now)) }
{
    command.try_get_matches_from(words)
}

// The same, with the fault that a command line has.
fn parse_sound<'a>(command: Command<'a>, words: &'a [String]) -> Result<ArgMatches<'a>, WordsFault>
    requires { is_sound_command (app_of command) ≡ true }
    ensures taken { OnOk result (takes (app_of command.entry) (map string_bytes words.entry.now) ≡ true) }
    ensures usage { IfErr result
        (IsCausedBy (λ _. takes (app_of command.entry) (map string_bytes words.entry.now) ≡ false)) }
    ensures rows { IfOk result (λ m.
        rows_of (found_of m) ≡ matches_of (app_of command.entry) (map string_bytes words.entry.now)) }
    ensures subcommand { IfOk result (λ m.
        subcommand_rows_of m ≡ subcommand_of (app_of command.entry) (map string_bytes words.entry.now)) }
{
    match try_parse(command, words) {
        Ok(matches) => Ok(matches),
        Err(error) => match error.kind() {
            // `clap` tells of a refused allocation by a kind of its own.
            ErrorKind::OutOfMemory => Err(Fault::from(AllocError)),
            _ => Err(Fault::At(Usage)),
        },
    }
}

/// The words as a command with subcommands takes them; the first word is the program's name. It is `Usage` exactly where
/// the command doesn't take the words, out of memory aside.
pub fn parse<'a>(command: Command<'a>, words: &'a [String]) -> Result<ArgMatches<'a>, WordsFault>
    requires { is_plain_command (app_of command) ≡ true }
    ensures taken { OnOk result (takes (app_of command.entry) (map string_bytes words.entry.now) ≡ true) }
    ensures usage { IfErr result
        (IsCausedBy (λ _. takes (app_of command.entry) (map string_bytes words.entry.now) ≡ false)) }
    ensures subcommand { IfOk result (λ m.
        subcommand_rows_of m ≡ subcommand_of (app_of command.entry) (map string_bytes words.entry.now)) }
{
    parse_sound(command, words)
}

/// The words as a command without subcommands takes them; the first word is the program's name. It is `Usage` exactly
/// where the command doesn't take the words, out of memory aside.
pub fn parse_single<'a>(
    command: Command<'a>,
    words: &'a [String],
) -> Result<ArgMatches<'a>, WordsFault>
    requires { is_single_command (app_of command) ≡ true }
    ensures taken { OnOk result (takes (app_of command.entry) (map string_bytes words.entry.now) ≡ true) }
    ensures usage { IfErr result
        (IsCausedBy (λ _. takes (app_of command.entry) (map string_bytes words.entry.now) ≡ false)) }
    ensures rows { IfOk result (λ m.
        rows_of (found_of m) ≡ matches_of (app_of command.entry) (map string_bytes words.entry.now)) }
{
    parse_sound(command, words)
}
