//! The words and what they stand for.

ghost use Rattle.std.specs.Prelude.{◌≡◌, ◌≤◌, map, string_bytes, Some, None, codes, true, false, OnOk, IfOk, IfErr};
ghost use Rattle.clap.specs.Words.{takes, rows_of, found_of, matches_of};
ghost use Rattle.no_memory.specs.Faults.{IsCausedBy};
ghost use Rattle.clap_command.specs.Numbers.{IsLongNumber};
ghost use Rattle.gdb_words.specs.Requests.{gdb_app, request_by, request_of, plain_request};

use crate::command_line::command_line;
use crate::request::Request;
use clap::ArgMatches;
use clap_command::{WordsFault, parse_single, read_long_number, read_value};
use std::alloc::Global;

// The words as the command line takes them.
fn parse_words<'a>(alloc: Global, words: &'a [String]) -> Result<ArgMatches<'a>, WordsFault>
    ensures taken { OnOk result (takes gdb_app (map string_bytes words.entry.now) ≡ true) }
    ensures usage { IfErr result (IsCausedBy (λ _. takes gdb_app (map string_bytes words.entry.now) ≡ false)) }
    ensures rows { IfOk result (λ m. rows_of (found_of m) ≡ matches_of gdb_app (map string_bytes words.entry.now)) }
{
    let line = command_line(alloc)?;
    parse_single(line, words)
}

fn read_request<'a>(matches: &ArgMatches<'a>) -> Request<'a>
    requires { IsLongNumber (codes "T") (rows_of (found_of matches.now)) }
    ensures { plain_request result ≡ request_by (rows_of (found_of matches.now)) }
{
    Request {
        program: read_value(matches, "PROG"),
        log: read_value(matches, "LOG"),
        time: read_long_number(matches, "T"),
    }
}

/// What the words stand for; the first word is the program's name. It is `Usage` exactly where the command line doesn't
/// take the words, out of memory aside.
pub fn read_words<'a>(alloc: Global, words: &'a [String]) -> Result<Request<'a>, WordsFault>
    // The words are taken, and this is what they stand for.
    ensures taken { OnOk result (takes gdb_app (map string_bytes words.entry.now) ≡ true) }
    ensures request { IfOk result (λ r. request_of (map string_bytes words.entry.now) ≡ Some (plain_request r)) }

    // The time lies in its range.
    ensures range { IfOk result (λ r. r.time ≤ 1099511627776) }

    // The words are not taken, and stand for nothing.
    ensures usage { IfErr result (IsCausedBy (λ _. takes gdb_app (map string_bytes words.entry.now) ≡ false)) }
    ensures nothing { IfErr result (IsCausedBy (λ _. request_of (map string_bytes words.entry.now) ≡ None)) }
{
    let matches = parse_words(alloc, words)?;
    let request = read_request(&matches);
    drop(matches);
    Ok(request)
}
