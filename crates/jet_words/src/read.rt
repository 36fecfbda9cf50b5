//! The words and the command that they stand for.
ghost use Rattle.std.specs.Prelude.{◌≡◌, map, codes, string_bytes, true, false, Some, None, option_map, option_and_then};
ghost use Rattle.std.specs.Prelude.{OnOk, IfOk, IfSome, IfErr};
ghost use Rattle.clap.specs.Words.{takes, subcommand_of, subcommand_rows_of, rows_of, found_of};
ghost use Rattle.no_memory.specs.Faults.{IsCausedBy};
ghost use Rattle.clap_command.specs.Numbers.{IsNumber, IsLongNumber, AreLongNumbers};
ghost use Rattle.jet_words.specs.CommandLine.{jet_app};
ghost use Rattle.jet_words.specs.Commands.{command_of, command_by, plain_command, IsInRange};
ghost use Rattle.jet_words.specs.Commands.{listing_by, product_by, other_by};
ghost use Rattle.jet_words.specs.Commands.{pipeline_of, analysis_of, product_of as product_of_rows};
ghost use Rattle.jet_words.specs.Commands.{stacks_of, decisions_of, page_of, record_of, convert_of, core_of, queries_of, bench_of};
ghost use Rattle.jet_words.specs.Numbers.{HasPipelineNumbers, HasNumbers};
ghost use Rattle.jet_words.specs.Rest.{rest_by};

use crate::command::{Command, Listing, Pipeline, Product};
use crate::command_line::command_line;
use clap::ArgMatches;
use clap_command::{
    WordsFault, parse, read_long_number, read_long_numbers, read_number, read_optional_number,
    read_value, read_values,
};
use std::alloc::{AllocError, Global};

// The words as the command line takes them.
fn parse_words<'a>(alloc: Global, words: &'a [String]) -> Result<ArgMatches<'a>, WordsFault>
    ensures taken { OnOk result (takes jet_app (map string_bytes words.entry.now) ≡ true) }
    ensures usage { IfErr result (IsCausedBy (λ _. takes jet_app (map string_bytes words.entry.now) ≡ false)) }
    ensures subcommand { IfOk result (λ m.
        subcommand_rows_of m ≡ subcommand_of jet_app (map string_bytes words.entry.now)) }
{
    let line = command_line(alloc)?;
    parse(line, words)
}

fn read_pipeline(matches: &ArgMatches) -> Pipeline
    requires { HasPipelineNumbers (rows_of (found_of matches.now)) }
    ensures { result ≡ pipeline_of (rows_of (found_of matches.now)) }
{
    Pipeline {
        epoch: read_optional_number(matches, "epoch"),
        workers: read_number(matches, "workers"),
        link: read_optional_number(matches, "link"),
    }
}

fn read_analysis<'a>(matches: &ArgMatches<'a>, listing: Listing) -> Command<'a>
    requires { HasPipelineNumbers (rows_of (found_of matches.now)) }
    ensures { plain_command result ≡ analysis_of listing (rows_of (found_of matches.now)) }
{
    Command::Analysis {
        listing,
        program: read_value(matches, "PROG"),
        log: read_value(matches, "LOG"),
        query: read_value(matches, "QUERY"),
        pipeline: read_pipeline(matches),
    }
}

fn read_product<'a>(matches: &ArgMatches<'a>, product: Product) -> Command<'a>
    ensures { plain_command result ≡ product_of_rows product (rows_of (found_of matches.now)) }
{
    Command::Product {
        product,
        program: read_value(matches, "PROG"),
        log: read_value(matches, "LOG"),
    }
}

fn read_stacks<'a>(alloc: Global, matches: &ArgMatches<'a>) -> Result<Command<'a>, AllocError>
    requires { AreLongNumbers (codes "T") (rows_of (found_of matches.now)) }
    ensures { IfOk result (λ c. plain_command c ≡ stacks_of (rows_of (found_of matches.now))) }
{
    let times = read_long_numbers(alloc, matches, "T")?;
    Ok(Command::Stacks {
        program: read_value(matches, "PROG"),
        log: read_value(matches, "LOG"),
        times,
    })
}

fn read_decisions<'a>(matches: &ArgMatches<'a>) -> Command<'a>
    ensures { plain_command result ≡ decisions_of (rows_of (found_of matches.now)) }
{
    Command::Decisions {
        program: read_value(matches, "PROG"),
        log: read_value(matches, "LOG"),
        query: read_value(matches, "QUERY"),
    }
}

fn read_page<'a>(matches: &ArgMatches<'a>) -> Command<'a>
    requires { HasPipelineNumbers (rows_of (found_of matches.now)) }
    ensures { plain_command result ≡ page_of (rows_of (found_of matches.now)) }
{
    Command::Page {
        program: read_value(matches, "PROG"),
        log: read_value(matches, "LOG"),
        query: read_value(matches, "QUERY"),
        page: read_value(matches, "PAGE"),
        pipeline: read_pipeline(matches),
    }
}

fn read_record<'a>(alloc: Global, matches: &ArgMatches<'a>) -> Result<Command<'a>, AllocError>
    requires pages { IsNumber (codes "pages") (rows_of (found_of matches.now)) }
    requires piece { IsNumber (codes "piece") (rows_of (found_of matches.now)) }
    requires steps { IsLongNumber (codes "steps") (rows_of (found_of matches.now)) }
    ensures { IfOk result (λ c. plain_command c ≡ record_of (rows_of (found_of matches.now))) }
{
    let inputs = read_values(alloc, matches, "IN")?;
    Ok(Command::Record {
        program: read_value(matches, "PROG"),
        log: read_value(matches, "LOG"),
        inputs,
        pages: read_number(matches, "pages"),
        piece: read_number(matches, "piece"),
        steps: read_long_number(matches, "steps"),
    })
}

fn read_convert<'a>(matches: &ArgMatches<'a>) -> Command<'a>
    ensures { plain_command result ≡ convert_of (rows_of (found_of matches.now)) }
{
    Command::Convert {
        program: read_value(matches, "PROG"),
        log: read_value(matches, "LOG"),
        new: read_value(matches, "NEW"),
    }
}

fn read_core<'a>(matches: &ArgMatches<'a>) -> Command<'a>
    requires { IsLongNumber (codes "T") (rows_of (found_of matches.now)) }
    ensures { plain_command result ≡ core_of (rows_of (found_of matches.now)) }
{
    Command::Core {
        program: read_value(matches, "PROG"),
        log: read_value(matches, "LOG"),
        time: read_long_number(matches, "T"),
        core: read_value(matches, "FILE"),
    }
}

fn read_queries<'a>(alloc: Global, matches: &ArgMatches<'a>) -> Result<Command<'a>, AllocError>
    requires { HasPipelineNumbers (rows_of (found_of matches.now)) }
    ensures { IfOk result (λ c. plain_command c ≡ queries_of (rows_of (found_of matches.now))) }
{
    let queries = read_values(alloc, matches, "QUERY")?;
    Ok(Command::Queries {
        program: read_value(matches, "PROG"),
        log: read_value(matches, "LOG"),
        queries,
        pipeline: read_pipeline(matches),
    })
}

fn read_bench<'a>(matches: &ArgMatches<'a>) -> Command<'a>
    requires seed { IsLongNumber (codes "SEED") (rows_of (found_of matches.now)) }
    requires steps { IsLongNumber (codes "STEPS") (rows_of (found_of matches.now)) }
    requires pipeline { HasPipelineNumbers (rows_of (found_of matches.now)) }
    ensures { plain_command result ≡ bench_of (rows_of (found_of matches.now)) }
{
    Command::Bench {
        seed: read_long_number(matches, "SEED"),
        steps: read_long_number(matches, "STEPS"),
        pipeline: read_pipeline(matches),
    }
}

// What the subcommand of this name tells of the rows of a query, if it is of these.
fn listing_of(name: &str) -> Option<Listing>
    ensures { result ≡ listing_by name.now }
{
    if name == "query" {
        Some(Listing::BySink)
    } else if name == "influence" {
        Some(Listing::BySource)
    } else if name == "path" {
        Some(Listing::ByPath)
    } else if name == "show" {
        Some(Listing::ByRange)
    } else {
        None
    }
}

// What it makes of a run, if it is of those that do.
fn product_of(name: &str, matches: &ArgMatches<'_>) -> Option<Product>
    requires { HasNumbers (name.now, rows_of (found_of matches.now)) }
    ensures { result ≡ product_by name.now (rows_of (found_of matches.now)) }
{
    if name == "replay" {
        Some(Product::Numbers)
    } else if name == "calls" {
        Some(Product::Calls)
    } else if name == "input" {
        Some(Product::Input(read_number(matches, "C")))
    } else if name == "output" {
        Some(Product::Output(read_number(matches, "C")))
    } else {
        None
    }
}

// The command of those that come last. The error is out of memory.
fn rest_of<'a>(
    alloc: Global,
    name: &str,
    matches: &ArgMatches<'a>,
) -> Result<Option<Command<'a>>, AllocError>
    requires { HasNumbers (name.now, rows_of (found_of matches.now)) }
    ensures { IfOk result (λ c. option_map plain_command c ≡ rest_by name.now (rows_of (found_of matches.now))) }
{
    if name == "convert" {
        Ok(Some(read_convert(matches)))
    } else if name == "core" {
        Ok(Some(read_core(matches)))
    } else if name == "queries" {
        Ok(Some(read_queries(alloc, matches)?))
    } else if name == "bench" {
        Ok(Some(read_bench(matches)))
    } else {
        Ok(None)
    }
}

// The command of any other. The error is out of memory.
fn other_of<'a>(
    alloc: Global,
    name: &str,
    matches: &ArgMatches<'a>,
) -> Result<Option<Command<'a>>, AllocError>
    requires { HasNumbers (name.now, rows_of (found_of matches.now)) }
    ensures { IfOk result (λ c. option_map plain_command c ≡ other_by name.now (rows_of (found_of matches.now))) }
{
    if name == "stack" {
        Ok(Some(read_stacks(alloc, matches)?))
    } else if name == "decisions" {
        Ok(Some(read_decisions(matches)))
    } else if name == "page" {
        Ok(Some(read_page(matches)))
    } else if name == "record" {
        Ok(Some(read_record(alloc, matches)?))
    } else {
        rest_of(alloc, name, matches)
    }
}

// The command of the subcommand of this name. The error is out of memory.
fn command_by_name<'a>(
    alloc: Global,
    name: &str,
    matches: &ArgMatches<'a>,
) -> Result<Option<Command<'a>>, AllocError>
    requires { HasNumbers (name.now, rows_of (found_of matches.now)) }
    ensures { IfOk result (λ c. option_map plain_command c ≡ command_by (name.now, rows_of (found_of matches.now))) }
{
    if let Some(listing) = listing_of(name) {
        return Ok(Some(read_analysis(matches, listing)));
    }
    if let Some(product) = product_of(name, matches) {
        return Ok(Some(read_product(matches, product)));
    }
    other_of(alloc, name, matches)
}

// The command of the subcommand. The error is out of memory.
fn command_by_subcommand<'a>(
    alloc: Global,
    matches: &ArgMatches<'a>,
) -> Result<Option<Command<'a>>, AllocError>
    requires { IfSome (subcommand_rows_of matches.now) HasNumbers }
    ensures { IfOk result (λ c.
        option_map plain_command c ≡ option_and_then command_by (subcommand_rows_of matches.now)) }
{
    match matches.subcommand() {
        Some((name, matches)) => command_by_name(alloc, name, matches),
        None => Ok(None),
    }
}

/// The command that the words stand for; the first word is the program's name. It is `Usage` exactly where the command
/// line doesn't take the words, out of memory aside.
pub fn read_words<'a>(alloc: Global, words: &'a [String]) -> Result<Command<'a>, WordsFault>
    // The words are taken, and this is what they stand for.
    ensures taken { OnOk result (takes jet_app (map string_bytes words.entry.now) ≡ true) }
    ensures command { IfOk result (λ c. command_of (map string_bytes words.entry.now) ≡ Some (plain_command c)) }

    // Its numbers lie in their ranges.
    ensures ranges { IfOk result (λ c. IsInRange (plain_command c)) }

    // The words are not taken, and stand for nothing.
    ensures usage { IfErr result (IsCausedBy (λ _. takes jet_app (map string_bytes words.entry.now) ≡ false)) }
    ensures nothing { IfErr result (IsCausedBy (λ _. command_of (map string_bytes words.entry.now) ≡ None)) }
{
    let matches = parse_words(alloc, words)?;
    let command = command_by_subcommand(alloc, &matches);
    drop(matches);
    match command? {
        Some(command) => Ok(command),
        None => unreachable!(),
    }
}
