//! The arguments of a simple command.
ghost use Rattle.std.specs.Prelude.{◌≡◌, ◌≤◌, false, IfOk};
ghost use Rattle.clap.specs.Words.{app_of, rule_of, with_rule, with_subcommand};
ghost use Rattle.clap.specs.declared.builder.Command.TheViews.{out-Command as fields_of};
ghost use Rattle.clap_command.specs.Arguments.{positional as positional_rule, number as number_rule};
ghost use Rattle.clap_command.specs.Arguments.{number_or as number_or_rule};
ghost use Rattle.clap_command.specs.Arguments.{list as list_rule, required_list as required_list_rule};
ghost use Rattle.clap_command.specs.Arguments.{required_numbers as required_numbers_rule};
ghost use Rattle.clap_command.specs.Arguments.{optional_number as optional_number_rule};
ghost use Rattle.clap_command.specs.Arguments.{number_option as number_option_rule};

use clap::builder::ValueParser;
use clap::{Arg, ArgAction, Command};
use std::alloc::{AllocError, Global};

/// A word that has to be there.
pub fn positional<'a>(alloc: Global, id: &'a str) -> Arg<'a>
    ensures rule { rule_of result ≡ positional_rule id.entry.now }
    ensures local { result.global ≡ false }
{
    Arg::new(alloc, id).required(true).action(ArgAction::Set)
}

/// A number from `least` to `most` that has to be there.
pub fn number<'a>(alloc: Global, id: &'a str, least: u64, most: u64) -> Arg<'a>
    ensures rule { rule_of result ≡ number_rule id.entry.now least most }
    ensures local { result.global ≡ false }
{
    positional(alloc, id).value_parser(ValueParser::unsigned(least, most))
}

/// A number from `least` to `most`, with one that stands where none is given.
pub fn number_or<'a>(alloc: Global, id: &'a str, least: u64, most: u64, default: &'a str) -> Arg<'a>
    ensures rule { rule_of result ≡ number_or_rule id.entry.now least most default.entry.now }
    ensures local { result.global ≡ false }
{
    Arg::new(alloc, id)
        .action(ArgAction::Set)
        .value_parser(ValueParser::unsigned(least, most))
        .default_value(default)
}

/// Up to `most` words, one after another.
pub fn list<'a>(alloc: Global, id: &'a str, most: usize) -> Arg<'a>
    ensures rule { rule_of result ≡ list_rule id.entry.now most }
    ensures local { result.global ≡ false }
{
    Arg::new(alloc, id).num_args(..=most).action(ArgAction::Set)
}

/// Words one after another, 1 to `most`: one of them has to be there.
pub fn required_list<'a>(alloc: Global, id: &'a str, most: usize) -> Arg<'a>
    requires { 1 ≤ most }
    ensures rule { rule_of result ≡ required_list_rule id.entry.now most }
    ensures local { result.global ≡ false }
{
    Arg::new(alloc, id)
        .required(true)
        .num_args(1..=most)
        .action(ArgAction::Set)
}

/// Numbers from `least` to `greatest` one after another, 1 to `most`: one of them has to be there.
pub fn required_numbers<'a>(
    alloc: Global,
    id: &'a str,
    most: usize,
    least: u64,
    greatest: u64,
) -> Arg<'a>
    requires { 1 ≤ most }
    ensures rule { rule_of result ≡ required_numbers_rule id.entry.now most least greatest }
    ensures local { result.global ≡ false }
{
    required_list(alloc, id, most).value_parser(ValueParser::unsigned(least, greatest))
}

/// An option, by its long name, for a number from `least` to `most`.
pub fn optional_number<'a>(alloc: Global, name: &'a str, least: u64, most: u64) -> Arg<'a>
    ensures rule { rule_of result ≡ optional_number_rule name.entry.now least most }
    ensures local { result.global ≡ false }
{
    Arg::new(alloc, name)
        .long(name)
        .action(ArgAction::Set)
        .value_parser(ValueParser::unsigned(least, most))
}

/// The same, with a number that stands where none is given.
pub fn number_option<'a>(
    alloc: Global,
    name: &'a str,
    least: u64,
    most: u64,
    default: &'a str,
) -> Arg<'a>
    ensures rule { rule_of result ≡ number_option_rule name.entry.now least most default.entry.now }
    ensures local { result.global ≡ false }
{
    optional_number(alloc, name, least, most).default_value(default)
}

/// The command with one more argument. The error is out of memory.
pub fn with_argument<'a>(command: Command<'a>, arg: Arg<'a>) -> Result<Command<'a>, AllocError>
    requires arg { arg.global ≡ false }
    requires command { (fields_of command).has_globals ≡ false }
    ensures app { IfOk result (λ c. app_of c ≡ with_rule (app_of command.entry) (rule_of arg.entry)) }
    ensures globals { IfOk result (λ c. (fields_of c).has_globals ≡ false) }
{
    command.arg(arg)
}

/// The command with one more subcommand. The error is out of memory.
pub fn with_command<'a>(
    command: Command<'a>,
    subcommand: Command<'a>,
) -> Result<Command<'a>, AllocError>
    requires subcommand { (fields_of subcommand).has_globals ≡ false }
    ensures app { IfOk result (λ c. app_of c ≡ with_subcommand (app_of command.entry) (app_of subcommand.entry).top) }
{
    command.subcommand(subcommand)
}
