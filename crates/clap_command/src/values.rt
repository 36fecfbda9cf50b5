//! The values of the arguments of words that were taken.
ghost use Rattle.std.specs.Prelude.{◌≡◌, map, IfOk};
ghost use Rattle.std.specs.List.{All};
ghost use Rattle.clap.specs.Words.{IsUnsignedIn, rows_of, found_of};
ghost use Rattle.clap_command.specs.Values.{value_of, values_of, number_in, number_of, numbers_of, optional_number_of};
ghost use Rattle.clap_command.specs.Numbers.{IsNumber, IsLongNumber, AreLongNumbers, IsOptionalNumber};

use clap::ArgMatches;
use std::alloc::{AllocError, Global};

/// The value of an argument; empty where it has none.
pub fn read_value<'a>(matches: &ArgMatches<'a>, id: &str) -> &'a str
    ensures { result.now ≡ value_of id.now (rows_of (found_of matches.now)) }
{
    matches.get_str(id).unwrap_or("")
}

/// The values of an argument, in their order. The error is out of memory.
pub fn read_values<'a>(
    alloc: Global,
    matches: &ArgMatches<'a>,
    id: &str,
) -> Result<Vec<&'a str>, AllocError>
    ensures { IfOk result (λ values.
        map (λ s. s.now) values.items ≡ values_of id.now (rows_of (found_of matches.now))) }
{
    match matches.get_strs(id) {
        Some(values) => Vec::from_slice(alloc, values),
        None => Ok(Vec::new(alloc)),
    }
}

/// The number that an argument has.
pub fn read_number<'a>(matches: &ArgMatches<'a>, id: &str) -> u32
    requires { IsNumber id.now (rows_of (found_of matches.now)) }
    ensures { result ≡ number_of id.now (rows_of (found_of matches.now)) }
{
    matches.get_one::<u32>(id).unwrap_or(0)
}

/// The number that an argument has, which may need more than 32 bits.
pub fn read_long_number<'a>(matches: &ArgMatches<'a>, id: &str) -> u64
    requires { IsLongNumber id.now (rows_of (found_of matches.now)) }
    ensures { result ≡ number_of id.now (rows_of (found_of matches.now)) }
{
    matches.get_one::<u64>(id).unwrap_or(0)
}

/// The number that a numeral is.
fn long_number(numeral: &str) -> u64
    requires { IsUnsignedIn 0 18446744073709551615 numeral.now }
    ensures { result ≡ number_in numeral.now }
{
    numeral.parse().unwrap_or(0)
}

/// The numbers that these numerals are. The error is out of memory.
fn long_numbers(alloc: Global, numerals: &[&str]) -> Result<Vec<u64>, AllocError>
    requires { All (λ s. IsUnsignedIn 0 18446744073709551615 s.now) numerals.now }
    ensures { IfOk result (λ numbers. numbers.items ≡ map (λ s. number_in s.now) numerals.now) }
{
    let mut numbers = Vec::with_capacity(alloc, numerals.len())?;
    for numeral in numerals {
        numbers.push(long_number(numeral))?;
    }
    Ok(numbers)
}

/// The numbers that an argument has, in their order, which may need more than 32 bits. The error is out of memory.
pub fn read_long_numbers<'a>(
    alloc: Global,
    matches: &ArgMatches<'a>,
    id: &str,
) -> Result<Vec<u64>, AllocError>
    requires { AreLongNumbers id.now (rows_of (found_of matches.now)) }
    ensures { IfOk result (λ numbers. numbers.items ≡ numbers_of id.now (rows_of (found_of matches.now))) }
{
    match matches.get_strs(id) {
        Some(numerals) => long_numbers(alloc, numerals),
        None => Ok(Vec::new(alloc)),
    }
}

/// The number of an option, where it was given, which may need more than 32 bits.
pub fn read_optional_number<'a>(matches: &ArgMatches<'a>, id: &str) -> Option<u64>
    requires { IsOptionalNumber id.now (rows_of (found_of matches.now)) }
    ensures { result ≡ optional_number_of id.now (rows_of (found_of matches.now)) }
{
    matches.get_one::<u64>(id)
}
