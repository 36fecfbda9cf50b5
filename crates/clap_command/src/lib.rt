//! Command lines of one command, with subcommands or without, read with `clap`: their arguments are words, numbers in a
//! range, and lists of either.
//!
//! The arguments are definitions, of specs/Arguments.antt, and so are their values, of specs/Values.antt. A crate above
//! names its command line by them, and shows by `is_plain_command` or `is_single_command` of specs/Plain.antt that it is
//! one of these.
//!
//! Crates above rest on this: by proofs/Subcommands.antt, proofs/Single.antt and proofs/Rows.antt, words that such a
//! command takes have a row for each argument, the required values, and numbers in their ranges.
#![tactic(auto)]

mod arguments;
mod fault;
mod parsing;
mod values;

pub use arguments::{
    list, number, number_option, number_or, optional_number, positional, required_list,
    required_numbers, with_argument, with_command,
};
pub use fault::{Usage, WordsFault};
pub use parsing::{parse, parse_single};
pub use values::{
    read_long_number, read_long_numbers, read_number, read_optional_number, read_value, read_values,
};
