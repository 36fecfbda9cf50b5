//! Step numbers in records, which follow the tag.

ghost use Rattle.std.specs.Prelude.{◌≡◌, ◌+◌, ◌≤◌, length};
ghost use Rattle.log_model.specs.Faults.{step_length, step_of, fields_of};

use crate::words::{long_at, word_at};
use log_model::Version;

/// How many bytes a step number takes.
pub fn step_length(version: Version) -> usize
    ensures { result ≡ step_length version }
{
    match version {
        Version::One => 4,
        Version::Two => 8,
    }
}

/// The step number of the record at the front.
pub fn step_of(version: Version, rest: &[u8]) -> u64
    requires { 1 + step_length version ≤ length rest.now }
    ensures { result ≡ step_of version rest.now }
{
    match version {
        Version::One => u64::from(word_at(rest, 1)),
        Version::Two => long_at(rest, 1),
    }
}

/// What follows the step number of the record at the front.
pub fn fields_of(version: Version, rest: &[u8]) -> &[u8]
    requires { 1 + step_length version ≤ length rest.now }
    ensures { result.now ≡ fields_of version rest.now }
{
    &rest[1 + step_length(version)..]
}
