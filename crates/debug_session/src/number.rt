//! Numbers in commands in words.

ghost use Rattle.std.specs.Prelude.{◌≡◌};
ghost use Rattle.debug_model.specs.Commands.{decimal_number, byte_named as byte_of_words};

use crate::slices::cut_at;

/// The number that decimal digits write, where there is one digit at least. Past 2^64 - 1 it counts as that.
pub(crate) fn number_of(digits: &[u8]) -> Option<u64>
    ensures { result ≡ decimal_number digits.now }
{
    if digits.is_empty() {
        return None;
    }
    let mut value = 0u64;
    for digit in digits {
        if !digit.is_ascii_digit() {
            return None;
        }
        value = value
            .saturating_mul(10)
            .saturating_add(u64::from(*digit - b'0'));
    }
    Some(value)
}

/// A byte's channel and its offset there: two numbers with a `:` between them.
pub(crate) fn byte_named(text: &[u8]) -> Option<(u64, u64)>
    ensures { result ≡ byte_of_words text.now }
{
    let (channel, offset) = cut_at(text, b':');
    Some((number_of(channel)?, number_of(offset)?))
}
