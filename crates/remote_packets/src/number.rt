//! Numbers in packets.

ghost use Rattle.std.specs.Prelude.{◌≡◌};
ghost use Rattle.remote_packets.specs.Numbers.{number, pair, time};

use crate::text::cut_at;

/// The most digits of a number.
const MOST_DIGITS: usize = 8;

/// The number that one to eight hexadecimal digits, in either case, write.
pub(crate) fn number_of(digits: &[u8]) -> Option<u32>
    ensures { result ≡ number digits.now }
{
    if digits.is_empty() || digits.len() > MOST_DIGITS {
        return None;
    }
    let mut value = 0;
    for digit in digits {
        let digit = char::from(*digit).to_digit(16)?;
        value = value * 16 + digit;
    }
    Some(value)
}

/// Two numbers with a comma between them.
pub(crate) fn pair_of(text: &[u8]) -> Option<(u32, u32)>
    ensures { result ≡ pair text.now }
{
    let (first, second) = cut_at(text, b',');
    Some((number_of(first)?, number_of(second)?))
}

/// The number that decimal digits write, as a text in hexadecimal, where there is one digit at least. Past 2^64 - 1 it
/// counts as that.
pub(crate) fn time_of(text: &[u8]) -> Option<u64>
    ensures { result ≡ time text.now }
{
    if text.is_empty() {
        return None;
    }
    let mut value = 0u64;
    let mut rest = text;
    while let [high, low, more @ ..] = rest {
        if *high != b'3' || !low.is_ascii_digit() {
            return None;
        }
        value = value
            .saturating_mul(10)
            .saturating_add(u64::from(*low - b'0'));
        rest = more;
    }
    if rest.is_empty() { Some(value) } else { None }
}
