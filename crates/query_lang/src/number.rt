//! Numbers in words.

ghost use Rattle.std.specs.Prelude.{◌≡◌, ◌≤◌, ◌^◌, Some, None, if◌then◌else◌};
ghost use Rattle.std.specs.Str.Parse.{digits_value};
ghost use Rattle.report_model.specs.Grammar.{is_number, is_time};
ghost use Rattle.query_lang.specs.Parts.{is_written_within};

/// The largest time.
const LAST_TIME: u64 = 1_099_511_627_776;

/// The number that a word writes in 1 to so many decimal digits, where it is at most `most`.
fn number_within(word: &[u8], digits: usize, most: u64) -> Option<u64>
    requires { most ≤ 2 ^ 40 }
    ensures { result ≡ (if is_written_within digits most word.now then Some (digits_value 10 word.now) else None) }
{
    if word.is_empty() || word.len() > digits {
        return None;
    }
    let mut value = 0;
    for byte in word {
        if !byte.is_ascii_digit() {
            return None;
        }
        value = value * 10 + u64::from(*byte - b'0');
        if value > most {
            return None;
        }
    }
    Some(value)
}

/// The number that a word writes: 1 to 10 decimal digits, at most 4294967295.
pub fn number_of(word: &[u8]) -> Option<u32>
    ensures { result ≡ (if is_number word.now then Some (digits_value 10 word.now) else None) }
{
    let value = number_within(word, 10, u64::from(u32::MAX))?;
    u32::try_from(value).ok()
}

/// The time that a word writes: 1 to 13 decimal digits, at most 1099511627776.
pub fn time_of(word: &[u8]) -> Option<u64>
    ensures { result ≡ (if is_time word.now then Some (digits_value 10 word.now) else None) }
{
    number_within(word, 13, LAST_TIME)
}
