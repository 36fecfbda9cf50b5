//! Arithmetic on words, as instructions do it.

ghost use Rattle.std.specs.Prelude.{◌≡◌, ℕ, ◌*◌, ◌/◌, ◌^◌, ◌<◌, ◌*ℤ◌, pos, int_lt};
ghost use Rattle.isa.specs.Machine.{as_signed, arithmetic_right, upper_word, quotient, remainder, unsigned_quotient, unsigned_remainder};

/// A word shifted right, with its sign kept.
pub fn arithmetic_right(value: u32, amount: u32) -> u32
    requires { amount < 32 }
    ensures { result ≡ arithmetic_right value amount }
{
    (value.cast_signed() >> amount).cast_unsigned()
}

pub fn is_less(a: u32, b: u32) -> bool
    ensures { result ≡ int_lt (as_signed a) (as_signed b) }
{
    a.cast_signed() < b.cast_signed()
}

/// The upper 32 bits of a product of 64.
fn upper_word(product: i64) -> u32
    ensures { result ≡ upper_word product }
{
    (product.cast_unsigned() >> 32) as u32
}

pub fn multiply_high(x: u32, y: u32) -> u32
    ensures { result ≡ upper_word (as_signed x *ℤ as_signed y) }
{
    upper_word(i64::from(x.cast_signed()) * i64::from(y.cast_signed()))
}

pub fn multiply_high_signed_unsigned(x: u32, y: u32) -> u32
    ensures { result ≡ upper_word (as_signed x *ℤ pos y) }
{
    upper_word(i64::from(x.cast_signed()) * i64::from(y))
}

pub fn multiply_high_unsigned(x: u32, y: u32) -> u32
    ensures { result ≡ x * y / 2 ^ 32 }
{
    ((u64::from(x) * u64::from(y)) >> 32) as u32
}

/// A quotient, rounded towards zero. By 0 it has all bits set, and -2^31 by -1 is -2^31.
pub fn quotient(x: u32, y: u32) -> u32
    ensures { result ≡ quotient x y }
{
    if y == 0 {
        u32::MAX
    } else {
        x.cast_signed()
            .wrapping_div(y.cast_signed())
            .cast_unsigned()
    }
}

/// A remainder, with the sign of the dividend. By 0 it is the dividend, and of -2^31 by -1 it is 0.
pub fn remainder(x: u32, y: u32) -> u32
    ensures { result ≡ remainder x y }
{
    if y == 0 {
        x
    } else {
        x.cast_signed()
            .wrapping_rem(y.cast_signed())
            .cast_unsigned()
    }
}

/// A quotient of unsigned words. By 0 it has all bits set.
pub fn unsigned_quotient(x: u32, y: u32) -> u32
    ensures { result ≡ unsigned_quotient x y }
{
    if y == 0 { u32::MAX } else { x / y }
}

/// A remainder of unsigned words. By 0 it is the dividend.
pub fn unsigned_remainder(x: u32, y: u32) -> u32
    ensures { result ≡ unsigned_remainder x y }
{
    if y == 0 { x } else { x % y }
}
