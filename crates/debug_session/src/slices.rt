//! Parts of slices.

ghost use Rattle.std.specs.Prelude.{◌≡◌, ◌==◌, take, drop, position};
ghost use Rattle.std.specs.List.{before_first, after_first};

/// The first of these bytes, at most so many.
pub(crate) fn first_of(bytes: &[u8], count: usize) -> &[u8]
    ensures { result.now ≡ take count bytes.now }
{
    bytes.get(..count).unwrap_or(bytes)
}

/// All but the first so many of these bytes.
pub(crate) fn rest_from(bytes: &[u8], count: usize) -> &[u8]
    ensures { result.now ≡ drop count bytes.now }
{
    bytes.get(count..).unwrap_or(&[])
}

/// Where the bytes have this one first.
fn place_of(bytes: &[u8], wanted: u8) -> Option<usize>
    ensures { result ≡ position (λ byte. byte == wanted) bytes.now }
{
    bytes.iter().position(|byte| *byte == wanted)
}

/// What stands before the first of these bytes, and what stands behind it; all, and nothing, where there is none.
pub(crate) fn cut_at(bytes: &[u8], wanted: u8) -> (&[u8], &[u8])
    ensures before { result.0.now ≡ before_first (λ byte. byte == wanted) bytes.now }
    ensures after { result.1.now ≡ after_first (λ byte. byte == wanted) bytes.now }
{
    match place_of(bytes, wanted) {
        Some(place) => (&bytes[..place], &bytes[place + 1..]),
        None => (bytes, &[]),
    }
}
