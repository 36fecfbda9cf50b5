//! Parts of a packet's text.

ghost use Rattle.std.specs.Prelude.{◌≡◌, ◌==◌, position};
ghost use Rattle.std.specs.List.{before_first, after_first};
ghost use Rattle.remote_packets.specs.Numbers.{begins};

/// Whether the bytes begin with these.
pub(crate) fn begins_with(bytes: &[u8], front: &[u8]) -> bool
    ensures { result ≡ begins front.now bytes.now }
{
    bytes.strip_prefix(front).is_some()
}

/// Where the bytes have this one first.
fn place_of(bytes: &[u8], wanted: u8) -> Option<usize>
    ensures { result ≡ position (λ byte. byte == wanted) bytes.now }
{
    bytes.iter().position(|byte| *byte == wanted)
}

/// What stands before the first of these bytes, and what stands behind it; all, and nothing, where there is none.
pub(crate) fn cut_at(bytes: &[u8], wanted: u8) -> (&[u8], &[u8])
    ensures before { result.0.now ≡ before_first (λ byte. byte == wanted) bytes.now }
    ensures after { result.1.now ≡ after_first (λ byte. byte == wanted) bytes.now }
{
    match place_of(bytes, wanted) {
        Some(place) => (&bytes[..place], &bytes[place + 1..]),
        None => (bytes, &[]),
    }
}
