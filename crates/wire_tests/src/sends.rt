//! Texts that are sent whole, over calls that send a piece.

ghost use Rattle.std.specs.Prelude.{◌<◌};

use crate::wires::{ALL, NEVER, Runtime, wire};
use outer_wire::send_whole;

const TEXT: &[u8] = b"0123456789";

/// So many bytes go of the text where the call of this number fails, in pieces of at most so many bytes.
fn assert_sent(rt: &impl Runtime, piece: usize, failing: usize)
    requires { 0 < piece }
{
    let mut wire = wire(rt, b"", failing, piece);
    let is_sent = send_whole(&mut wire, TEXT).is_ok();
    let gone = failing.saturating_mul(piece).min(TEXT.len());
    assert!(rt; is_sent == (gone == TEXT.len()));
    assert!(rt; wire.gone() == &TEXT[..gone]);
    assert!(rt; wire.steps().len() == gone.div_ceil(piece));
}

#[test]
fn a_text_is_sent_whole_or_up_to_the_call_that_fails(rt: HostRuntime) {
    for piece in 1..12 {
        for failing in 0..12 {
            assert_sent(&rt, piece, failing);
        }
        assert_sent(&rt, piece, NEVER);
    }
    assert_sent(&rt, ALL, NEVER);
}
