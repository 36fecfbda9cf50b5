//! Wires of the tests, and how a call ended over one.

ghost use Rattle.std.specs.Prelude.{◌<◌};

use memory_wire::{MemoryWire, Step};
use std::process::Abort;

/// To abort, and to allocate.
pub trait Runtime: AllocGlobal + Abort {}

impl<R: AllocGlobal + Abort> Runtime for R {}

/// No call has this number.
pub const NEVER: usize = 1 << 40;

/// How many bytes a call moves where all are to be moved at once.
pub const ALL: usize = 4096;

/// A wire over which these bytes come, and whose call of this number fails. A call moves at most `piece` bytes.
pub fn wire(rt: &impl Runtime, bytes: &[u8], failing: usize, piece: usize) -> MemoryWire
    requires { 0 < piece }
{
    let alloc = rt.alloc();
    let bytes = bytes.to_vec(alloc).expect(rt, "memory");
    let failing = [failing as u64].as_slice().to_vec(alloc);
    let failing = failing.expect(rt, "memory");
    MemoryWire::new(alloc, bytes, failing, piece, ALL).expect(rt, "memory")
}

/// How a call over a wire ended.
#[derive(Clone, Copy, Debug, PartialEq)]
pub enum Ending {
    /// It did all.
    Whole,
    /// The wire failed in receiving.
    Receiving,
    /// The wire failed in sending.
    Sending,
}

/// How a call ends where the call of this number fails, if over a wire that doesn't fail the steps are these.
pub fn ending_at(steps: &[Step], failing: usize) -> Ending {
    match steps.get(failing) {
        None => Ending::Whole,
        Some(Step::Received(_)) => Ending::Receiving,
        Some(Step::Sent(_)) => Ending::Sending,
    }
}

/// What passed over a wire that fails at a call is what passed before that call over one that doesn't.
pub fn assert_same_before(
    rt: &impl Runtime,
    wire: &MemoryWire,
    whole: &MemoryWire,
    failing: usize,
) {
    let count = failing.min(whole.steps().len());
    assert!(rt; wire.steps() == &whole.steps()[..count]);
    assert!(rt; whole.gone().starts_with(wire.gone()));
}
