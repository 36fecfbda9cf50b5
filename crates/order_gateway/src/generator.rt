//! The bytes that the guest reads.

ghost use Rattle.std.specs.Prelude.{◌≡◌, IfOk};
ghost use Rattle.order_gateway.specs.Input.{next_state, byte_of, input_length, input};

use no_memory::NoMemory;
use std::alloc::Global;

/// The state of the generator after this one.
fn next_state(state: u64) -> u64
    ensures { result ≡ next_state state }
{
    state
        .wrapping_mul(6_364_136_223_846_793_005)
        .wrapping_add(1_442_695_040_888_963_407)
}

/// The byte of a state.
fn byte_of(state: u64) -> u8
    ensures { result ≡ byte_of state }
{
    (state >> 56) as u8
}

/// How many bytes so many steps may read.
fn input_length(steps: u64) -> u64
    ensures { result ≡ input_length steps }
{
    8 * (steps / 27 + 1)
}

/// The input of a run of so many steps, by the generator from this seed. It gives up with NoMemory alone.
pub fn input(alloc: Global, seed: u64, steps: u64) -> Result<Vec<u8>, NoMemory>
    ensures { IfOk result (λ bytes. bytes.items ≡ input seed steps) }
{
    let length = input_length(steps);
    let mut bytes = Vec::with_capacity(alloc, length as usize)?;
    let mut state = seed;
    for _i in 0..length {
        state = next_state(state);
        bytes.push_reserved(byte_of(state));
    }
    Ok(bytes)
}
