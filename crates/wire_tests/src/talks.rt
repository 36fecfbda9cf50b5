//! Talks with one who says each byte twice, up to a full stop.

ghost use Rattle.std.specs.Prelude.{◌<◌};

use crate::dialogue::{Exchange, all_that_comes, assert_in_turn, assert_said, owed};
use crate::doubler::Doubler;
use crate::wires::{ALL, Ending, NEVER, Runtime, assert_same_before, ending_at, wire};
use memory_wire::MemoryWire;
use no_memory::Fault;
use outer_wire::{Broken, talk};

/// A talk that a full stop ends, and one that goes on to the wire's end.
const ENDED: &[Exchange] = &[
    ("a", "aa"),
    ("b", "bb"),
    ("c", "cc"),
    (".", ""),
    ("never heard", ""),
];

const UNENDED: &[Exchange] = &[("d", "dd"), ("e", "ee"), ("f", "ff")];

/// How a talk with the doubler ends.
fn ending_of(rt: &impl Runtime, wire: &mut MemoryWire) -> Ending {
    let mut doubler = Doubler;
    match talk(rt.alloc(), wire, &mut doubler) {
        Ok(()) => Ending::Whole,
        Err(Fault::At(Broken::Receiving)) => Ending::Receiving,
        Err(Fault::At(Broken::Sending)) => Ending::Sending,
        Err(Fault::NoMemory(_)) => rt.abort(),
    }
}

/// What is said of a dialogue by pieces of so many bytes; it answers how many bytes came.
fn came_by(rt: &impl Runtime, dialogue: &[Exchange], piece: usize) -> usize
    requires { 0 < piece }
{
    let mut wire = wire(rt, &all_that_comes(rt, dialogue), NEVER, piece);
    assert!(rt; ending_of(rt, &mut wire) == Ending::Whole);
    assert_said(rt, dialogue, &wire);
    assert_in_turn(rt, dialogue, &wire)
}

#[test]
fn nothing_is_received_behind_the_piece_that_ends_a_talk(rt: HostRuntime) {
    assert!(rt; came_by(&rt, ENDED, 1) == 4);
    assert!(rt; came_by(&rt, ENDED, 3) == 6);
    assert!(rt; came_by(&rt, ENDED, 4) == 4);
    assert!(rt; came_by(&rt, ENDED, ALL) == 15);
}

#[test]
fn a_talk_goes_on_to_the_end_of_the_wire(rt: HostRuntime) {
    for piece in 1..5 {
        assert!(rt; came_by(&rt, UNENDED, piece) == 3);
    }
}

/// A talk by pieces of so many bytes whose call of this number fails ends there.
fn assert_broken(rt: &impl Runtime, dialogue: &[Exchange], piece: usize, failing: usize)
    requires { 0 < piece }
{
    let bytes = all_that_comes(rt, dialogue);
    let mut whole = wire(rt, &bytes, NEVER, piece);
    assert!(rt; ending_of(rt, &mut whole) == Ending::Whole);
    let mut broken = wire(rt, &bytes, failing, piece);
    let ending = ending_of(rt, &mut broken);
    assert!(rt; ending == ending_at(whole.steps(), failing));
    assert_same_before(rt, &broken, &whole, failing);
    let came = assert_in_turn(rt, dialogue, &broken);
    if ending == Ending::Receiving {
        assert!(rt; broken.gone().len() == owed(dialogue, came));
    }
}

#[test]
fn each_call_that_fails_breaks_a_talk_off(rt: HostRuntime) {
    for piece in 1..5 {
        for failing in 0..12 {
            assert_broken(&rt, ENDED, piece, failing);
            assert_broken(&rt, UNENDED, piece, failing);
        }
    }
}
