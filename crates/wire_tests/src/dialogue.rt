//! Dialogues: what comes, and what is said in answer to each part of it.

use crate::wires::Runtime;
use memory_wire::{MemoryWire, Step};

/// A part of what comes, and all that is said in answer to it, when it has come whole.
pub type Exchange = (&'static str, &'static str);

/// All that comes.
pub fn all_that_comes(rt: &impl Runtime, dialogue: &[Exchange]) -> Vec<u8> {
    let mut bytes = Vec::new(rt.alloc());
    for (comes, _) in dialogue {
        bytes
            .extend_from_slice(comes.as_bytes())
            .expect(rt, "memory");
    }
    bytes
}

/// All that is said.
pub fn all_that_goes(rt: &impl Runtime, dialogue: &[Exchange]) -> Vec<u8> {
    let mut bytes = Vec::new(rt.alloc());
    for (_, goes) in dialogue {
        bytes
            .extend_from_slice(goes.as_bytes())
            .expect(rt, "memory");
    }
    bytes
}

/// How many bytes are owed when so many came: those of the answers to the parts that came whole.
pub fn owed(dialogue: &[Exchange], came: usize) -> usize {
    let mut rest = came;
    let mut owed = 0usize;
    for (comes, goes) in dialogue {
        if rest < comes.len() {
            return owed;
        }
        rest -= comes.len();
        owed = owed.wrapping_add(goes.len());
    }
    owed
}

/// Wherever more was asked for, all had gone that was owed by then. It answers how many bytes came.
pub fn assert_in_turn(rt: &impl Runtime, dialogue: &[Exchange], wire: &MemoryWire) -> usize {
    let mut came = 0usize;
    let mut gone = 0usize;
    for step in wire.steps() {
        match *step {
            Step::Received(count) => {
                assert!(rt; gone == owed(dialogue, came));
                came = came.wrapping_add(count);
            }
            Step::Sent(count) => gone = gone.wrapping_add(count),
        }
    }
    came
}

/// What went is what is said, and it went in turn.
pub fn assert_said(rt: &impl Runtime, dialogue: &[Exchange], wire: &MemoryWire) {
    let said = all_that_goes(rt, dialogue);
    assert!(rt; wire.gone() == said.as_slice());
    let _ = assert_in_turn(rt, dialogue, wire);
}
