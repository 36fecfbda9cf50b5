//! Decisions: where a chosen source byte could turn a run.

use super::guests::{ADD_WORDS, COPY_FOUR, Guest, LOOK_UP};
use super::runs::DECISIONS;
use super::{COMPUTE, COPY, Ending, INDEX, assert_guest};

/// The address of a load is computed from the byte.
const OF_ADDRESS: &str = "0x00010020 lbu r:6.0 1 8 0:0-1
0x00010020 lbu r:6.1 1 8 0:0-1
0x00010020 lbu r:6.2 1 8 0:0-1
0x00010020 lbu r:6.3 1 8 0:0-1
end 4
";

/// Guests, queries and decisions.
const DECIDED: &[(&Guest, &str, &str)] = &[
    (&COPY_FOUR, COPY, "end 0\n"),
    (&ADD_WORDS, COMPUTE, "end 0\n"),
    (&LOOK_UP, COMPUTE, OF_ADDRESS),
    // Decisions are by what is computed, where the query asks for moves.
    (&LOOK_UP, COPY, OF_ADDRESS),
    // By addresses a load decides nothing.
    (&LOOK_UP, INDEX, "end 0\n"),
    // No source byte is chosen.
    (&LOOK_UP, "rule compute\nsource 1\nsink all\n", "end 0\n"),
    // The sinks don't count.
    (&LOOK_UP, "rule compute\nsource all\n", OF_ADDRESS),
];

#[test]
fn decisions_are_told(rt: HostRuntime) {
    for &(guest, query, text) in DECIDED {
        assert_guest(&rt, DECISIONS, guest, query, Ending::report(text));
    }
}
