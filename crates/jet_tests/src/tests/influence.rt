//! Reports turned round: where each input byte went.

use super::guests::{ADD_WORDS, COPY_FOUR, Guest, LOOK_UP, OVERWRITE, UNALIGNED};
use super::runs::INFLUENCE;
use super::{COMPUTE, COPY, Ending, INDEX, assert_guest};

/// Each of the eight bytes of two words comes to all four of their sum.
const OF_SUM: &str = "0:0 1:0 1:1 1:2 1:3
0:1 1:0 1:1 1:2 1:3
0:2 1:0 1:1 1:2 1:3
0:3 1:0 1:1 1:2 1:3
0:4 1:0 1:1 1:2 1:3
0:5 1:0 1:1 1:2 1:3
0:6 1:0 1:1 1:2 1:3
0:7 1:0 1:1 1:2 1:3
end 8
";

/// Guests, queries and what is told of the input bytes.
const INFLUENCES: &[(&Guest, &str, &str)] = &[
    (&ADD_WORDS, COMPUTE, OF_SUM),
    (
        &ADD_WORDS,
        COPY,
        "0:0\n0:1\n0:2\n0:3\n0:4\n0:5\n0:6\n0:7\nend 8\n",
    ),
    (
        &COPY_FOUR,
        COPY,
        "0:0 1:0\n0:1 1:1\n0:2 1:2\n0:3 1:3\nend 4\n",
    ),
    (
        &COPY_FOUR,
        "rule copy\nsource all\nsink 1 2 3\n",
        "0:0\n0:1\n0:2 1:2\n0:3\nend 4\n",
    ),
    (
        &UNALIGNED,
        COPY,
        "0:0 1:0 1:1\n0:1 1:2\n0:2 1:3\n0:3\nend 4\n",
    ),
    (&OVERWRITE, COPY, "0:0\nend 1\n"),
    (&LOOK_UP, COMPUTE, "0:0\nend 1\n"),
    (&LOOK_UP, INDEX, "0:0 1:0\nend 1\n"),
    // Bytes that are no sources have no line, and sources that the run didn't receive have none.
    (
        &COPY_FOUR,
        "rule copy\nsource 0 1 3\nsource 5\nsink all\n",
        "0:1 1:1\n0:2 1:2\nend 2\n",
    ),
    (&COPY_FOUR, "rule copy\nsink all\n", "end 0\n"),
    (&COPY_FOUR, "rule copy\nsource 0 3 9\n", "0:3\nend 1\n"),
    // With points inside the run, which come after the output bytes.
    (
        &COPY_FOUR,
        "rule copy\nsource all\nsink mem 65792 2 at 7\nsink 1\n",
        "0:0 1:0 m:65792@7\n0:1 1:1 m:65793@7\n0:2 1:2\n0:3 1:3\nend 4\n",
    ),
    (
        &ADD_WORDS,
        "rule compute\nsource 0 2 4\nsink reg 7 at 8\nsink reg 6 at 9\nsink reg 6 at 8\n",
        "0:2 r:6.2@8 r:6.0@9 r:6.1@9 r:6.2@9 r:6.3@9
0:3 r:6.3@8 r:6.0@9 r:6.1@9 r:6.2@9 r:6.3@9
end 2
",
    ),
];

#[test]
fn input_bytes_are_followed(rt: HostRuntime) {
    for &(guest, query, text) in INFLUENCES {
        assert_guest(&rt, INFLUENCE, guest, query, Ending::report(text));
    }
}

/// A faulty query is refused as a report's is.
#[test]
fn an_influence_of_a_faulty_query_is_refused(rt: HostRuntime) {
    let ending = Ending::of(6, "jet: query line 1 Channel\n");
    assert_guest(&rt, INFLUENCE, &COPY_FOUR, "sink 16", ending);
}
