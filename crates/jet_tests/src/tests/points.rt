//! Points inside a run: registers and memory as they stand after some steps.

use super::guests::{ADD_WORDS, COPY_FOUR, Guest};
use super::{COPIED, Ending, QUERY, assert_guest};

/// Guests, queries with points, and their reports.
const POINTS: &[(&Guest, &str, &str)] = &[
    // After the read, which made x10 the number of bytes.
    (
        &COPY_FOUR,
        "rule copy\nsource all\nsink reg 10 at 6\nsink mem 65792 2 at 6\n",
        "r:10.0@6\nr:10.1@6\nr:10.2@6\nr:10.3@6\nm:65792@6 0:0\nm:65793@6 0:1\nend 6\n",
    ),
    (
        &COPY_FOUR,
        "rule copy\nsource all\nsink reg 10 at 7\nsink mem 65792 2 at 7\n",
        "r:10.0@7\nr:10.1@7\nr:10.2@7\nr:10.3@7\nm:65792@7 0:0\nm:65793@7 0:1\nend 6\n",
    ),
    // At the run's end, and after it.
    (
        &COPY_FOUR,
        "rule copy\nsource all\nsink mem 65792 2 at 12\n",
        "m:65792@12 0:0\nm:65793@12 0:1\nend 2\n",
    ),
    (
        &COPY_FOUR,
        "rule copy\nsource all\nsink mem 65792 2 at 13\nsink reg 1 at 1099511627776\n",
        "end 0\n",
    ),
    // Before the read, and before the first step.
    (
        &COPY_FOUR,
        "rule copy\nsource all\nsink mem 65792 1 at 5\nsink mem 65792 1 at 6\nsink reg 31 at 0\n",
        "r:31.0@0\nr:31.1@0\nr:31.2@0\nr:31.3@0\nm:65792@5\nm:65792@6 0:0\nend 6\n",
    ),
    // Outside the window, and over its end.
    (
        &COPY_FOUR,
        "rule copy\nsource all\nsink mem 0 2 at 3\n",
        "m:0@3\nm:1@3\nend 2\n",
    ),
    (
        &COPY_FOUR,
        "rule copy\nsource all\nsink mem 69631 2 at 12\nsink mem 4294967295 1 at 12\n",
        "m:69631@12\nm:69632@12\nm:4294967295@12\nend 3\n",
    ),
    // A point that is chosen twice has one line, and `sink all` chooses no points.
    (
        &COPY_FOUR,
        "rule copy\nsource all\nsink mem 65792 2 at 6\nsink mem 65793 2 at 6\nsink mem 65792 2 at 6\n",
        "m:65792@6 0:0\nm:65793@6 0:1\nm:65794@6 0:2\nend 3\n",
    ),
    (&COPY_FOUR, "rule copy\nsource all\nsink all\n", COPIED),
    // Points come after all output bytes, by step, and registers before memory.
    (
        &COPY_FOUR,
        "rule copy\nsource 0 0 1\nsink mem 65792 1 at 7\nsink reg 9 at 7\nsink mem 65792 1 at 6\nsink 1 0 1\n",
        "1:0 0:0\nm:65792@6 0:0\nr:9.0@7\nr:9.1@7\nr:9.2@7\nr:9.3@7\nm:65792@7 0:0\nend 7\n",
    ),
    // A register that is loaded, and then the sum.
    (
        &ADD_WORDS,
        "rule compute\nsource all\nsink reg 6 at 7\nsink reg 6 at 9\n",
        "r:6.0@7 0:0
r:6.1@7 0:1
r:6.2@7 0:2
r:6.3@7 0:3
r:6.0@9 0:0 0:1 0:2 0:3 0:4 0:5 0:6 0:7
r:6.1@9 0:0 0:1 0:2 0:3 0:4 0:5 0:6 0:7
r:6.2@9 0:0 0:1 0:2 0:3 0:4 0:5 0:6 0:7
r:6.3@9 0:0 0:1 0:2 0:3 0:4 0:5 0:6 0:7
end 8
",
    ),
    // Between the sum and its storing the word is still the first.
    (
        &ADD_WORDS,
        "rule compute\nsource all\nsink mem 65792 1 at 9\nsink mem 65792 1 at 10\n",
        "m:65792@9 0:0\nm:65792@10 0:0 0:1 0:2 0:3 0:4 0:5 0:6 0:7\nend 2\n",
    ),
];

#[test]
fn points_are_followed(rt: HostRuntime) {
    for &(guest, query, report) in POINTS {
        assert_guest(&rt, QUERY, guest, query, Ending::report(report));
    }
}

/// Queries, and the line of their status 6.
const FAULTY: &[(&str, &str)] = &[
    ("sink reg 0 at 5", "jet: query line 1 Range\n"),
    ("sink reg 32 at 5", "jet: query line 1 Range\n"),
    ("sink mem 5 at 7", "jet: query line 1 Word\n"),
    ("sink reg 5", "jet: query line 1 Count\n"),
    ("sink mem 5 1", "jet: query line 1 Count\n"),
    ("sink reg 5 at 6 7", "jet: query line 1 Count\n"),
    (
        "sink mem 1 2 at 1099511627777",
        "jet: query line 1 Number\n",
    ),
    ("sink reg 1 at 00000000000001", "jet: query line 1 Number\n"),
    ("sink mem 1 0 at 5", "jet: query line 1 Range\n"),
    ("sink mem 1 65537 at 5", "jet: query line 1 Range\n"),
    ("sink mem 4294967295 2 at 5", "jet: query line 1 Range\n"),
];

#[test]
fn faulty_points_are_told(rt: HostRuntime) {
    for &(query, line) in FAULTY {
        assert_guest(&rt, QUERY, &COPY_FOUR, query, Ending::of(6, line));
    }
}
