//! Paths: how the first source byte that a report lists came to its output byte or point.

use super::guests::{ADD_WORDS, COPY_FOUR, Guest, LOOK_UP, OVERWRITE};
use super::runs::PATH;
use super::{COMPUTE, COPY, Ending, INDEX, Line, assert_guest};

/// The words with one step in each epoch, many workers and the smallest links.
const BY_STEPS: Line = "jet path prog log query --epoch 1 --workers 8 --link 1";

/// The first byte of a sum.
const OF_SUM: &str = "read 5 0x00010014 0:0 m:65792
hop 6 0x00010018 m:65792 r:6.0 lw x6, 0(x11)
hop 8 0x00010020 r:6.0 r:6.0 add x6, x6, x7
hop 9 0x00010024 r:6.0 m:65792 sw x6, 0(x11)
write 13 0x00010034 m:65792 1:0
end 5
";

/// A byte that is an index into a table.
const OF_INDEX: &str = "read 5 0x00010014 0:0 m:65792
hop 6 0x00010018 m:65792 r:6.0 lbu x6, 0(x11)
hop 7 0x0001001c r:6.0 r:6.0 add x6, x6, x11
hop 8 0x00010020 r:6.0 r:7.0 lbu x7, 0(x6)
hop 9 0x00010024 r:7.0 m:65793 sb x7, 1(x11)
write 13 0x00010034 m:65793 1:0
end 6
";

/// Guests, queries and paths.
const PATHS: &[(&Guest, &str, &str)] = &[
    (
        &COPY_FOUR,
        COPY,
        "read 5 0x00010014 0:0 m:65792\nwrite 8 0x00010020 m:65792 1:0\nend 2\n",
    ),
    (&ADD_WORDS, COMPUTE, OF_SUM),
    (&LOOK_UP, INDEX, OF_INDEX),
    // The first row that lists a source byte, and not the first row; the first byte that it lists.
    (
        &COPY_FOUR,
        "rule copy\nsource 0 2 4\nsink all\n",
        "read 5 0x00010014 0:2 m:65794\nwrite 8 0x00010020 m:65794 1:2\nend 2\n",
    ),
    (
        &ADD_WORDS,
        "rule compute\nsource 0 5 7\nsink 1 2 3\n",
        "read 5 0x00010014 0:5 m:65797
hop 7 0x0001001c m:65797 r:7.1 lw x7, 4(x11)
hop 8 0x00010020 r:7.1 r:6.2 add x6, x6, x7
hop 9 0x00010024 r:6.2 m:65794 sw x6, 0(x11)
write 13 0x00010034 m:65794 1:2
end 5
",
    ),
    // To a point: after the read, and at the run's end, where the pc is behind the exit's ECALL. Output bytes come first.
    (
        &COPY_FOUR,
        "rule copy\nsource all\nsink reg 10 at 6\nsink mem 65793 2 at 6\n",
        "read 5 0x00010014 0:1 m:65793\npoint 6 0x00010018 m:65793 m:65793@6\nend 2\n",
    ),
    (
        &COPY_FOUR,
        "rule copy\nsource all\nsink mem 65792 1 at 12\n",
        "read 5 0x00010014 0:0 m:65792\npoint 12 0x00010030 m:65792 m:65792@12\nend 2\n",
    ),
    (
        &COPY_FOUR,
        "rule copy\nsource all\nsink mem 65792 1 at 6\nsink 1 3 4\n",
        "read 5 0x00010014 0:3 m:65795\nwrite 8 0x00010020 m:65795 1:3\nend 2\n",
    ),
    // No row lists a source byte.
    (&ADD_WORDS, COPY, "end 0\n"),
    (&OVERWRITE, COPY, "end 0\n"),
    (&COPY_FOUR, "rule copy\nsink all\n", "end 0\n"),
    (&COPY_FOUR, "rule copy\nsource all\n", "end 0\n"),
    (
        &COPY_FOUR,
        "rule copy\nsource all\nsink mem 65792 1 at 13\n",
        "end 0\n",
    ),
];

#[test]
fn the_first_pair_has_its_path(rt: HostRuntime) {
    for &(guest, query, text) in PATHS {
        for line in [PATH, BY_STEPS] {
            assert_guest(&rt, line, guest, query, Ending::report(text));
        }
    }
}
