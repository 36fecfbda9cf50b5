//! Reports in ranges, with the bytes on both sides.

use super::guests::{ADD_WORDS, COPY_FOUR, Guest, OVERWRITE, UNALIGNED, XOR_WORDS};
use super::runs::SHOW;
use super::{COMPUTE, COPY, Ending, Line, assert_guest};

/// The words with one step in each epoch, many workers and the smallest links.
const BY_STEPS: Line = "jet show prog log query --epoch 1 --workers 8 --link 1";

/// Each byte of an exclusive or comes from the same byte of both words.
const OF_XOR: &str = "1:0-1 \"\\x04\" < 0:0-1 \"A\" 0:4-5 \"E\"
1:1-2 \"\\x04\" < 0:1-2 \"B\" 0:5-6 \"F\"
1:2-3 \"\\x04\" < 0:2-3 \"C\" 0:6-7 \"G\"
1:3-4 \"\\x0c\" < 0:3-4 \"D\" 0:7-8 \"H\"
end 4 0
";

/// Guests, queries and reports in ranges.
const SHOWN: &[(&Guest, &str, &str)] = &[
    (
        &COPY_FOUR,
        COPY,
        "1:0-4 \"ABCD\" = 0:0-4 \"ABCD\"\nend 1 0\n",
    ),
    (
        &ADD_WORDS,
        COMPUTE,
        "1:0-4 \"\\x86\\x88\\x8a\\x8c\" < 0:0-8 \"ABCDEFGH\"\nend 1 0\n",
    ),
    // The same source byte twice, and then each its own.
    (
        &UNALIGNED,
        COPY,
        "1:0-2 \"AA\" < 0:0-1 \"A\"\n1:2-4 \"BC\" = 0:1-3 \"BC\"\nend 2 0\n",
    ),
    (&XOR_WORDS, COMPUTE, OF_XOR),
    // Rows without a source are in no line.
    (&ADD_WORDS, COPY, "end 0 4\n"),
    (&OVERWRITE, COPY, "end 0 1\n"),
    (
        &COPY_FOUR,
        "rule copy\nsource 0 1 3\nsink all\n",
        "1:1-3 \"BC\" = 0:1-3 \"BC\"\nend 1 2\n",
    ),
    // Points come after the output bytes, each in a line of its own.
    (
        &COPY_FOUR,
        "rule copy\nsource all\nsink mem 65792 2 at 6\nsink reg 10 at 6\nsink 1 3 4\n",
        "1:3-4 \"D\" = 0:3-4 \"D\"
m:65792@6 < 0:0-1 \"A\"
m:65793@6 < 0:1-2 \"B\"
end 3 4
",
    ),
    (&COPY_FOUR, "rule copy\nsource all\n", "end 0 0\n"),
];

#[test]
fn reports_are_shown_in_ranges(rt: HostRuntime) {
    for &(guest, query, text) in SHOWN {
        for line in [SHOW, BY_STEPS] {
            assert_guest(&rt, line, guest, query, Ending::report(text));
        }
    }
}
