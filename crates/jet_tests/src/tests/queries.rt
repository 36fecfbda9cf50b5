//! Several queries in one run.

use super::guests::{ADD_WORDS, COPY_FOUR, Guest};
use super::{
    COMPUTE, COPY, Ending, KEEP, Line, NEVER, Runtime, assert_ends, copied, log_of, program_of,
    push_file, store_of,
};
use memory_outside::MemoryFile;

/// The names of the files of queries, in their order.
const NAMES: [&str; 3] = ["first", "second", "third"];

const ONE: Line = "jet queries prog log first";

const TWO: Line = "jet queries prog log first second";

const THREE: Line = "jet queries prog log first second third";

/// As many as there may be.
const SIXTEEN: Line =
    "jet queries prog log first first first first first first first first first first first first first first first second";

const SEVENTEEN: Line =
    "jet queries prog log first first first first first first first first first first first first first first first first first";

const FIRST_HALF: &str = "rule compute\nsource 0 0 4\nsink all\n";

const ONE_BYTE: &str = "rule compute\nsource 0 2 8\nsink 1 0 1\n";

/// Words, queries, and their reports.
const REPORTS: &[(&Guest, Line, &[&str], &str)] = &[
    (
        &ADD_WORDS,
        TWO,
        &[FIRST_HALF, ONE_BYTE],
        "query 1
1:0 0:0 0:1 0:2 0:3
1:1 0:0 0:1 0:2 0:3
1:2 0:0 0:1 0:2 0:3
1:3 0:0 0:1 0:2 0:3
end 4
query 2
1:0 0:2 0:3 0:4 0:5 0:6 0:7
end 1
",
    ),
    (
        &COPY_FOUR,
        ONE,
        &["rule copy\nsource all\nsink 1 2 3\n"],
        "query 1\n1:2 0:2\nend 1\n",
    ),
    // One chooses no sources, one no sinks, and one a point.
    (
        &COPY_FOUR,
        THREE,
        &[
            "rule copy\nsink 1 0 1\n",
            "rule copy\nsource all\n",
            "rule copy\nsource 0 1 2\nsink mem 65792 2 at 6\n",
        ],
        "query 1\n1:0\nend 1\nquery 2\nend 0\nquery 3\nm:65792@6\nm:65793@6 0:1\nend 2\n",
    ),
    (
        &COPY_FOUR,
        SIXTEEN,
        &["rule copy\n", "rule copy\nsource all\nsink 1 3 4\n"],
        "query 1\nend 0
query 2\nend 0
query 3\nend 0
query 4\nend 0
query 5\nend 0
query 6\nend 0
query 7\nend 0
query 8\nend 0
query 9\nend 0
query 10\nend 0
query 11\nend 0
query 12\nend 0
query 13\nend 0
query 14\nend 0
query 15\nend 0
query 16\n1:3 0:3\nend 1
",
    ),
];

/// Words, queries, their status and their line.
const REFUSED: &[(Line, &[&str], u8, &str)] = &[
    (TWO, &[COPY, COMPUTE], 11, "jet: rules copy 2 compute\n"),
    (TWO, &[KEEP, COPY], 11, "jet: rules keep 2 copy\n"),
    (
        THREE,
        &[COMPUTE, COMPUTE, "rule index\n"],
        11,
        "jet: rules compute 3 index\n",
    ),
    // Of two others the first is told.
    (
        THREE,
        &["rule index\n", COPY, COMPUTE],
        11,
        "jet: rules index 2 copy\n",
    ),
    (TWO, &[COPY, "sink 16"], 6, "jet: query 2 line 1 Channel\n"),
    (ONE, &["sink 16"], 6, "jet: query 1 line 1 Channel\n"),
    // All queries are read before the rules are compared.
    (
        THREE,
        &[COPY, COMPUTE, "rule copy\nsink 1 3 2"],
        6,
        "jet: query 3 line 2 Range\n",
    ),
    (THREE, &[COPY, COMPUTE], 7, "jet: read fault\n"),
    (SEVENTEEN, &[COPY], 2, "jet: usage\n"),
    ("jet queries prog log", &[], 2, "jet: usage\n"),
];

/// A program, a log and queries.
fn files(rt: &impl Runtime, program: &[u8], log: &[u8], queries: &[&str]) -> Vec<MemoryFile> {
    let mut files = Vec::new(rt.alloc());
    push_file(rt, &mut files, "prog", program);
    push_file(rt, &mut files, "log", log);
    for (number, query) in queries.iter().enumerate() {
        if number < NAMES.len() {
            push_file(rt, &mut files, NAMES[number], query.as_bytes());
        }
    }
    files
}

/// The command of these words ends so over a program, a log and queries.
fn assert_queries(
    rt: &impl Runtime,
    line: Line,
    program: &[u8],
    log: &[u8],
    queries: &[&str],
    ending: Ending<'_>,
) {
    let files = files(rt, program, log, queries);
    let mut store = store_of(rt, files, NEVER, 65536, 0);
    assert_ends(rt, line, &mut store, ending);
}

/// The same over a guest's run.
fn assert_guest_queries(
    rt: &impl Runtime,
    guest: &Guest,
    line: Line,
    queries: &[&str],
    ending: Ending<'_>,
) {
    let program = program_of(rt, guest);
    let log = log_of(rt, &program, guest.pages, 1, guest.entries);
    assert_queries(rt, line, &program, &log, queries, ending);
}

#[test]
fn several_queries_have_their_reports(rt: HostRuntime) {
    for &(guest, line, queries, text) in REPORTS {
        assert_guest_queries(&rt, guest, line, queries, Ending::report(text));
    }
}

#[test]
fn several_queries_are_refused(rt: HostRuntime) {
    for &(line, queries, status, said) in REFUSED {
        let ending = Ending::of(status, said);
        assert_guest_queries(&rt, &COPY_FOUR, line, queries, ending);
    }
}

/// Rules that differ are told even where the log is of another program, and a log that is none before them.
fn assert_rules_first(rt: &impl Runtime, program: &[u8], log: &[u8]) {
    let rules = Ending::of(11, "jet: rules copy 2 compute\n");
    assert_queries(rt, TWO, program, log, &[COPY, COMPUTE], rules);
    let short = Ending::of(4, "jet: log 3 Short at 98\n");
    let begun = &log[..log.len().min(106)];
    assert_queries(rt, TWO, program, begun, &[COPY, COMPUTE], short);
}

#[test]
fn rules_are_compared_before_the_log_is_fitted(rt: HostRuntime) {
    let (_, log) = copied(&rt);
    let program = program_of(&rt, &ADD_WORDS);
    assert_rules_first(&rt, &program, &log);
}
