//! Texts against what they stand for.

use crate::asserts::Runtime;
use flow_model::{InnerSink, Loc, Rule, SinkByte, SourceByte};
use no_memory::Fault;
use query_lang::{
    FaultInQuery, OtherRule, Query, QueryFault, QueryKind, TogetherFault, parse, together,
};
use std::alloc::Global;

/// Texts, and the line and the kind of their first fault.
const FAULTS: [(&[u8], u32, QueryKind); 20] = [
    (b"", 0, QueryKind::NoRule),
    (b"#\xff\nsink all", 0, QueryKind::NoRule),
    (b"\x07", 1, QueryKind::BadByte),
    (b"rule copy\r", 1, QueryKind::BadByte),
    (b"rule copy\r\r\n", 1, QueryKind::BadByte),
    (b"rule cop", 1, QueryKind::Word),
    (b"rule x y", 1, QueryKind::Word),
    (b"rule keeps", 1, QueryKind::Word),
    (b"rule keep keep", 1, QueryKind::Count),
    (b"rule copy x", 1, QueryKind::Count),
    (b"rule", 1, QueryKind::Count),
    (b"source all 1 2", 1, QueryKind::Count),
    (b"source 0 5", 1, QueryKind::Count),
    (b"source al", 1, QueryKind::Number),
    (b"source 0 5 4294967296", 1, QueryKind::Number),
    (b"rule copy\nsource +1", 2, QueryKind::Number),
    (b"rule copy\nsource 00000000001", 2, QueryKind::Number),
    (b"sink 16 3 2", 1, QueryKind::Channel),
    (b"rule copy\nsink 1 3 2", 2, QueryKind::Range),
    (b"rule copy\nrule copy", 2, QueryKind::SecondRule),
];

/// The bytes, by channel and offset, that are tried of each query.
const TRIED: [(u8, u32); 13] = [
    (0, 0),
    (0, 1),
    (0, 4),
    (0, 5),
    (0, 6),
    (0, 9),
    (0, 4294967295),
    (1, 0),
    (1, 9),
    (1, 4294967295),
    (15, 0),
    (15, 1),
    (16, 0),
];

/// Texts, the rule of the query that each stands for, and which of the bytes that are tried it chooses: as
/// sources, and as sinks.
const QUERIES: [(&[u8], Rule, &[(u8, u32)], &[(u8, u32)]); 5] = [
    (
        b"rule copy\r\nsource 0 1 2\r\n\tsink 1",
        Rule::Copy,
        &[(0, 1)],
        &[(1, 0), (1, 9), (1, 4294967295)],
    ),
    (
        b"# any \xff\x00\n\n \t\nsource 0 5 5\n  rule  compute ",
        Rule::Compute,
        &[],
        &[],
    ),
    (
        b"sink 0 4 6\nsink 0 5 9\nsink 15 0 1\nsink 0 1 1\nrule copy\nsource 0 9 4294967295\nsource 0 0000000000 1",
        Rule::Copy,
        &[(0, 0), (0, 9)],
        &[(0, 4), (0, 5), (0, 6), (15, 0)],
    ),
    (b"rule index", Rule::Index, &[], &[]),
    (b"rule\tkeep\nsource 15 0 1", Rule::Keep, &[(15, 0)], &[]),
];

/// What `parse` answers for the first 4096 bytes of a text.
fn read(alloc: Global, text: &[u8]) -> Result<Query, QueryFault> {
    parse(alloc, &text[..text.len().min(4096)])
}

/// The line and the kind of the first fault of a text.
fn fault_of(alloc: Global, text: &[u8]) -> Option<(u32, QueryKind)> {
    match read(alloc, text) {
        Err(Fault::At(FaultInQuery { line, kind })) => Some((line, kind)),
        _ => None,
    }
}

/// Whether the query chooses these bytes and no others of those that are tried.
fn chooses(query: &Query, sources: &[(u8, u32)], sinks: &[(u8, u32)]) -> bool {
    for byte in &TRIED {
        let (channel, offset) = *byte;
        let is_source = query.source_has(SourceByte { channel, offset });
        let is_sink = query.sink_has(SinkByte { channel, offset });
        if is_source != sources.contains(byte) || is_sink != sinks.contains(byte) {
            return false;
        }
    }
    true
}

#[test]
fn faulty_texts_have_their_first_fault(rt: HostRuntime) {
    for (text, line, kind) in &FAULTS {
        assert!(rt;
            fault_of(rt.alloc(), text) == Some((*line, *kind)),
            "{text:?}"
        );
    }
}

#[test]
fn good_texts_choose_their_bytes(rt: HostRuntime) {
    for (text, rule, sources, sinks) in &QUERIES {
        let is_read = match read(rt.alloc(), text) {
            Ok(query) => query.rule() == *rule && chooses(&query, sources, sinks),
            Err(_) => false,
        };
        assert!(rt; is_read, "{text:?}");
    }
}

/// One query of the two that these texts stand for.
fn of_two(rt: &impl Runtime, first: &[u8], second: &[u8]) -> Result<Query, TogetherFault> {
    let alloc = rt.alloc();
    let queries = [
        read(alloc, first).expect(rt, "the first query"),
        read(alloc, second).expect(rt, "the second query"),
    ];
    together(alloc, queries.as_slice())
}

/// Byte `lane` of x1 after five steps.
fn lane(lane: u8) -> InnerSink {
    InnerSink {
        time: 5,
        loc: Loc::Reg { number: 1, lane },
    }
}

/// A byte of memory after six steps.
fn place(place: u32) -> InnerSink {
    InnerSink {
        time: 6,
        loc: Loc::Mem { place },
    }
}

/// The points of the query are x1 after five steps, and two bytes of memory after six, each once.
fn has_its_points(query: &Query) -> bool {
    let points = [
        lane(0),
        lane(1),
        lane(2),
        lane(3),
        place(65792),
        place(65793),
    ];
    query.points() == points.as_slice()
}

#[test]
fn two_queries_together_choose_what_either_does(rt: HostRuntime) {
    let query = of_two(
        &rt,
        b"rule copy\nsource 0 1 2\nsink 1\nsink mem 65792 2 at 6",
        b"rule copy\nsource 0 4 6\nsink 15 0 1\nsink mem 65793 1 at 6\nsink reg 1 at 5",
    )
    .expect(&rt, "one rule");
    assert!(rt; query.rule() == Rule::Copy);
    assert!(rt; has_its_points(&query));
    assert!(rt;
        chooses(
            &query,
            [(0, 1), (0, 4), (0, 5)].as_slice(),
            [(1, 0), (1, 9), (1, 4294967295), (15, 0)].as_slice()
        )
    );
}

#[test]
fn two_rules_are_not_made_one(rt: HostRuntime) {
    let is_told = match of_two(&rt, b"rule copy", b"rule index") {
        Err(
            Fault::At(
                OtherRule {
                    first: Rule::Copy,
                    index: 2,
                    other: Rule::Index,
                },
            ),
        ) => true,
        _ => false,
    };
    assert!(rt; is_told);
}
