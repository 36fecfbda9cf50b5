//! Rows as text: in order, turned round, and of what a query chooses; the text in pieces.

ghost use Rattle.std.specs.Prelude.{◌≡◌};
ghost use Rattle.report_model.specs.Text.{report_text};

use crate::asserts::{Runtime, assert_same};
use flow_model::{Loc, SinkPoint, SourceByte};
use memory_outside::MemorySink;
use outer_io::{Buffer, InPieces, Pieces, write_in_pieces};
use query_lang::{Query, parse};
use sink_collect::{
    Report, SinkSet, SinkSets, gather, influence_text, put_influence, put_numbered, put_rows,
    put_text, text, texts_at_once, turn_round,
};
use source_ranges::SourceSet;
use std::thread::Threads;

/// The set of an output byte or a point, with one source byte on each of the channels 0 and 15, or with none.
fn set(rt: &impl Runtime, sink: SinkPoint, source: Option<u32>) -> SinkSet
    ensures { result.sink ≡ sink }
{
    let alloc = rt.alloc();
    let last = source!(15, 2);
    let sources = match source {
        Some(offset) => SourceSet::of(alloc, &[SourceByte { channel: 0, offset }, last]),
        None => SourceSet::of(alloc, &[]),
    };
    SinkSet::new(sink, sources.expect(rt, "memory"))
}

const EARLY: SinkPoint = output!(1, 70000);

const NINTH: SinkPoint = output!(2, 9);

const TENTH: SinkPoint = output!(2, 10);

/// The last byte of x10 after six steps.
const LANE: SinkPoint = inside!(lane!(10, 3), 6);

/// A byte of memory at the same time.
const PLACE: SinkPoint = inside!(Loc::Mem { place: 65792 }, 6);

/// The report of five sets that come in another order.
fn report(rt: &impl Runtime) -> Report {
    let alloc = rt.alloc();
    let sets = vec![in alloc;
        set(rt, PLACE, Some(7)),
        set(rt, TENTH, Some(4294967295)),
        set(rt, LANE, None),
        set(rt, NINTH, None),
        set(rt, EARLY, Some(7)),
    ];
    gather(alloc, SinkSets::from_vec(sets.expect(rt, "memory"))).expect(rt, "memory")
}

/// The report has this text.
fn assert_text(rt: &impl Runtime, report: &Report, lines: &str) {
    let written = text(rt.alloc(), report).expect(rt, "memory");
    assert_same(rt, written.as_slice(), lines.as_bytes());
}

/// The output bytes come first, by channel and then offset.
#[test]
fn rows_come_in_their_order(rt: HostRuntime) {
    let report = report(&rt);
    assert_same(&rt, report.lines(), 5);
    assert_same(&rt, report.pairs(), 6);
    let lines =
        "1:70000 0:7 15:2\n2:9\n2:10 0:4294967295 15:2\nr:10.3@6\nm:65792@6 0:7 15:2\nend 5\n";
    assert_text(&rt, &report, lines);
}

/// The bytes 7 and 8 of channel 0, and byte 2 of channel 15: two ranges, of which the rows cut the first.
fn chosen(rt: &impl Runtime) -> SourceSet {
    let bytes = [source!(0, 7), source!(0, 8), source!(15, 2)];
    SourceSet::of(rt.alloc(), &bytes).expect(rt, "memory")
}

#[test]
fn rows_are_turned_round(rt: HostRuntime) {
    let alloc = rt.alloc();
    let report = report(&rt);
    let influence = turn_round(alloc, &report, &chosen(&rt)).expect(&rt, "memory");
    assert_same(&rt, influence.lines(), 3);
    let lines = influence_text(alloc, &influence).expect(&rt, "memory");
    assert_same(
        &rt,
        lines.as_slice(),
        b"0:7 1:70000 m:65792@6\n0:8\n15:2 1:70000 2:10 m:65792@6\nend 3\n".as_slice(),
    );
    let mut out = Vec::new(alloc);
    put_numbered(&mut out, b"query ", 16).expect(&rt, "memory");
    put_influence(&mut out, &influence).expect(&rt, "memory");
    assert_same(
        &rt,
        out.as_slice(),
        b"query 16\n0:7 1:70000 m:65792@6\n0:8\n15:2 1:70000 2:10 m:65792@6\nend 3\n".as_slice(),
    );
}

/// What a query chooses of the report has this text.
fn assert_only(rt: &impl Runtime, report: &Report, query: &Query, lines: &str) {
    let chosen = report.only(rt.alloc(), query).expect(rt, "memory");
    assert_text(rt, &chosen, lines);
}

#[test]
fn a_query_has_its_own_rows(rt: HostRuntime) {
    let report = report(&rt);
    let query = parse(
        rt.alloc(),
        b"rule copy\nsource 0\nsink 1\nsink 2 0 10\nsink mem 65792 2 at 6\n",
    )
    .expect(&rt, "a query");
    let lines = "1:70000 0:7\n2:9\nm:65792@6 0:7\nend 3\n";
    assert_only(&rt, &report, &query, lines);
}

/// A report, of which the text is put in pieces.
#[derive(Drop)]
struct Lines {
    report: Report,
}

impl InPieces for Lines {
    ghost text = { λ l. report_text l.report };

    fn put_to<P: Pieces>(&self, place: &mut P) -> Result<(), P::Fault> {
        put_text(place, &self.report)
    }
}

/// How many bytes a buffer holds: none, less than a name, less than a line, and the whole text.
const ROOMS: &[usize] = &[0, 1, 3, 16, 31, 4096];

/// Through a buffer of this room, to a sink that takes seven bytes a call and fails at this one, the text is written up to there.
fn assert_pieces(rt: &impl Runtime, lines: &Lines, room: usize, failing: u64) {
    let alloc = rt.alloc();
    let whole = text(alloc, &lines.report).expect(rt, "memory");
    let failing = [failing].as_slice().to_vec(alloc).expect(rt, "memory");
    let mut sink = MemorySink::new(alloc, failing, 7, 4096).expect(rt, "memory");
    let buffer = Buffer::new(alloc, room).expect(rt, "memory");
    let written = write_in_pieces(&mut sink, buffer, lines);
    if written.is_ok() {
        assert_same(rt, sink.bytes(), whole.as_slice());
    } else {
        assert!(rt; sink.bytes().len() < whole.len());
        assert!(rt; whole.as_slice().starts_with(sink.bytes()));
    }
}

#[test]
fn a_text_is_written_in_pieces(rt: HostRuntime) {
    let lines = Lines {
        report: report(&rt),
    };
    for room in ROOMS {
        for failing in 0..40 {
            assert_pieces(&rt, &lines, *room, failing);
        }
    }
}

/// Rows of so many output bytes, with two source bytes each.
fn rows_of_bytes(rt: &impl Runtime, count: u32) -> Vec<SinkSet> {
    let mut rows = Vec::new(rt.alloc());
    for offset in 0..count {
        rows.push(set(rt, output!(1, offset), Some(offset)))
            .expect(rt, "memory");
    }
    rows
}

/// Several workers make several texts, which are the lines of these rows.
fn assert_texts(rt: &(impl Runtime + Threads + Sync), rows: &[SinkSet], workers: u32) {
    let alloc = rt.alloc();
    let texts = texts_at_once(rt, alloc, rows, workers).expect(rt, "memory");
    assert_same(rt, texts.len() > 1, workers > 1);
    let mut found = Vec::new(alloc);
    for text in texts.as_slice() {
        found.extend_from_slice(text).expect(rt, "memory");
    }
    let mut lines = Vec::new(alloc);
    put_rows(&mut lines, rows).expect(rt, "memory");
    assert_same(rt, found.as_slice(), lines.as_slice());
}

#[test]
fn several_workers_make_a_long_text(rt: HostRuntime) {
    let rows = rows_of_bytes(&rt, 8000);
    for workers in [1, 2, 3, 64] {
        assert_texts(&rt, &rows, workers);
    }
}
