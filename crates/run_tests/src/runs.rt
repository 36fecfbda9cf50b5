//! Queries over runs that are cut into epochs: their reports, and what crosses the cuts.

ghost use Rattle.log_model.specs.Logs.{steps};
ghost use Rattle.epoch_model.specs.Cutting.{IsCutting};

mod checked;
mod gates;
mod groups;

use crate::guests::{
    COPY_FOUR, COPY_IN_TWO, COUNT_DOWN, FILL, ROUND, Runtime, TRAP, copy_many, job_of,
};
use checkpoints::Checkpoints;
use epoch_cut::laws::cut_times_are_cutting;
use epoch_cut::{Cuts, cuts};
use epoch_engine::{Joining, Parallelism};
use epoch_link::Capacity;
use flow_model::{Loc, SinkByte, SinkPoint, SourceByte};
use jet_core::{Crossed, joined, query, round_robin};
use outer_io::{Gate, OpenGate};
use query_lang::{Query, parse};
use replayer::Job;
use seq_taint::sequential;
use sink_collect::{Report, SinkSets, gather, text};
use std::process::Abort;

/// How many workers there are, and how many messages a link between two nodes holds.
#[derive(Clone, Copy)]
struct Line {
    workers: u32,
    capacity: u32,
}

/// One worker, and the smallest links.
const ALONE: Line = Line {
    workers: 1,
    capacity: 1,
};

/// Where a run is cut by a length.
pub fn cuts_of(rt: &impl Abort, job: &Job, length: u64) -> Cuts
    ensures { IsCutting (steps job.now.log) result }
{
    assert!(rt; 1 <= length);
    cut_times_are_cutting();
    cuts(job.steps(), length).expect(rt, "few epochs")
}

/// The query of a text.
pub fn query_of(rt: &impl Runtime, text: &[u8]) -> Query {
    assert!(rt; text.len() <= 4096);
    parse(rt.alloc(), text).expect(rt, "a query")
}

/// What a query answers: its report, what crosses the inner cuts, and how many events moved.
#[derive(Drop)]
struct Answer {
    report: Report,
    crossed: Vec<Crossed>,
    events: u64,
}

/// What a query answers over a run that is cut by a length.
fn answer_of<G: Gate>(
    rt: &impl Runtime,
    gate: &G,
    job: &Job,
    wanted: &Query,
    length: u64,
    line: Line,
) -> Answer {
    let Line { workers, capacity } = line;
    assert!(rt; 1 <= workers);
    assert!(rt; workers <= 64);
    let parallelism = Parallelism {
        workers,
        joining: Joining::ByLinks,
        link: Capacity::new(capacity).expect(rt, "a capacity"),
    };
    let cuts = cuts_of(rt, job, length);
    let found = query(rt, rt.alloc(), gate, job, wanted, cuts, parallelism);
    let (report, crossed, events) = found.expect(rt, "memory");
    Answer {
        report,
        crossed,
        events,
    }
}

/// The same by rounds on this thread, over links of a capacity.
fn answer_by_rounds<G: Gate>(
    rt: &impl Runtime,
    gate: &G,
    job: &Job,
    wanted: &Query,
    length: u64,
    capacity: u32,
) -> Answer {
    let capacity = Capacity::new(capacity).expect(rt, "a capacity");
    let cuts = cuts_of(rt, job, length);
    let found = round_robin(rt.alloc(), gate, job, wanted, cuts, capacity);
    let (report, crossed, events) = found.expect(rt, "memory");
    Answer {
        report,
        crossed,
        events,
    }
}

/// The report where the epochs' summaries are joined by one log.
fn joined_report(rt: &impl Runtime, job: &Job, wanted: &Query, length: u64) -> Report {
    joined(rt, rt.alloc(), job, wanted, cuts_of(rt, job, length)).expect(rt, "memory")
}

/// The report where the run is analysed as a whole, one step after another.
fn sequential_report(rt: &impl Runtime, job: &Job, wanted: &Query) -> Report {
    let alloc = rt.alloc();
    let sets = sequential(alloc, job, wanted).expect(rt, "memory");
    gather(alloc, SinkSets::from_vec(sets)).expect(rt, "memory")
}

/// The report has this text.
fn assert_text(rt: &impl Runtime, report: &Report, lines: &str) {
    let written = text(rt.alloc(), report).expect(rt, "memory");
    assert!(rt; written.as_slice() == lines.as_bytes());
}

/// The buffer of the two short copies.
const BUFFER: [Loc; 5] = [
    Loc::Mem { place: 65792 },
    Loc::Mem { place: 65793 },
    Loc::Mem { place: 65794 },
    Loc::Mem { place: 65795 },
    Loc::Mem { place: 65796 },
];

/// Just so many of the buffer's bytes cross the cut, in their order.
fn assert_crosses(rt: &impl Abort, crossing: &Crossed, count: usize) {
    assert!(rt; BUFFER.get(..count) == Some(crossing.asked()));
}

/// So many of the buffer's bytes cross each of the cuts.
fn assert_crossed(rt: &impl Abort, crossed: &[Crossed], counts: &[usize]) {
    assert!(rt; crossed.len() == counts.len());
    for (crossing, count) in crossed.iter().zip(counts) {
        assert_crosses(rt, crossing, *count);
    }
}

/// A query, how many steps an epoch has, the report, how many of the buffer's bytes cross each cut, and how many events move.
struct Case {
    query: &'static [u8],
    length: u64,
    report: &'static str,
    crossed: &'static [usize],
    events: u64,
}

/// The answer has this report, these crossings, and as many events.
fn assert_answer(rt: &impl Runtime, answer: &Answer, case: &Case) {
    assert!(rt; answer.events == case.events);
    assert_crossed(rt, &answer.crossed, case.crossed);
    assert_text(rt, &answer.report, case.report);
}

/// A query over a run has its report and its crossings by each call.
fn assert_case(rt: &impl Runtime, job: &Job, case: &Case) {
    let wanted = query_of(rt, case.query);
    let report = sequential_report(rt, job, &wanted);
    assert_text(rt, &report, case.report);
    let report = joined_report(rt, job, &wanted, case.length);
    assert_text(rt, &report, case.report);
    let found = answer_of(rt, &OpenGate, job, &wanted, case.length, ALONE);
    assert_answer(rt, &found, case);
    let found = answer_by_rounds(rt, &OpenGate, job, &wanted, case.length, 1);
    assert_answer(rt, &found, case);
}

/// Copies what it reads.
pub const COPY: &[u8] = b"rule copy\nsource all\nsink all\n";

/// Points of the copy of four bytes at a cut, after it, and past the run's end.
const POINTS: &[Case] = &[
    Case {
        query: b"rule copy\nsource all\nsink reg 10 at 6\nsink mem 65792 2 at 6\n",
        length: 6,
        report: "r:10.0@6\nr:10.1@6\nr:10.2@6\nr:10.3@6\nm:65792@6 0:0\nm:65793@6 0:1\nend 6\n",
        crossed: &[0],
        events: 16,
    },
    Case {
        query: b"rule copy\nsource all\nsink reg 10 at 7\nsink mem 65792 2 at 7\n",
        length: 6,
        report: "r:10.0@7\nr:10.1@7\nr:10.2@7\nr:10.3@7\nm:65792@7 0:0\nm:65793@7 0:1\nend 6\n",
        crossed: &[2],
        events: 30,
    },
    Case {
        query: b"rule copy\nsource all\nsink mem 65792 2 at 13\n",
        length: 6,
        report: "end 0\n",
        crossed: &[0],
        events: 10,
    },
];

#[test]
fn points_are_followed_by_epochs(rt: HostRuntime) {
    let job = job_of(&rt, &COPY_FOUR);
    for case in POINTS {
        assert_case(&rt, &job, case);
    }
}

/// The copy of five bytes that are read in two epochs, where a third writes them.
const FIVE: Case = Case {
    query: COPY,
    length: 7,
    report: "1:0 0:0\n1:1 0:1\n1:2 0:2\n1:3 0:3\n1:4 0:4\nend 5\n",
    crossed: &[3, 5],
    events: 77,
};

#[test]
fn bytes_come_from_several_epochs(rt: HostRuntime) {
    assert_case(&rt, &job_of(&rt, &COPY_IN_TWO), &FIVE);
}

/// A run of no step is one epoch.
const NONE: Case = Case {
    query: COPY,
    length: 1,
    report: "end 0\n",
    crossed: &[],
    events: 4,
};

#[test]
fn a_run_of_no_step_is_followed(rt: HostRuntime) {
    assert_case(&rt, &job_of(&rt, &TRAP), &NONE);
}

/// The report of the copy of four bytes.
const COPIED: &str = "1:0 0:0\n1:1 0:1\n1:2 0:2\n1:3 0:3\nend 4\n";

/// The copy of four bytes has its report, its crossings and its events where it is cut by a length: from their read to their write,
/// the bytes are asked for, and each has one source byte.
fn assert_copied(rt: &impl Runtime, found: &Answer, length: u64) {
    assert_text(rt, &found.report, COPIED);
    let mut events = 8u64;
    for crossing in &found.crossed {
        let count = match length.saturating_mul(u64::from(crossing.cut())) {
            6..=8 => 4,
            _ => 0,
        };
        assert_crosses(rt, crossing, count);
        events = events.saturating_add(6 + 7 * count as u64);
    }
    assert!(rt; found.events == events);
}

/// By epochs of so many steps and so many workers, the copy of four bytes has the same answers over links of each capacity.
fn assert_copied_by_workers(
    rt: &impl Runtime,
    job: &Job,
    wanted: &Query,
    length: u64,
    workers: u32,
) {
    for capacity in [1, 2, 256] {
        let line = Line { workers, capacity };
        let found = answer_of(rt, &OpenGate, job, wanted, length, line);
        assert_copied(rt, &found, length);
    }
}

/// The same by rounds.
fn assert_copied_by_rounds(rt: &impl Runtime, job: &Job, wanted: &Query, length: u64) {
    for capacity in [1, 2, 256] {
        let found = answer_by_rounds(rt, &OpenGate, job, wanted, length, capacity);
        assert_copied(rt, &found, length);
    }
}

/// By epochs of so many steps, the copy of four bytes has the same answers by each call, by every line and by rounds.
fn assert_copied_by_all(rt: &impl Runtime, job: &Job, wanted: &Query, length: u64) {
    let report = joined_report(rt, job, wanted, length);
    assert_text(rt, &report, COPIED);
    for workers in [1, 2, 4, 8, 64] {
        assert_copied_by_workers(rt, job, wanted, length, workers);
    }
    assert_copied_by_rounds(rt, job, wanted, length);
}

/// How long an epoch is, how many workers there are and how many messages a link holds change nothing.
#[test]
fn answers_are_the_same_by_any_epochs_and_line(rt: HostRuntime) {
    let job = job_of(&rt, &COPY_FOUR);
    let wanted = query_of(&rt, COPY);
    for length in 1..=13 {
        assert_copied_by_all(&rt, &job, &wanted, length);
    }
    assert_copied_by_all(&rt, &job, &wanted, 1_099_511_627_776);
}

/// A run of 4,097 steps by two each is cut into 2,049 epochs, and nothing crosses.
#[test]
fn thousands_of_epochs_are_followed(rt: HostRuntime) {
    let job = job_of(&rt, &COUNT_DOWN);
    let wanted = query_of(&rt, COPY);
    let line = Line {
        workers: 4,
        capacity: 256,
        ..ALONE
    };
    let found = answer_of(&rt, &OpenGate, &job, &wanted, 2, line);
    assert_text(&rt, &found.report, "end 0\n");
    assert!(rt; found.crossed.len() == 2048);
    assert!(rt; found.events == 12292);
    for crossing in &found.crossed {
        assert_crosses(&rt, crossing, 0);
    }
}

/// The report of the copy of 5,000 bytes: each comes from the one of its own offset.
fn assert_many_copied(rt: &impl Abort, report: &Report) {
    assert!(rt; report.lines() == 5000);
    for (row, offset) in report.rows().iter().zip(0..5000) {
        let sink = SinkByte { channel: 1, offset };
        let source = SourceByte { channel: 0, offset };
        assert!(rt; row.sink() == SinkPoint::Out(sink));
        assert!(rt; row.sources().single() == Some(source));
    }
}

/// Just this crosses a cut of that run before which so many bytes are copied: in the order in which they are written, these where
/// they are copied to, and the others where they are read to.
fn assert_many_cross(rt: &impl Abort, crossing: &Crossed, copied: u32) {
    assert!(rt; crossing.asked().len() == 5000);
    for (loc, i) in crossing.asked().iter().zip(0..5000u32) {
        let start = if i < copied { 0x13000u32 } else { 0x11000 };
        assert!(rt;
            *loc == Loc::Mem {
                place: start.saturating_add(i)
            }
        );
    }
}

/// Just these cross the cuts of that run by a thousand steps each: the first eight steps prepare, and then each byte takes five.
fn assert_many_crossed(rt: &impl Abort, crossed: &[Crossed]) {
    assert!(rt; crossed.len() == 25);
    for crossing in crossed {
        let copied = crossing.cut().saturating_mul(200).saturating_sub(1);
        assert_many_cross(rt, crossing, copied);
    }
}

// Each of these takes some seconds.

#[test]
fn a_long_run_is_analysed_as_a_whole(rt: HostRuntime) {
    let job = copy_many(&rt);
    let wanted = query_of(&rt, COPY);
    assert_many_copied(&rt, &sequential_report(&rt, &job, &wanted));
}

#[test]
fn a_long_run_is_joined(rt: HostRuntime) {
    let job = copy_many(&rt);
    let wanted = query_of(&rt, COPY);
    let report = joined_report(&rt, &job, &wanted, 1000);
    assert_many_copied(&rt, &report);
    assert!(rt; text(rt.alloc(), &report).expect(&rt, "memory").len() == 67789);
}

/// That run is followed by twenty-six epochs, by so many workers.
fn assert_many_by(rt: &impl Runtime, workers: u32) {
    let job = copy_many(rt);
    let wanted = query_of(rt, COPY);
    let line = Line {
        workers,
        capacity: 256,
    };
    let found = answer_of(rt, &OpenGate, &job, &wanted, 1000, line);
    assert_many_copied(rt, &found.report);
    assert!(rt; found.events == 880154);
    assert_many_crossed(rt, &found.crossed);
}

#[test]
fn a_long_run_is_followed_by_one_worker(rt: HostRuntime) {
    assert_many_by(&rt, 1);
}

#[test]
fn a_long_run_is_followed_by_three_workers(rt: HostRuntime) {
    assert_many_by(&rt, 3);
}

#[test]
fn a_long_run_is_followed_by_the_most_workers(rt: HostRuntime) {
    assert_many_by(&rt, 64);
}

/// Of the windows at the beginnings of its epochs the first has five pages. The two pages that are read to change once; those
/// that are copied to change at 21 cuts and at 5.
#[test]
fn pages_are_held_once(rt: HostRuntime) {
    let job = copy_many(&rt);
    assert!(rt; job.steps() == 25015);
    let points = Checkpoints::take(rt.alloc(), &job, &cuts_of(&rt, &job, 1000)).expect(
        &rt, "memory",
    );
    assert!(rt; points.held() == 33);
}

/// Of a window of 4,096 pages all but the program's change in each of sixteen epochs.
#[test]
fn more_than_65_536_pages_are_held(rt: HostRuntime) {
    let job = job_of(&rt, &FILL);
    let points = Checkpoints::take(rt.alloc(), &job, &cuts_of(&rt, &job, ROUND)).expect(
        &rt, "memory",
    );
    assert!(rt; points.held() == 4096 + 16 * 4095);
}
