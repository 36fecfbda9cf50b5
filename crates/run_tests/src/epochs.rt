//! A run whose epochs begin at checkpoints, and an epoch that is analysed by itself.

ghost use Rattle.std.specs.Prelude.{◌≡◌, ◌≤◌};
ghost use Rattle.log_model.specs.Logs.{end_at};

use crate::guests::{
    CALL_AND_EXIT, COPY_FOUR, COPY_IN_TWO, CUT_OFF, Recorded, Runtime, TRAP, copy_many, job_of,
    unchecked,
};
use answer_sets::{Answers, rows};
use checkpoints::Checkpoints;
use epoch_cut::laws::cut_times_are_cutting;
use epoch_cut::{EpochTicket, cuts};
use epoch_engine::{Joining, Parallelism};
use epoch_link::Capacity;
use epoch_summary::{Asked, Summary, TermsAhead};
use flow_model::{Loc, SinkByte, SinkPoint, SourceByte};
use local_taint::{analyse, analyse_ahead, analyse_last};
use log_model::RunEnd;
use merge_log::TermsReader;
use outer_io::OpenGate;
use query_lang::{Query, parse};
use replay_log::Log;
use replayer::{Checker, Cursor, Job, Next, steps_of};
use seq_taint::sequential;
use sink_collect::SinkSet;
use source_runs::SourceRun;
use std::process::Abort;

/// The numbers of the epochs' first steps and how many pages are held, where the copy of four bytes is cut by a length.
fn assert_beginnings(rt: &impl Runtime, length: u64, firsts: &[u64], held: u64)
    requires { 1 ≤ length }
{
    let alloc = rt.alloc();
    let job = job_of(rt, &COPY_FOUR);
    let cuts = cuts(job.steps(), length).expect(rt, "few epochs");
    cut_times_are_cutting();
    let points = Checkpoints::take(alloc, &job, &cuts).expect(rt, "memory");
    assert!(rt; points.held() == held);
    assert!(rt; cuts.count() as usize == firsts.len());
    for k in 0..cuts.count() {
        let Next::Step(step) = points.start(alloc, k).expect(rt, "memory").next() else {
            rt.abort()
        };
        assert!(rt; firsts.get(k as usize) == Some(&step.number));
    }
}

#[test]
fn epochs_begin_at_their_checkpoints(rt: HostRuntime) {
    assert_beginnings(&rt, 12, &[0], 1);
    assert_beginnings(&rt, 6, &[0, 6], 2);
    assert_beginnings(&rt, 5, &[0, 5, 10], 2);
    assert_beginnings(&rt, 4, &[0, 4, 8], 2);
}

/// The first of the buffer's bytes.
const BUFFER: u32 = 0x1_0100;

/// What an epoch's summary has for some locations at its end: runs of source bytes, and start locations.
const ENDS: [(Loc, &[SourceRun], &[Loc]); 2] = [
    (
        Loc::Mem { place: BUFFER },
        &[SourceRun {
            channel: 0,
            first: 0,
            last: 0,
        }],
        &[],
    ),
    (
        Loc::Reg { number: 5, lane: 0 },
        &[],
        &[Loc::Reg { number: 5, lane: 0 }],
    ),
];

/// The reader has read these.
fn assert_read(rt: &impl Abort, reader: &TermsReader, runs: &[SourceRun], starts: &[Loc]) {
    assert!(rt; reader.runs() == runs);
    assert!(rt; reader.starts() == starts);
}

/// A sink of the whole run's summary is a byte that is written, and comes from the one of its own offset that is read.
fn assert_sink(rt: &impl Runtime, summary: &Summary, reader: &mut TermsReader, offset: u32) {
    let byte = SinkByte { channel: 1, offset };
    let source = SourceRun::of_byte(SourceByte { channel: 0, offset });
    let at = offset as usize;
    assert!(rt; at < summary.sink_count());
    assert!(rt; summary.sink(at) == SinkPoint::Out(byte));
    summary.sink_terms(reader, at).expect(rt, "memory");
    assert_read(rt, reader, &[source], &[]);
    let mut ahead = TermsAhead::new(rt.alloc());
    summary
        .sink_terms_ahead(&mut ahead, reader, at)
        .expect(rt, "memory");
    assert_read(rt, reader, &[source], &[]);
}

/// The summary has these terms at the epoch's end.
fn assert_ends(rt: &impl Runtime, summary: &Summary, reader: &mut TermsReader) {
    for (loc, runs, starts) in ENDS {
        summary.end_terms(reader, loc).expect(rt, "memory");
        assert_read(rt, reader, runs, starts);
    }
}

/// The summary is that of the whole run.
fn assert_summary(rt: &impl Runtime, summary: &Summary) {
    let mut reader = TermsReader::new(rt.alloc());
    assert!(rt; summary.number() == 0);
    assert!(rt; summary.sink_count() == 4);
    for offset in 0..4 {
        assert_sink(rt, summary, &mut reader, offset);
    }
    assert_ends(rt, summary, &mut reader);
}

#[test]
fn an_epoch_is_analysed_by_itself(rt: HostRuntime) {
    let job = job_of(&rt, &COPY_FOUR);
    let query = parse(rt.alloc(), b"rule copy\nsource all\nsink all\n").expect(&rt, "a query");
    let summary = analysed(&rt, &job, &query);
    assert_summary(&rt, &summary);
}

/// The ticket of the one epoch of a run that has so many steps.
fn ticket_of(rt: &impl Runtime, steps: u64) -> EpochTicket {
    let cuts = cuts(steps, steps.max(1)).expect(rt, "few epochs");
    let mut tickets = cuts.tickets(rt.alloc()).expect(rt, "memory");
    match tickets.pop() {
        Some(ticket) => ticket,
        None => rt.abort(),
    }
}

/// The same summary where the epoch is analysed while the log is checked.
#[test]
fn an_epoch_is_analysed_while_it_is_checked(rt: HostRuntime) {
    let alloc = rt.alloc();
    let query = parse(alloc, b"rule copy\nsource all\nsink all\n").expect(&rt, "a query");
    let Recorded { program, log } = unchecked(&rt, &COPY_FOUR);
    let ticket = ticket_of(&rt, steps_of(&log));
    if ticket.first() != 0 || ticket.past_last() != steps_of(&log) {
        rt.abort()
    }
    let opened = Checker::open(alloc, &program.bytes, &program.image, &log);
    let checker = opened.expect(&rt, "a log of the program");
    let summary = analyse_last(alloc, ticket, checker, &query).expect(&rt, "a log that fits");
    assert_summary(&rt, &summary);
}

/// How many steps are done before the log's end is compared.
fn end_of(log: &Log) -> u64
    ensures { result ≡ end_at log.now.end }
{
    match log.end() {
        RunEnd::Exit { at, .. } => at,
        RunEnd::Trap { at, .. } => at,
        RunEnd::Limit { at } => at,
    }
}

/// The first of two epochs, which reads the bytes and writes none, is analysed while it is checked.
#[test]
fn an_epoch_before_the_last_is_analysed_while_it_is_checked(rt: HostRuntime) {
    let alloc = rt.alloc();
    let query = parse(alloc, b"rule copy\nsource all\nsink all\n").expect(&rt, "a query");
    let Recorded { program, log } = unchecked(&rt, &COPY_FOUR);
    let ticket = ticket_of(&rt, 6);
    if ticket.first() != 0 || ticket.past_last() != 6 || end_of(&log) < 6 {
        rt.abort()
    }
    let opened = Checker::open(alloc, &program.bytes, &program.image, &log);
    let checker = opened.expect(&rt, "a log of the program");
    let summary = analyse_ahead(alloc, ticket, checker, &query).expect(&rt, "a log that fits");
    let mut reader = TermsReader::new(alloc);
    assert!(rt; summary.sink_count() == 0);
    assert_ends(&rt, &summary, &mut reader);
}

/// The summary of a run with one epoch, which the analysis of that epoch finds.
fn analysed(rt: &impl Runtime, job: &Job, query: &Query) -> Summary {
    let alloc = rt.alloc();
    let ticket = ticket_of(rt, job.steps());
    if ticket.first() != 0 || ticket.past_last() > job.steps() {
        rt.abort()
    }
    let cursor = Cursor::start(alloc, job).expect(rt, "memory");
    analyse(alloc, ticket, cursor, query).expect(rt, "memory")
}

/// The rows that the analysis of that epoch comes to, which asks nothing.
fn rows_of_one(rt: &impl Runtime, job: &Job, query: &Query) -> Vec<SinkSet> {
    let alloc = rt.alloc();
    let summary = analysed(rt, job, query);
    let (asked, answers) = (Asked::new(alloc), Answers::new(alloc));
    let mut reader = TermsReader::new(alloc);
    rows(alloc, &mut reader, &summary, &asked, &answers).expect(rt, "memory")
}

/// Two rows are of one sink, and have the same source bytes.
fn assert_same_row(rt: &impl Abort, one: &SinkSet, other: &SinkSet) {
    assert!(rt; one.sink() == other.sink());
    assert!(rt; one.sources().equals(other.sources()));
}

/// A watcher of this run's steps comes to the rows that the analysis of its one epoch comes to: so many.
fn assert_watched(rt: &impl Runtime, job: &Job, query: &[u8], count: usize) {
    let alloc = rt.alloc();
    assert!(rt; query.len() <= 4096);
    let query = parse(alloc, query).expect(rt, "a query");
    let one = rows_of_one(rt, job, &query);
    let other = sequential(alloc, job, &query).expect(rt, "memory");
    assert!(rt; one.len() == count);
    assert!(rt; other.len() == count);
    for number in 0..count {
        assert_same_row(rt, &one[number], &other[number]);
    }
}

/// All bytes that are written, registers before the first step, after plain steps and after calls, memory after a read and at
/// the end, and a point past the end of the short runs.
const POINTS: &[u8] =
    b"rule compute\nsource all\nsink all\nsink reg 10 at 0\nsink reg 10 at 1\nsink reg 11 at 2\n\
sink reg 10 at 5\nsink reg 10 at 6\nsink mem 65792 4 at 6\nsink mem 65792 4 at 12\nsink reg 12 at 40\n";

#[test]
fn a_watcher_comes_to_the_rows_of_one_epoch(rt: HostRuntime) {
    assert_watched(&rt, &job_of(&rt, &COPY_FOUR), POINTS, 32);
    assert_watched(&rt, &job_of(&rt, &COPY_IN_TWO), POINTS, 33);
    assert_watched(&rt, &job_of(&rt, &CALL_AND_EXIT), POINTS, 12);
    assert_watched(&rt, &job_of(&rt, &CUT_OFF), POINTS, 16);
    assert_watched(&rt, &job_of(&rt, &TRAP), POINTS, 4);
    assert_watched(&rt, &copy_many(&rt), POINTS, 5032);
}

/// The rows of a run in epochs of a thousand steps, which one log joins, by so many workers.
fn joined_rows(rt: &impl Runtime, job: &Job, query: &Query, workers: u32) -> Vec<SinkSet> {
    let alloc = rt.alloc();
    assert!(rt; 1 <= workers);
    assert!(rt; workers <= 64);
    let parallelism = Parallelism {
        workers,
        joining: Joining::ByOneLog,
        link: Capacity::of(1),
    };
    job.form();
    cut_times_are_cutting();
    let cuts = cuts(job.steps(), 1000).expect(rt, "few epochs");
    let points = Checkpoints::take(alloc, job, &cuts).expect(rt, "memory");
    let sets = epoch_line::rows(rt, alloc, &OpenGate, &points, query, cuts, parallelism);
    sets.expect(rt, "memory").into_vec().expect(rt, "memory")
}

/// The rows of thousands of sinks are those of the whole run, in its order, by one worker, and where each makes a part of them.
#[test]
fn all_workers_make_the_rows_of_a_long_run(rt: HostRuntime) {
    let job = copy_many(&rt);
    let query = parse(rt.alloc(), POINTS).expect(&rt, "a query");
    let whole = sequential(rt.alloc(), &job, &query).expect(&rt, "memory");
    for workers in [1, 3, 4, 64] {
        let found = joined_rows(&rt, &job, &query, workers);
        assert!(rt; found.len() == 5032);
        assert!(rt; whole.len() == 5032);
        for number in 0..5032 {
            assert_same_row(&rt, &found[number], &whole[number]);
        }
    }
}
