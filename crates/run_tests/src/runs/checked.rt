//! Queries that are answered of the replay that checks the log.

ghost use Rattle.std.specs.Prelude.{IfOk, IfErr};
ghost use Rattle.log_model.specs.Logs.{steps};
ghost use Rattle.no_memory.specs.Faults.{IsCausedBy};
ghost use Rattle.epoch_model.specs.Cutting.{IsCutting};
ghost use Rattle.replayer.specs.Checks.{IsChecked, IsMisfit};
ghost use Rattle.epoch_engine.specs.Collecting.{AreAtBeginnings, AreRowsOf, IsCollectedOf};
ghost use Rattle.epoch_engine.specs.Texts.{AreTextsOf};

use super::{COPIED, COPY, assert_text, query_of, sequential_report};
use crate::guests::{COPY_FOUR, Recorded, Runtime, job_of, unchecked};
use checkpoints::Checkpoints;
use elf_image::Program;
use epoch_cut::laws::cut_times_are_cutting;
use epoch_cut::{Cuts, cuts};
use epoch_engine::{ClosureEngine, Collected, Joining, Parallelism};
use epoch_line::{checked_rows, rows, work};
use epoch_link::Capacity;
use memory_outside::{CountingGate, MeetingGate};
use no_memory::NoMemory;
use outer_io::Gate;
use query_lang::Query;
use replay_log::Log;
use replayer::{CheckFault, Job, steps_of};
use run_query::{Part, check_and_query};
use seq_taint::rows_are_distinct;
use sink_collect::{Report, SinkSet, SinkSets, gather, text, texts_at_once};

/// How many workers analyse the epochs, and how these are joined.
#[derive(Clone, Copy)]
struct Way {
    workers: u32,
    joining: Joining,
}

/// The report of a query over the copy of four bytes, found while its log was checked. Its epochs have so many steps.
fn checked_report<G: Gate>(
    rt: &impl Runtime,
    gate: &G,
    wanted: &Query,
    length: u64,
    way: Way,
) -> Report {
    let alloc = rt.alloc();
    let Way { workers, joining } = way;
    assert!(rt; 1 <= workers);
    assert!(rt; workers <= 64);
    assert!(rt; 1 <= length);
    let Recorded { program, log } = unchecked(rt, &COPY_FOUR);
    cut_times_are_cutting();
    let cuts = cuts(steps_of(&log), length).expect(rt, "few epochs");
    let line = ClosureEngine {
        gate,
        checked_rows: |program: Program, log: Log, query: &Query, cuts: Cuts, parallelism: Parallelism| -> Result<
            (Job, SinkSets),
            CheckFault,
        >
            requires cutting { IsCutting (steps log) cuts }
            ensures checked { IfOk result (λ r. IsChecked program.bytes.items program.image log r.0) }
            ensures rows { IfOk result (λ r. AreRowsOf query.entry.now r.0 r.1) }
            ensures fault { IfErr result (IsCausedBy (IsMisfit program.bytes.items program.image log)) }
        { checked_rows(rt, alloc, gate, program, log, query, cuts, parallelism) },
        rows: |checkpoints: &Checkpoints<
            '_,
        >, query: &Query, cuts: Cuts, parallelism: Parallelism| -> Result<SinkSets, NoMemory>
            requires { AreAtBeginnings cuts checkpoints.now }
            ensures { IfOk result (AreRowsOf query.entry.now checkpoints.entry.now.job) }
        { rows(rt, alloc, gate, checkpoints, query, cuts, parallelism) },
        work: |checkpoints: &Checkpoints<
            '_,
        >, query: &Query, cuts: Cuts, parallelism: Parallelism| -> Result<Collected, NoMemory>
            requires { AreAtBeginnings cuts checkpoints.now }
            ensures { IfOk result (IsCollectedOf query.entry.now checkpoints.entry.now.job cuts) }
        { work(rt, alloc, gate, checkpoints, query, cuts, parallelism) },
        texts: |rows: &[SinkSet], workers: u32| -> Result<Vec<Vec<u8>>, NoMemory>
            ensures { IfOk result (λ texts. AreTextsOf rows.entry.now texts.items) }
        { texts_at_once(rt, alloc, rows, workers) },
    };
    let parallelism = Parallelism {
        workers,
        joining,
        link: Capacity::of(1),
    };
    let part = Part::Whole(cuts);
    let checked = check_and_query(&line, alloc, program, log, wanted, part, parallelism);
    let (_job, report) = checked.expect(rt, "a log that fits");
    report
}

/// By epochs of so many steps, which are so many, a query has the report of the whole run, and each epoch enters the gate
/// once.
fn assert_checked(rt: &impl Runtime, query: &[u8], length: u64, epochs: u32, way: Way) {
    let alloc = rt.alloc();
    let job = job_of(rt, &COPY_FOUR);
    let wanted = query_of(rt, query);
    let gate = CountingGate::new(alloc, epochs).expect(rt, "memory");
    let found = checked_report(rt, &gate, &wanted, length, way);
    assert!(rt; gate.is_entered_by_each_once());
    let whole = text(alloc, &sequential_report(rt, &job, &wanted)).expect(rt, "memory");
    let lines = text(alloc, &found).expect(rt, "memory");
    assert!(rt; lines.as_slice() == whole.as_slice());
}

/// Queries with output bytes, with points before, at and after the calls, and with both.
const QUERIES: [&[u8]; 4] = [
    COPY,
    b"rule copy\nsource all\nsink reg 31 at 0\nsink mem 65792 2 at 5\nsink mem 65792 2 at 6\nsink reg 10 at 12\n",
    b"rule compute\nsource all\nsink all\nsink mem 65792 4 at 12\nsink mem 65792 4 at 13\n",
    b"rule index\nsource 0 1 2\nsink 1 0 3\nsink reg 10 at 6\nsink reg 10 at 7\n",
];

/// How many steps an epoch has, and how many epochs there are.
const LENGTHS: [(u64, u32); 5] = [(12, 1), (1_099_511_627_776, 1), (6, 2), (5, 3), (1, 12)];

/// A query has the report of the whole run by each length of an epoch.
fn assert_checked_by_all(rt: &impl Runtime, query: &[u8], way: Way) {
    for (length, epochs) in LENGTHS {
        assert_checked(rt, query, length, epochs, way);
    }
}

/// Each query has it by so many workers, joined so.
fn assert_all_checked(rt: &impl Runtime, workers: u32, joining: Joining) {
    for query in QUERIES {
        assert_checked_by_all(rt, query, Way { workers, joining });
    }
}

#[test]
fn a_run_has_its_report_while_its_log_is_checked(rt: HostRuntime) {
    assert_all_checked(&rt, 1, Joining::ByLinks);
    assert_all_checked(&rt, 2, Joining::ByLinks);
}

#[test]
fn one_log_joins_what_all_workers_found(rt: HostRuntime) {
    for workers in [1, 2, 4, 64] {
        assert_all_checked(&rt, workers, Joining::ByOneLog);
    }
}

/// With two workers, two epochs are in their analyses at once, before one log joins them.
#[test]
fn two_epochs_that_one_log_joins_are_at_work_at_once(rt: HostRuntime) {
    let wanted = query_of(&rt, COPY);
    let gate = MeetingGate::new(rt.alloc()).expect(&rt, "memory");
    let joining = Joining::ByOneLog;
    let way = Way {
        workers: 2,
        joining,
    };
    let found = checked_report(&rt, &gate, &wanted, 6, way);
    assert!(rt; gate.is_met());
    assert_text(&rt, &found, COPIED);
}

/// The only epoch of a run is analysed by the check, and enters the gate once.
#[test]
fn the_only_epoch_is_analysed_while_it_is_checked(rt: HostRuntime) {
    let alloc = rt.alloc();
    let wanted = query_of(&rt, COPY);
    let gate = CountingGate::new(alloc, 1).expect(&rt, "memory");
    let Recorded { program, log } = unchecked(&rt, &COPY_FOUR);
    cut_times_are_cutting();
    let cuts = cuts(steps_of(&log), 12).expect(&rt, "one epoch");
    let parallelism = Parallelism {
        workers: 1,
        joining: Joining::ByOneLog,
        link: Capacity::of(1),
    };
    let checked = checked_rows(&rt, alloc, &gate, program, log, &wanted, cuts, parallelism);
    let (job, rows) = checked.expect(&rt, "a log that fits");
    assert!(rt; gate.is_entered_by_each_once());
    rows_are_distinct(&job, &wanted);
    let found = gather(alloc, rows).expect(&rt, "memory");
    assert_text(&rt, &found, COPIED);
}
