//! Moves of a debugger over recorded runs: to a time, on and back, past breakpoints and watchpoints.

use crate::guests::{
    COMPARE_AND_LOOK_UP, COPY_FOUR, COUNT_DOWN, MASK_AND_SHIFT, Runtime, TRAP, job_of,
};
use crate::runs::cuts_of;
use checkpoints::Checkpoints;
use replayer::Job;
use run_travel::{Aim, Cause, Points, Travel, Watch, WatchKind};

/// Where a move ends, and why, as `told` says it.
type Ends = (u64, &'static str, u32);

/// What is asked for.
#[derive(Clone, Copy)]
enum Order {
    Break(u32),
    NoBreak(u32),
    Watch(WatchKind, u32, u32),
    NoWatch(WatchKind, u32, u32),
    On(Aim, Ends),
    StepBack(Ends),
    Back(Ends),
}

/// Why a move stopped, in a word, with the address of the watchpoint or the kind of the trap.
fn told(cause: Cause) -> (&'static str, u32) {
    match cause {
        Cause::Arrived => ("arrived", 0),
        Cause::Watched(watch) => ("watched", watch.place),
        Cause::End => ("end", 0),
        Cause::Trapped(kind) => ("trapped", kind),
        Cause::Beginning => ("beginning", 0),
    }
}

/// A move ended so.
fn assert_ends(rt: &impl Runtime, travel: &Travel<'_>, cause: Cause, ends: Ends) {
    let (word, number) = told(cause);
    assert_eq!(rt; travel.here().time(), ends.0);
    assert_eq!(rt; word, ends.1);
    assert_eq!(rt; number, ends.2);
}

/// Does what is asked for.
fn carry_out(rt: &impl Runtime, travel: &mut Travel<'_>, points: &mut Points, order: Order) {
    match order {
        Order::Break(pc) => points.set_break(pc).expect(rt, "memory"),
        Order::NoBreak(pc) => points.clear_break(pc),
        Order::Watch(kind, place, length) => {
            let watch = Watch {
                kind,
                place,
                length,
            };
            points.set_watch(watch).expect(rt, "memory");
        }
        Order::NoWatch(kind, place, length) => {
            let watch = Watch {
                kind,
                place,
                length,
            };
            points.clear_watch(watch);
        }
        Order::On(aim, ends) => {
            let cause = travel.go_on(points, aim);
            assert_ends(rt, travel, cause, ends);
        }
        Order::StepBack(ends) => {
            let cause = travel.step_back(points).expect(rt, "memory");
            assert_ends(rt, travel, cause, ends);
        }
        Order::Back(ends) => {
            let cause = travel.go_back(points).expect(rt, "memory");
            assert_ends(rt, travel, cause, ends);
        }
    }
}

/// Over the run of a job with a checkpoint after each so many steps, these orders have the moves end so.
fn assert_moves(rt: &impl Runtime, job: &Job, length: u64, orders: &[Order]) {
    let alloc = rt.alloc();
    let cuts = cuts_of(rt, job, length);
    let checkpoints = Checkpoints::take(alloc, job, &cuts).expect(rt, "memory");
    let mut travel = Travel::new(alloc, job, &checkpoints, &cuts).expect(rt, "memory");
    let mut points = Points::new(alloc);
    for order in orders {
        carry_out(rt, &mut travel, &mut points, *order);
    }
}

/// Past a read, back over it, and on by breakpoints, out of a range and to the end.
const DIALOGUE: [Order; 14] = [
    Order::Watch(WatchKind::Writes, 0x10102, 1),
    Order::Watch(WatchKind::Writes, 0x10102, 1),
    Order::On(Aim::Points, (6, "watched", 0x10102)),
    Order::StepBack((5, "watched", 0x10102)),
    Order::Back((0, "beginning", 0)),
    Order::StepBack((0, "beginning", 0)),
    Order::NoWatch(WatchKind::Writes, 0x10102, 1),
    Order::Break(0x10014),
    Order::On(
        Aim::Leave {
            from: 0x10000,
            past: 0x10014,
        },
        (5, "arrived", 0),
    ),
    Order::On(Aim::Points, (12, "end", 0)),
    Order::On(Aim::Step, (12, "end", 0)),
    Order::Back((5, "arrived", 0)),
    Order::StepBack((4, "arrived", 0)),
    Order::On(Aim::Step, (5, "arrived", 0)),
];

/// What is written is read, the first point that is set is told, and no point is set by clearing another.
const WRITTEN: [Order; 9] = [
    Order::Watch(WatchKind::Reads, 0x10103, 1),
    Order::Watch(WatchKind::Both, 0x10100, 4),
    Order::NoWatch(WatchKind::Writes, 0x10103, 1),
    Order::On(Aim::Points, (6, "watched", 0x10100)),
    Order::On(Aim::Points, (9, "watched", 0x10103)),
    Order::On(Aim::Points, (12, "end", 0)),
    Order::Back((8, "watched", 0x10103)),
    Order::Back((5, "watched", 0x10100)),
    Order::Back((0, "beginning", 0)),
];

#[test]
fn moves_over_a_copy(rt: HostRuntime) {
    let job = job_of(&rt, &COPY_FOUR);
    for length in [1, 5, 100] {
        assert_moves(&rt, &job, length, &DIALOGUE);
        assert_moves(&rt, &job, length, &WRITTEN);
    }
}

/// A store of two bytes is met at its last, by what watches writes, and not after it, nor by what watches reads.
const STORED: [Order; 5] = [
    Order::Watch(WatchKind::Writes, 0x10102, 2),
    Order::Watch(WatchKind::Reads, 0x10101, 1),
    Order::Watch(WatchKind::Writes, 0x10101, 4),
    Order::On(Aim::Points, (10, "watched", 0x10101)),
    Order::On(Aim::Points, (14, "watched", 0x10101)),
];

#[test]
fn a_store_is_met_by_its_bytes(rt: HostRuntime) {
    assert_moves(&rt, &job_of(&rt, &MASK_AND_SHIFT), 4, &STORED);
}

/// The trap is told where a move comes to it, and not where it stays there.
const TO_A_TRAP: [Order; 7] = [
    Order::Watch(WatchKind::Reads, 0x10101, 1),
    Order::Break(0x10030),
    Order::On(Aim::Points, (13, "watched", 0x10101)),
    Order::On(Aim::Points, (17, "trapped", 5)),
    Order::On(Aim::Points, (17, "end", 0)),
    Order::StepBack((16, "arrived", 0)),
    Order::Back((12, "watched", 0x10101)),
];

#[test]
fn a_trap_is_told_as_it_comes(rt: HostRuntime) {
    assert_moves(&rt, &job_of(&rt, &COMPARE_AND_LOOK_UP), 3, &TO_A_TRAP);
    let still = [
        Order::On(Aim::Step, (0, "end", 0)),
        Order::Back((0, "beginning", 0)),
    ];
    assert_moves(&rt, &job_of(&rt, &TRAP), 3, &still);
}

/// Back over many epochs, and from one stop to the one before.
const MANY: [Order; 9] = [
    Order::Break(0x10000),
    Order::On(Aim::Points, (4097, "end", 0)),
    Order::Back((0, "arrived", 0)),
    Order::On(Aim::Points, (4097, "end", 0)),
    Order::Break(0x10004),
    Order::Back((4093, "arrived", 0)),
    Order::Back((4091, "arrived", 0)),
    Order::NoBreak(0x10004),
    Order::Back((0, "arrived", 0)),
];

#[test]
fn moves_go_over_many_epochs(rt: HostRuntime) {
    let job = job_of(&rt, &COUNT_DOWN);
    assert_moves(&rt, &job, 10, &MANY);
    assert_moves(&rt, &job, 4097, &MANY);
}

/// To one time of a run, and then to another: x5 is as it is there.
fn assert_goes(rt: &impl Runtime, job: &Job, times: (u64, u64), x5: u32) {
    let alloc = rt.alloc();
    let (first, second) = times;
    assert!(rt; first <= job.steps());
    assert!(rt; second <= job.steps());
    let cuts = cuts_of(rt, job, 64);
    let checkpoints = Checkpoints::take(alloc, job, &cuts).expect(rt, "memory");
    let mut travel = Travel::new(alloc, job, &checkpoints, &cuts).expect(rt, "memory");
    travel.go_to(first).expect(rt, "memory");
    travel.go_to(second).expect(rt, "memory");
    assert_eq!(rt; travel.here().time(), second);
    assert_eq!(rt; travel.here().register(5), x5);
}

#[test]
fn a_time_is_reached_from_before_and_from_after(rt: HostRuntime) {
    let job = job_of(&rt, &COUNT_DOWN);
    for times in [
        (0, 1001),
        (1000, 1001),
        (900, 1001),
        (4097, 1001),
        (1001, 1001),
    ] {
        assert_goes(&rt, &job, times, 1547);
    }
    assert_goes(&rt, &job, (2000, 0), 0);
}
