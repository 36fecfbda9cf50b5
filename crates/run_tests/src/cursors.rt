//! A cursor that is saved, and made again of what was saved.

ghost use Rattle.std.specs.Prelude.{◌≡◌};

use crate::guests::{COPY_IN_TWO, Runtime, job_of};
use crate::runs::cuts_of;
use checkpoints::Checkpoints;
use isa::Instr;
use replayer::{Cursor, CursorState, Job, Next};
use rv_decode::encode;
use std::process::Abort;

/// The word of an instruction that a run made.
fn word_of(rt: &impl Abort, instr: &Instr) -> u32 {
    assert!(rt; instr.fits());
    encode(instr)
}

/// Both go on alike to the run's end, which comes after so many steps.
fn assert_alike(rt: &impl Abort, first: &mut Cursor<'_>, second: &mut Cursor<'_>, steps: u64) {
    for _ in 0..steps {
        let (Next::Step(one), Next::Step(other)) = (first.next(), second.next()) else {
            rt.abort()
        };
        assert!(rt; one.number == other.number && one.place == other.place);
        assert!(rt; one.call == other.call);
        assert_eq!(rt; word_of(rt, &one.instr), word_of(rt, &other.instr));
    }
    let (Next::End(one), Next::End(other)) = (first.next(), second.next()) else {
        rt.abort()
    };
    assert!(rt; one == other);
}

/// The cursor of a job's state that was taken apart and put together.
fn again<'a>(rt: &impl Runtime, cursor: &Cursor<'a>, job: &'a Job) -> Cursor<'a>
    requires { cursor.now.job ≡ job.now }
    ensures { result ≡ cursor.now }
{
    let saved = cursor.save(rt.alloc()).expect(rt, "memory");
    let (window, rest) = saved.apart();
    Cursor::from(job, CursorState::whole(window, rest))
}

/// The cursor at the beginning of an epoch goes on as the one that is made of what it saves.
fn assert_goes_on(rt: &impl Runtime, job: &Job, number: u32) {
    let alloc = rt.alloc();
    let cuts = cuts_of(rt, job, 1);
    let points = Checkpoints::take(alloc, job, &cuts).expect(rt, "memory");
    assert!(rt; number < cuts.count());
    let mut cursor = points.start(alloc, number).expect(rt, "memory");
    let mut other = again(rt, &cursor, job);
    if number % 2 == 1 {
        other.keep_decoded(alloc).expect(rt, "memory");
    }
    let left = job.steps().saturating_sub(cursor.time());
    assert_alike(rt, &mut cursor, &mut other, left);
}

/// At each time a cursor is the one that is made of what it saves.
#[test]
fn a_saved_cursor_goes_on_alike(rt: HostRuntime) {
    let job = job_of(&rt, &COPY_IN_TWO);
    for number in 0..18 {
        assert_goes_on(&rt, &job, number);
    }
}
