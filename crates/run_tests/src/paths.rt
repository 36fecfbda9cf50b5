//! Paths over runs, as text.

ghost use Rattle.flow_model.specs.Ranges.{IsLocation};
ghost use Rattle.path_find.specs.Sinks.{HasLocation};

use crate::guests::{
    COPY_FOUR, COPY_IN_TWO, MASK_AND_SHIFT, Recorded, Runtime, copy_many, job_of, unchecked,
};
use flow_model::{InnerSink, Loc, Rule, SinkByte, SinkPoint, SourceByte};
use path_find::{Pair, answer, check_and_answer};
use replayer::Job;

/// The path of a source byte of channel 0 to a sink, by a rule, has this text.
fn assert_path_by(
    rt: &impl Runtime,
    job: &Job,
    rule: Rule,
    sink: SinkPoint,
    offset: u32,
    lines: &str,
)
    requires { HasLocation sink }
{
    let source = SourceByte { channel: 0, offset };
    let text = answer(rt.alloc(), job, rule, Some(Pair { sink, source })).expect(rt, "memory");
    assert_eq!(rt; text.as_slice(), lines.as_bytes());
}

/// The same, by copy.
fn assert_path(rt: &impl Runtime, job: &Job, sink: SinkPoint, offset: u32, lines: &str)
    requires { HasLocation sink }
{
    assert_path_by(rt, job, Rule::Copy, sink, offset, lines);
}

/// An output byte of channel 1.
fn output(offset: u32) -> SinkPoint
    ensures { HasLocation result }
{
    SinkPoint::Out(SinkByte { channel: 1, offset })
}

/// A point inside a run.
fn point(time: u64, loc: Loc) -> SinkPoint
    requires { IsLocation loc }
    ensures { HasLocation result }
{
    SinkPoint::At(InnerSink { time, loc })
}

#[test]
fn a_path_is_a_read_and_the_write_where_nothing_moves(rt: HostRuntime) {
    let job = job_of(&rt, &COPY_IN_TWO);
    let moved = "read 9 0x00010024 0:4 m:65796\nwrite 14 0x00010038 m:65796 1:4\nend 2\n";
    assert_path(&rt, &job, output(4), 4, moved);
    assert_path(&rt, &job, output(3), 4, "end 0\n");
    assert_path(&rt, &job, output(5), 4, "end 0\n");
    let none = answer(rt.alloc(), &job, Rule::Copy, None).expect(&rt, "memory");
    assert_eq!(rt; none.as_slice(), b"end 0\n".as_slice());
}

/// The replay that checks a log finds the path of a pair that is known before.
#[test]
fn a_path_is_found_while_the_log_is_checked(rt: HostRuntime) {
    let Recorded { program, log } = unchecked(&rt, &COPY_FOUR);
    let pair = Pair {
        sink: output(2),
        source: SourceByte {
            channel: 0,
            offset: 2,
        },
    };
    let found = check_and_answer(rt.alloc(), program, log, Rule::Copy, pair);
    let (_job, text) = found.expect(&rt, "a log that fits");
    let moved = "read 5 0x00010014 0:2 m:65794\nwrite 8 0x00010020 m:65794 1:2\nend 2\n";
    assert_eq!(rt; text.as_slice(), moved.as_bytes());
}

/// At the end of the run, after its exit, the pc is behind the exit's ECALL.
#[test]
fn a_path_to_a_point_ends_at_its_time(rt: HostRuntime) {
    let job = job_of(&rt, &COPY_IN_TWO);
    let place = Loc::Mem { place: 65792 };
    let last = "read 5 0x00010014 0:0 m:65792\npoint 18 0x00010048 m:65792 m:65792@18\nend 2\n";
    assert_path(&rt, &job, point(18, place), 0, last);
    assert_path(&rt, &job, point(5, place), 0, "end 0\n");
    assert_path(&rt, &job, point(19, place), 0, "end 0\n");
}

#[test]
fn a_path_has_a_hop_for_each_step_that_moves(rt: HostRuntime) {
    let job = copy_many(&rt);
    let lines = "read 5 0x00010014 0:4999 m:74631\n\
        hop 25003 0x00010020 m:74631 r:28.0 lbu x28, 0(x11)\n\
        hop 25004 0x00010024 r:28.0 m:82823 sb x28, 0(x6)\n\
        write 25011 0x00010040 m:82823 1:4999\n\
        end 4\n";
    assert_path(&rt, &job, output(4999), 4999, lines);
    let lane = Loc::Reg {
        number: 28,
        lane: 0,
    };
    let there = "read 5 0x00010014 0:4999 m:74631\n\
        hop 25003 0x00010020 m:74631 r:28.0 lbu x28, 0(x11)\n\
        point 25004 0x00010024 r:28.0 r:28.0@25004\n\
        end 3\n";
    assert_path(&rt, &job, point(25004, lane), 4999, there);
}

#[test]
fn by_keep_a_path_goes_through_masks_and_shifts(rt: HostRuntime) {
    let job = job_of(&rt, &MASK_AND_SHIFT);
    let lines = "read 5 0x00010014 0:0 m:65792\n\
        hop 6 0x00010018 m:65792 r:5.0 lbu x5, 0(x11)\n\
        hop 7 0x0001001c r:5.0 r:6.0 andi x6, x5, 255\n\
        hop 8 0x00010020 r:6.0 r:6.1 slli x6, x6, 8\n\
        hop 9 0x00010024 r:6.1 m:65793 sh x6, 0(x11)\n\
        write 13 0x00010034 m:65793 1:1\n\
        end 6\n";
    assert_path_by(&rt, &job, Rule::Keep, output(1), 0, lines);
    assert_path_by(&rt, &job, Rule::Keep, output(0), 0, "end 0\n");
    assert_path(&rt, &job, output(1), 0, "end 0\n");
}
