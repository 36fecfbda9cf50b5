//! The calls in progress at times of runs, as text.

use crate::guests::{COPY_IN_TWO, Runtime, breaks_at, job_of};
use guest_assembler::{Instr, code};
use replayer::Job;
use run_output::{stack_text, stacks_text};

/// A run, by the steps before it comes to EBREAK and the pc there, and the text of where it stands at some times.
struct Case<'a> {
    code: &'a [Instr],
    steps: u32,
    pc: u32,
    stacks: &'a [(u64, &'a str)],
}

/// A function that calls itself once, and keeps x1 on the stack meanwhile.
const RECURSION: Case<'static> = Case {
    code: &code![
        li(x10, 1),
        jal(x1, 8),
        ebreak(),
        beq(x10, x0, 28),
        addi(x2, x2, -4),
        sw(x1, 0(x2)),
        addi(x10, x10, -1),
        jal(x1, -16),
        lw(x1, 0(x2)),
        addi(x2, x2, 4),
        jalr(x0, 0(x1)),
    ],
    steps: 12,
    pc: 0x10008,
    stacks: &[
        (0, "0x00010000\nend 1\n"),
        (1, "0x00010004\nend 1\n"),
        (2, "0x0001000c\n0x00010004\nend 2\n"),
        (6, "0x0001001c\n0x00010004\nend 2\n"),
        (7, "0x0001000c\n0x0001001c\n0x00010004\nend 3\n"),
        (8, "0x00010028\n0x0001001c\n0x00010004\nend 3\n"),
        (9, "0x00010020\n0x00010004\nend 2\n"),
        (11, "0x00010028\n0x00010004\nend 2\n"),
        (12, "0x00010008\nend 1\n"),
        (13, "end 0\n"),
        (1099511627776, "end 0\n"),
    ],
};

/// A function goes on to another by a jump, which returns for both.
const TAIL_CALL: Case<'static> = Case {
    code: &code![jal(x1, 8), ebreak(), jal(x0, 4), jalr(x0, 0(x1))],
    steps: 3,
    pc: 0x10004,
    stacks: &[
        (1, "0x00010008\n0x00010000\nend 2\n"),
        (2, "0x0001000c\n0x00010000\nend 2\n"),
        (3, "0x00010004\nend 1\n"),
    ],
};

/// Three calls deep, the innermost returns for all three to what the outermost kept, as longjmp does.
const LONG_RETURN: Case<'static> = Case {
    code: &code![
        jal(x1, 12),
        addi(x9, x9, 1),
        ebreak(),
        addi(x8, x1, 0),
        jal(x1, 8),
        ebreak(),
        jal(x1, 8),
        ebreak(),
        addi(x1, x8, 0),
        jalr(x0, 0(x1)),
    ],
    steps: 7,
    pc: 0x10008,
    stacks: &[
        (5, "0x00010024\n0x00010018\n0x00010010\n0x00010000\nend 4\n"),
        (6, "0x00010004\nend 1\n"),
        (7, "0x00010008\nend 1\n"),
    ],
};

/// A call by x5 returns by x5 to four bytes after its return address: it alone ends.
const RETURN_BEYOND: Case<'static> = Case {
    code: &code![
        jal(x1, 12),
        ebreak(),
        ebreak(),
        jal(x5, 12),
        ebreak(),
        jalr(x0, 0(x1)),
        jalr(x0, 4(x5)),
    ],
    steps: 4,
    pc: 0x10004,
    stacks: &[
        (2, "0x00010018\n0x0001000c\n0x00010000\nend 3\n"),
        (3, "0x00010014\n0x00010000\nend 2\n"),
        (4, "0x00010004\nend 1\n"),
    ],
};

/// Coroutines change over: each returns from the other's call, and calls it.
const COROUTINES: Case<'static> = Case {
    code: &code![
        jal(x5, 12),
        jalr(x5, 0(x1)),
        ebreak(),
        jalr(x1, 0(x5)),
        ebreak(),
    ],
    steps: 3,
    pc: 0x10010,
    stacks: &[
        (1, "0x0001000c\n0x00010000\nend 2\n"),
        (2, "0x00010004\n0x0001000c\nend 2\n"),
        (3, "0x00010010\n0x00010004\nend 2\n"),
    ],
};

/// A far call has x1 twice, and a return without a call ends none.
const FAR_CALL: Case<'static> = Case {
    code: &code![
        auipc(x1, 0),
        jalr(x1, 12(x1)),
        jalr(x0, 8(x1)),
        jalr(x0, 0(x1)),
        ebreak(),
    ],
    steps: 4,
    pc: 0x10010,
    stacks: &[
        (1, "0x00010004\nend 1\n"),
        (2, "0x0001000c\n0x00010004\nend 2\n"),
        (3, "0x00010008\nend 1\n"),
        (4, "0x00010010\nend 1\n"),
    ],
};

/// The texts of a tail call at times in no order, of which one stands twice and one is past the run's steps.
const SEVERAL: &str = "stack 2\n0x0001000c\n0x00010000\nend 2\n\
                       stack 4\nend 0\n\
                       stack 1\n0x00010008\n0x00010000\nend 2\n\
                       stack 2\n0x0001000c\n0x00010000\nend 2\n\
                       end 14\n";

/// The run of a case, as a job.
fn run_of(rt: &impl Runtime, case: &Case<'_>) -> Job {
    breaks_at(rt, case.code, case.steps, case.pc)
}

/// The run of a job stands so.
fn assert_stacks(rt: &impl Runtime, job: &Job, stacks: &[(u64, &str)]) {
    for (time, text) in stacks {
        let told = stack_text(rt.alloc(), job, *time).expect(rt, "memory");
        assert_eq!(rt; told.as_slice(), text.as_bytes());
    }
}

/// So does that of a case.
fn assert_case(rt: &impl Runtime, case: &Case<'_>) {
    let job = run_of(rt, case);
    assert_stacks(rt, &job, case.stacks);
}

#[test]
fn calls_in_progress_are_told_innermost_first(rt: HostRuntime) {
    for case in [
        &RECURSION,
        &TAIL_CALL,
        &LONG_RETURN,
        &RETURN_BEYOND,
        &COROUTINES,
        &FAR_CALL,
    ] {
        assert_case(&rt, case);
    }
}

/// After an exit the pc is that after its ECALL.
#[test]
fn a_run_that_exits_stands_after_its_last_call(rt: HostRuntime) {
    let job = job_of(&rt, &COPY_IN_TWO);
    let stacks = [
        (17, "0x00010044\nend 1\n"),
        (18, "0x00010048\nend 1\n"),
        (19, "end 0\n"),
    ];
    assert_stacks(&rt, &job, &stacks);
}

#[test]
fn the_texts_of_several_times_stand_in_their_order(rt: HostRuntime) {
    let alloc = rt.alloc();
    let job = run_of(&rt, &TAIL_CALL);
    let told = stacks_text(alloc, &job, &[2, 4, 1, 2]).expect(&rt, "memory");
    assert_eq!(rt; told.as_slice(), SEVERAL.as_bytes());
    let alone = stacks_text(alloc, &job, &[3]).expect(&rt, "memory");
    assert_eq!(rt; alone.as_slice(), "0x00010004\nend 1\n".as_bytes());
}
