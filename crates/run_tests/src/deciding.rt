//! The decisions of runs, as text. The expected lines were worked by hand.

use crate::guests::{
    ASK_BY_INPUT, CIPHER, COMPARE_AND_LOOK_UP, RUN_WHAT_IS_READ, Recorded, Runtime,
    TRAP_IN_WHAT_IS_READ, job_of, unchecked,
};
use crate::runs::query_of;
use decision_find::{check_and_decide, decisions};
use replayer::Job;

const COMPUTE: &[u8] = b"rule compute\nsource all\n";

/// The decisions of a run by a query have this text.
fn assert_decisions(rt: &impl Runtime, job: &Job, query: &[u8], lines: &str) {
    let query = query_of(rt, query);
    let text = decisions(rt.alloc(), job, &query).expect(rt, "memory");
    assert_eq!(rt; text.as_slice(), lines.as_bytes());
}

/// Neither the path nor an address comes from the key or the message.
#[test]
fn a_cipher_decides_nothing(rt: HostRuntime) {
    let job = job_of(&rt, &CIPHER);
    assert_decisions(&rt, &job, COMPUTE, "end 0\n");
    assert_decisions(&rt, &job, b"rule copy\nsource 0 0 4\n", "end 0\n");
}

/// Each key byte is compared with 0, and the second is the address of a load, which traps.
#[test]
fn a_comparison_and_a_look_up_decide(rt: HostRuntime) {
    let job = job_of(&rt, &COMPARE_AND_LOOK_UP);
    let both = "0x00010020 beq r:5.0 2 8 0:0-2\n0x00010030 lbu r:5.0 1 17 0:1-2\nend 2\n";
    assert_decisions(&rt, &job, COMPUTE, both);
    assert_decisions(&rt, &job, b"rule copy\nsource all\n", both);
    let compared = "0x00010020 beq r:5.0 2 8 0:0-2\nend 1\n";
    assert_decisions(&rt, &job, b"rule index\nsource all\n", compared);
    let second = "0x00010020 beq r:5.0 1 13 0:1-2\n0x00010030 lbu r:5.0 1 17 0:1-2\nend 2\n";
    assert_decisions(&rt, &job, b"rule compute\nsource 0 1 2\n", second);
    assert_decisions(&rt, &job, b"rule compute\nsource 1\n", "end 0\n");
}

/// The replay that checks a log counts the decisions too, also that of the instruction that traps.
#[test]
fn decisions_are_counted_while_the_log_is_checked(rt: HostRuntime) {
    let Recorded { program, log } = unchecked(&rt, &COMPARE_AND_LOOK_UP);
    let query = query_of(&rt, COMPUTE);
    let (_job, text) = check_and_decide(rt.alloc(), program, log, &query).expect(
        &rt,
        "a log that fits",
    );
    let both = "0x00010020 beq r:5.0 2 8 0:0-2\n0x00010030 lbu r:5.0 1 17 0:1-2\nend 2\n";
    assert_eq!(rt; text.as_slice(), both.as_bytes());
}

/// The length of a read, and the exit's code, were read.
#[test]
fn what_a_call_asks_decides(rt: HostRuntime) {
    let job = job_of(&rt, &ASK_BY_INPUT);
    let asked = "0x00010020 ecall r:12.0 1 8 0:0-1\n0x0001002c ecall r:10.0 1 11 0:0-1\nend 2\n";
    assert_decisions(&rt, &job, COMPUTE, asked);
}

/// The bytes of an instruction decide, also where they stand for none.
#[test]
fn what_is_run_decides(rt: HostRuntime) {
    let run = job_of(&rt, &RUN_WHAT_IS_READ);
    let bytes = "0x00010018 addi m:65560 1 6 0:0-1\n0x00010018 addi m:65561 1 6 0:1-2\n\
        0x00010018 addi m:65562 1 6 0:2-3\n0x00010018 addi m:65563 1 6 0:3-4\nend 4\n";
    assert_decisions(&rt, &run, COMPUTE, bytes);
    let illegal = job_of(&rt, &TRAP_IN_WHAT_IS_READ);
    let word = "0x00010018 .word m:65560 1 6 0:0-1\n0x00010018 .word m:65561 1 6 0:1-2\n\
        0x00010018 .word m:65562 1 6 0:2-3\n0x00010018 .word m:65563 1 6 0:3-4\nend 4\n";
    assert_decisions(&rt, &illegal, COMPUTE, word);
}
