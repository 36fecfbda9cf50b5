//! Core files of runs.

use crate::guests::{CALL_AND_EXIT, COPY_IN_TWO, Runtime, TRAP, job_of};
use core_file::{core_file, core_mark};
use replayer::Job;

/// Some bytes of a core file, by the offset of the first.
type Part<'a> = (usize, &'a [u8]);

/// Where the signal, the pc, x2, x10, the window and the byte at 0x10100 stand.
const SIGNAL: usize = 148;

const PC: usize = 208;

const X2: usize = 216;

const X10: usize = 248;

const WINDOW: usize = 340;

const READ: usize = 596;

/// The core file of a run in a window of one page has these parts after so many steps.
fn assert_core(rt: &impl Runtime, job: &Job, time: u64, parts: &[Part<'_>]) {
    let file = core_file(rt.alloc(), job, time).expect(rt, "memory");
    assert_eq!(rt; file.len(), 4436);
    assert!(rt; file.starts_with(core_mark()));
    for (at, bytes) in parts {
        let rest = file.get(*at..).unwrap_or(&[]);
        assert!(rt; rest.starts_with(bytes));
    }
}

#[test]
fn a_core_file_has_registers_and_window(rt: HostRuntime) {
    let job = job_of(&rt, &COPY_IN_TWO);
    let begun: [Part<'_>; 5] = [
        (SIGNAL, b"\x05\0"),
        (PC, b"\0\0\x01\0"),
        (X2, b"\xf0\x0f\x01\0"),
        (WINDOW, b"\xb7\x05\x01\0"),
        (READ, b"\0\0\0\0\0\0"),
    ];
    assert_core(&rt, &job, 0, &begun);
    let read: [Part<'_>; 4] = [
        (SIGNAL, b"\x05\0"),
        (PC, b"\x28\0\x01\0"),
        (X10, b"\x02\0\0\0\x03\x01\x01\0\x04\0\0\0"),
        (READ, b"ABCDE\0"),
    ];
    assert_core(&rt, &job, 10, &read);
}

#[test]
fn past_its_steps_a_run_stands_at_its_end(rt: HostRuntime) {
    let stopped: [Part<'_>; 2] = [(SIGNAL, b"\x05\0"), (PC, b"\x0c\0\x01\0")];
    assert_core(&rt, &job_of(&rt, &CALL_AND_EXIT), 3, &stopped);
    assert_core(&rt, &job_of(&rt, &CALL_AND_EXIT), 4, &stopped);
    let trapped: [Part<'_>; 2] = [(SIGNAL, b"\x05\0"), (PC, b"\0\0\x01\0")];
    assert_core(&rt, &job_of(&rt, &TRAP), 9, &trapped);
}
