//! A check that goes on a stretch at a time, and from a copy of its state.

ghost use Rattle.std.specs.Prelude.{◌≡◌};
ghost use Rattle.log_model.specs.Logs.{end_at};

use elf_image::Program;
use guest_assembler::{Instr, code, program};
use log_model::RunEnd;
use no_memory::Fault;
use replay_log::{Log, read_log};
use replayer::{Checker, Divergence, Job, Misfit, Nobody};
use sha2::{Digest, Sha256};
use std::process::Abort;

/// Counts down from three and exits: nine steps, of which the last is the exit.
const COUNT_DOWN: [Instr; 5] = code![
    li(x5, 3),
    addi(x5, x5, -1),
    bne(x5, x0, -4),
    li(x17, 93),
    ecall(),
];

/// What the log of its run has behind the program's digest, and one with another code of the exit.
const FITS: &[u8] = b"\x01\0\0\0\x01\0\0\0\x05\x08\0\0\0\0\0\0\0";

const DIFFERS: &[u8] = b"\x01\0\0\0\x01\0\0\0\x05\x08\0\0\0\x01\0\0\0";

/// A program, and a log of it.
#[derive(Drop)]
struct Recorded {
    program: Program,
    log: Log,
}

/// The program with a log that has these bytes behind the program's digest.
fn recording(rt: &(impl AllocGlobal + Abort), rest: &[u8]) -> Recorded {
    let alloc = rt.alloc();
    let file = program(alloc, &COUNT_DOWN).expect(rt, "a program");
    let mut bytes = Vec::new(alloc);
    bytes.extend_from_slice(b"JETLOG1\n").expect(rt, "memory");
    bytes
        .extend_from_slice(&Sha256::digest(&file))
        .expect(rt, "memory");
    bytes.extend_from_slice(rest).expect(rt, "memory");
    assert!(rt; bytes.len() <= 64);
    let log = read_log(alloc, &bytes).expect(rt, "a log");
    let program = Program::load(alloc, file).expect(rt, "an image");
    Recorded { program, log }
}

/// How many steps are done before the log's end is compared.
fn end_of(log: &Log) -> u64
    ensures { result ≡ end_at log.now.end }
{
    match log.end() {
        RunEnd::Exit { at, .. } => at,
        RunEnd::Trap { at, .. } => at,
        RunEnd::Limit { at } => at,
    }
}

/// Whether nothing differs up to a time.
fn agrees_to(rt: &(impl AllocGlobal + Abort), rest: &[u8], time: u64) -> bool {
    let Recorded { program, log } = recording(rt, rest);
    let Program { bytes, image } = program;
    assert!(rt; time <= end_of(&log));
    let opened = Checker::open(rt.alloc(), &bytes, &image, &log);
    let checker = opened.expect(rt, "a log of the program");
    checker.go_to(time, &mut Nobody).is_ok()
}

/// The first difference that a check finds which goes on from a copy of the state at the beginning.
fn difference_from_a_copy(rt: &(impl AllocGlobal + Abort), rest: &[u8]) -> Option<Divergence> {
    let alloc = rt.alloc();
    let Recorded { program, log } = recording(rt, rest);
    let Program { bytes, image } = program;
    let opened = Checker::open(alloc, &bytes, &image, &log);
    let checker = opened.expect(rt, "a log of the program");
    let state = checker.state(alloc).expect(rt, "memory");
    let again = Checker::resume(alloc, &log, state).expect(rt, "memory");
    again.finish(&mut Nobody).err()
}

/// The same, found by one check.
fn difference(rt: &(impl AllocGlobal + Abort), rest: &[u8]) -> Option<Divergence> {
    let Recorded { program, log } = recording(rt, rest);
    let Program { bytes, image } = program;
    match Job::check(rt.alloc(), &bytes, image, log) {
        Ok(_) => None,
        Err(Fault::At(Misfit::Diverged(divergence))) => Some(divergence),
        Err(_) => rt.abort(),
    }
}

#[test]
fn a_check_goes_on_to_each_time(rt: HostRuntime) {
    for time in 0..9 {
        assert!(rt; agrees_to(&rt, FITS, time));
        assert!(rt; agrees_to(&rt, DIFFERS, time));
    }
}

#[test]
fn a_check_from_a_copy_finds_the_same(rt: HostRuntime) {
    assert!(rt; difference_from_a_copy(&rt, FITS).is_none());
    let found = difference_from_a_copy(&rt, DIFFERS).expect(&rt, "a difference");
    let whole = difference(&rt, DIFFERS).expect(&rt, "a difference");
    assert!(rt; found == whole);
}
