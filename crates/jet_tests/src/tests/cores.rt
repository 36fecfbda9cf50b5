//! Core files of runs.

use super::guests::COPY_CODE;
use super::record::assert_file;
use super::runs::{COPIES, CORE};
use super::{COPY, Ending, Line, NEVER, Runtime, assert_ends, log_of, program, store_with};
use command_parts::read_file;
use memory_outside::MemoryStore;

/// Past the run's twelve steps.
const PAST: Line = "jet core prog log 1099511627776 core";

/// What stands before the signal: the headers, the note's name, and the first field of its descriptor, for a window of one page at
/// 0x10000.
const HEAD: &[u8] =
    b"\x7fELF\x01\x01\x01\0\0\0\0\0\0\0\0\0\x04\0\xf3\0\x01\0\0\0\0\0\0\0\x34\0\0\0\0\0\0\0\0\0\0\0\
    \x34\0\x20\0\x02\0\0\0\0\0\0\0\x04\0\0\0\x74\0\0\0\0\0\0\0\0\0\0\0\xe0\0\0\0\0\0\0\0\x04\0\0\0\x04\0\0\0\
    \x01\0\0\0\x54\x01\0\0\0\0\x01\0\0\0\x01\0\0\x10\0\0\0\x10\0\0\x07\0\0\0\x01\0\0\0\
    \x05\0\0\0\xcc\0\0\0\x01\0\0\0CORE\0\0\0\0\0\0\0\0\0\0\0\0\0\0\0\0";

/// A store of the copy's files, of which the call of this number fails.
fn store(rt: &impl Runtime, program: &[u8], failing: u64) -> MemoryStore {
    let log = log_of(rt, program, 1, 1, COPIES);
    store_with(rt, program, &log, COPY.as_bytes(), failing, 65536, 10000)
}

/// The core file that these words make of the copy.
fn core_of(rt: &impl Runtime, line: Line, program: &[u8]) -> Vec<u8> {
    let mut store = store(rt, program, NEVER);
    assert_ends(rt, line, &mut store, Ending::report(""));
    assert_file(rt, &mut store, "prog", Some(program));
    read_file(rt.alloc(), &mut store, "core").unwrap_or(Vec::new(rt.alloc()))
}

/// Whether these bytes stand there.
fn has(core: &[u8], at: usize, bytes: &[u8]) -> bool {
    core.get(at..).unwrap_or(&[]).starts_with(bytes)
}

/// After its last step the copy's pc is behind the exit's ECALL.
#[test]
fn a_core_file_has_head_registers_and_window(rt: HostRuntime) {
    let program = program(&rt, COPY_CODE);
    let core = core_of(&rt, CORE, &program);
    assert_eq!(rt; core.len(), 4436);
    assert!(rt; core.starts_with(HEAD));
    // SIGTRAP, the pc, and the bytes where they were read.
    assert!(rt; has(&core, 148, b"\x05\0"));
    assert!(rt; has(&core, 208, b"\x30\0\x01\0"));
    assert!(rt; has(&core, 596, b"ABCD"));
    assert!(rt; core_of(&rt, PAST, &program) == core);
}

/// Two files are read in three calls each; the core file is created, put and finished. Each of these calls fails once.
#[test]
fn a_failing_store_leaves_no_core_file(rt: HostRuntime) {
    let program = program(&rt, COPY_CODE);
    for call in 0..9 {
        let ending = if call < 6 {
            Ending::of(7, "jet: read fault\n")
        } else {
            Ending::of(8, "jet: write fault\n")
        };
        let mut store = store(&rt, &program, call);
        assert_ends(&rt, CORE, &mut store, ending);
        assert_file(&rt, &mut store, "core", None);
        assert_file(&rt, &mut store, "prog", Some(&program));
    }
}
