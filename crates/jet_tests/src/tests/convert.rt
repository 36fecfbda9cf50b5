//! Logs that are converted, and what they tell afterwards.

use super::record::{FOUR, Recording, assert_file};
use super::runs::{CONVERT, COPIES};
use super::{
    COPY, Ending, Line, NEVER, Runtime, assert_ends, copied, log_of, program, store_with,
    wide_log_of,
};
use command_parts::read_file;
use memory_outside::MemoryStore;

const AGAIN: Line = "jet convert prog new again";

const QUERY_NEW: Line = "jet query prog new query";

/// The log `new` is this one, the query tells the same of it, and it is what it is converted to.
fn assert_new(rt: &impl Runtime, store: &mut MemoryStore, log: &[u8], report: &str) {
    assert_ends(rt, CONVERT, store, Ending::report(""));
    assert_file(rt, store, "new", Some(log));
    assert_ends(rt, QUERY_NEW, store, Ending::report(report));
    assert_ends(rt, AGAIN, store, Ending::report(""));
    assert_file(rt, store, "again", Some(log));
}

/// The run's log in this store is converted to what its recording writes.
fn assert_converted(
    rt: &impl Runtime,
    recording: &Recording,
    store: &mut MemoryStore,
    program: &[u8],
) {
    let wide = recording.log(rt, program);
    assert_new(rt, store, &wide, recording.report);
}

/// The run's log in version 1 is converted to what its recording writes.
pub fn assert_conversion(rt: &impl Runtime, recording: &Recording) {
    let program = program(rt, recording.code);
    let inputs = u32::try_from(recording.channels.len()).unwrap_or(0);
    let log = log_of(rt, &program, recording.pages, inputs, recording.entries);
    let mut store = store_with(
        rt,
        &program,
        &log,
        recording.query.as_bytes(),
        NEVER,
        65536,
        1000,
    );
    assert_converted(rt, recording, &mut store, &program);
}

/// The other files are as before, and the new log has these bytes or isn't there.
fn assert_files(
    rt: &impl Runtime,
    store: &mut MemoryStore,
    program: &[u8],
    log: &[u8],
    new: Option<&[u8]>,
) {
    assert_file(rt, store, "new", new);
    assert_file(rt, store, "prog", Some(program));
    assert_file(rt, store, "log", Some(log));
    assert_file(rt, store, "query", Some(COPY.as_bytes()));
}

/// A conversion over this store, of which this call fails.
fn assert_call_fails(
    rt: &impl Runtime,
    store: &mut MemoryStore,
    program: &[u8],
    log: &[u8],
    wide: &[u8],
    call: u64,
) {
    let (ending, new) = if call < 29 {
        (Ending::of(7, "jet: read fault\n"), None)
    } else if call < 44 {
        (Ending::of(8, "jet: write fault\n"), None)
    } else {
        (Ending::report(""), Some(wide))
    };
    assert_ends(rt, CONVERT, store, ending);
    // A call that never came fails now.
    let _ = read_file(rt.alloc(), store, "query");
    assert_files(rt, store, program, log, new);
}

/// A conversion over a store of which this call fails.
fn assert_failing_call(rt: &impl Runtime, program: &[u8], log: &[u8], wide: &[u8], call: u64) {
    let mut store = store_with(rt, program, log, COPY.as_bytes(), call, 10, 1000);
    assert_call_fails(rt, &mut store, program, log, wide, call);
}

/// The program is read in 16 calls of ten bytes and the log in 13; the new log is created, put in 13 pieces, and finished.
/// Each of these calls fails once, and then no file differs.
#[test]
fn a_failing_store_leaves_the_files(rt: HostRuntime) {
    let (program, log) = copied(&rt);
    let wide = wide_log_of(&rt, &program, 1, FOUR, COPIES);
    for call in 0..45 {
        assert_failing_call(&rt, &program, &log, &wide, call);
    }
}
