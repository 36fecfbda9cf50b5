//! Pages of queries.

use super::guests::COPY_CODE;
use super::record::assert_file;
use super::runs::{COPIES, PAGE};
use super::{COPY, Ending, Line, NEVER, Runtime, assert_ends, log_of, program, push, store_with};
use command_parts::read_file;
use memory_outside::MemoryStore;
use page_text::{push_head, push_tail};
use sha2::{Digest, Sha256};

/// The words with one step in each epoch, many workers and the smallest links.
const BY_STEPS: Line = "jet page prog log query page --epoch 1 --workers 8 --link 1";

/// What the data of the four-byte copy's page has before the program's digest: the first row, and three that go on.
const ROWS: &str = "jet page 1\nrows\n1:0 0:0-1\n+++program ";

/// What it has after that.
const TOLD: &str =
    "\nsteps 12\ncalls 2\nread 4\nwritten 4\nend exit 0\nrule copy\npoints 0\nsources 0:0-4\n\
    in 0 QUJDRA==\nin 1 \nin 2 \nin 3 \nin 4 \nin 5 \nin 6 \nin 7 \n\
    in 8 \nin 9 \nin 10 \nin 11 \nin 12 \nin 13 \nin 14 \nin 15 \n\
    out 0 \nout 1 QUJDRA==\nout 2 \nout 3 \nout 4 \nout 5 \nout 6 \nout 7 \n\
    out 8 \nout 9 \nout 10 \nout 11 \nout 12 \nout 13 \nout 14 \nout 15 \n\
    r 0 4 5\nw 1 4 8\nend 4\n";

/// The page of the copy by this program.
fn page_of(rt: &impl Runtime, program: &[u8]) -> Vec<u8> {
    let mut digits = [0; 64];
    let digest = Sha256::digest(program);
    let _ = hex::encode_to_slice(digest.as_slice(), &mut digits);
    let mut page = Vec::new(rt.alloc());
    push_head(&mut page).expect(rt, "memory");
    push(rt, &mut page, ROWS.as_bytes());
    push(rt, &mut page, &digits);
    push(rt, &mut page, TOLD.as_bytes());
    push_tail(&mut page).expect(rt, "memory");
    page
}

/// A store of the copy's files, of which the call of this number fails.
fn store(rt: &impl Runtime, program: &[u8], failing: u64) -> MemoryStore {
    let log = log_of(rt, program, 1, 1, COPIES);
    store_with(rt, program, &log, COPY.as_bytes(), failing, 65536, 70000)
}

/// The command of these words ends so over the copy's files, of which this call fails. Then there is this page, or
/// none.
fn assert_page(
    rt: &impl Runtime,
    line: Line,
    program: &[u8],
    call: u64,
    ending: Ending<'_>,
    page: Option<&[u8]>,
) {
    let mut store = store(rt, program, call);
    assert_ends(rt, line, &mut store, ending);
    // A call that never came fails now.
    let _ = read_file(rt.alloc(), &mut store, "query");
    assert_file(rt, &mut store, "page", page);
    assert_file(rt, &mut store, "prog", Some(program));
    assert_file(rt, &mut store, "query", Some(COPY.as_bytes()));
}

#[test]
fn a_page_is_its_data_between_two_texts(rt: HostRuntime) {
    let program = program(&rt, COPY_CODE);
    let page = page_of(&rt, &program);
    let made = Ending::report("");
    for line in [PAGE, BY_STEPS] {
        assert_page(&rt, line, &program, NEVER, made, Some(page.as_slice()));
    }
}

/// Three files are read in three calls each; the page is created, put and finished. Each of these calls fails once.
#[test]
fn a_failing_store_leaves_no_page(rt: HostRuntime) {
    let program = program(&rt, COPY_CODE);
    let unread = Ending::of(7, "jet: read fault\n");
    for call in 0..9 {
        assert_page(&rt, PAGE, &program, call, unread, None);
    }
    let unwritten = Ending::of(8, "jet: write fault\n");
    for call in 9..12 {
        assert_page(&rt, PAGE, &program, call, unwritten, None);
    }
}
