//! Pages of queries over runs.

use crate::guests::{COPY_FOUR, Runtime, job_of};
use crate::runs::query_of;
use page_data::{page, sources_of};
use page_text::{push_head, push_tail};
use seq_taint::sequential;
use sink_collect::{SinkSets, gather};

/// What a page of the copy of four bytes has of its rows: the output bytes go on from the first, and the points too.
const ROWS: &str = "jet page 1\nrows\n1:0 0:0-1\n+++m:65792@8 0:0-1\n+";

/// What it tells beside them, after the program's digest.
const TOLD: &str =
    "steps 12\ncalls 2\nread 4\nwritten 4\nend exit 0\nrule copy\npoints 2\nsources 0:0-4\n\
    in 0 QUJDRA==\nin 1 \nin 2 \nin 3 \nin 4 \nin 5 \nin 6 \nin 7 \n\
    in 8 \nin 9 \nin 10 \nin 11 \nin 12 \nin 13 \nin 14 \nin 15 \n\
    out 0 \nout 1 QUJDRA==\nout 2 \nout 3 \nout 4 \nout 5 \nout 6 \nout 7 \n\
    out 8 \nout 9 \nout 10 \nout 11 \nout 12 \nout 13 \nout 14 \nout 15 \n\
    r 0 4 5\nw 1 4 8\nend 6\n";

/// The page with these rows, this digest of the program, and what is told beside them.
fn page_of(rt: &impl Runtime, rows: &str, digest: [u8; 32], told: &str) -> Vec<u8> {
    let mut digits = [0; 64];
    let _ = hex::encode_to_slice(digest.as_slice(), &mut digits);
    let mut text = Vec::new(rt.alloc());
    push_head(&mut text).expect(rt, "memory");
    text.extend_from_slice(rows.as_bytes()).expect(rt, "memory");
    text.extend_from_slice(b"program ").expect(rt, "memory");
    text.extend_from_slice(&digits).expect(rt, "memory");
    text.push(b'\n').expect(rt, "memory");
    text.extend_from_slice(told.as_bytes()).expect(rt, "memory");
    push_tail(&mut text).expect(rt, "memory");
    text
}

#[test]
fn a_page_is_its_data_between_two_texts(rt: HostRuntime) {
    let alloc = rt.alloc();
    let job = job_of(&rt, &COPY_FOUR);
    let text = b"rule copy\nsource all\nsink all\nsink mem 65792 2 at 8\n";
    let wanted = query_of(&rt, text.as_slice());
    let sets = sequential(alloc, &job, &wanted).expect(&rt, "memory");
    let report = gather(alloc, SinkSets::from_vec(sets)).expect(&rt, "memory");
    let made = page(alloc, &job, &wanted, &report).expect(&rt, "memory");
    let digest = job.log().digest();
    let expected = page_of(&rt, ROWS, digest, TOLD);
    assert!(rt; made.as_slice() == expected.as_slice());
}

#[test]
fn chosen_bytes_that_were_received_are_sources(rt: HostRuntime) {
    let job = job_of(&rt, &COPY_FOUR);
    let text = b"rule copy\nsource 0 1 3\nsource 1\nsource 0 2 9\n";
    let wanted = query_of(&rt, text.as_slice());
    let sources = sources_of(rt.alloc(), &job, &wanted).expect(&rt, "memory");
    let ranges = sources.ranges();
    assert!(rt; ranges.len() == 1);
    assert!(rt; ranges[0].channel == 0 && ranges[0].from == 1 && ranges[0].past == 4);
}
