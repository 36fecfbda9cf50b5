//! What a file begins with that a command may replace.

use super::runs::{CONVERT, CORE, PAGE};
use super::{Line, words};
use jet_commands::mark_for;

/// The front of each core file: the ELF header, and the program header of the note (System V gABI, "ELF Header" and
/// "Program Header").
const CORE_MARK: &[u8] =
    b"\x7fELF\x01\x01\x01\0\0\0\0\0\0\0\0\0\x04\0\xf3\0\x01\0\0\0\0\0\0\0\x34\0\0\0\0\0\0\0\0\0\0\0\
    \x34\0\x20\0\x02\0\0\0\0\0\0\0\x04\0\0\0\x74\0\0\0\0\0\0\0\0\0\0\0\xe0\0\0\0\0\0\0\0\x04\0\0\0\x04\0\0\0";

/// Also where the words are none.
#[test]
fn a_file_takes_the_place_of_one_of_its_kind(rt: HostRuntime) {
    let line: Line = "jet pages";
    let page: &[u8] = b"<!--jet page-->";
    let log: &[u8] = b"JETLOG";
    for (line, wanted) in [(PAGE, page), (CORE, CORE_MARK), (CONVERT, log), (line, log)] {
        let words = words(&rt, line);
        let mark = mark_for(rt.alloc(), &words).expect(&rt, "memory");
        assert!(rt; mark == wanted);
    }
}
