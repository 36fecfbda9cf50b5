//! A guest that changes its own code, by stores and by reads, and runs what it changed. What is kept of an instruction
//! must not outlive its word.

use super::record::Recording;
use super::runs::REPLAY;
use super::{BY_STEPS, COPY, Ending, Entry, Line, assert_command, program};
use guest_assembler::{Instr, code};

/// Its code, at 0x10000, which x8 holds. x11 is the buffer at 0x10100, 64 words further on.
///
/// It reads a routine of two words to the buffer, and five bytes after it, of which the routine loads the first; and
/// calls it. Then it does so again from its first instruction on: it reads three bytes over the routine's first word,
/// by which that loads the second byte.
///
/// Then come three rounds. A round adds 1 to the constant of the very next instruction, loads five bytes by the words
/// at offsets 108 to 124, and writes them. Then it adds 1 to the constant of the second word by a store of a half, to
/// that of the third by a store of a byte, and to that of the fourth by a store that reaches into the fifth, whose
/// register it changes between x28 and x29.
///
/// The first round meets its stores for the first time, and the second knows them.
const CHANGED_CODE: &[Instr] = &code![
    lui(x8, 0x10000),
    addi(x11, x8, 256),
    addi(x10, x13, 0),
    li(x12, 13),
    li(x17, 63),
    ecall(),
    jal(x1, 232),
    addi(x6, x7, 0),
    addi(x7, x5, 0),
    addi(x13, x13, 1),
    li(x12, 2),
    bne(x13, x12, -44),
    sb(x6, 0(x11)),
    sb(x7, 1(x11)),
    li(x10, 1),
    li(x17, 64),
    ecall(),
    // What is added to the first word and to the store across two, the two registers, the length, and the rounds.
    lui(x9, 0x100000),
    lui(x18, -0x80000000),
    addi(x18, x18, 16),
    addi(x28, x11, 0),
    addi(x29, x11, 4),
    li(x12, 5),
    li(x19, 3),
    // A round, from offset 96 on.
    lw(x5, 108(x8)),
    add(x5, x5, x9),
    sw(x5, 108(x8)),
    lbu(x20, 7(x11)),
    lbu(x21, 8(x11)),
    lbu(x22, 8(x11)),
    lbu(x23, 8(x11)),
    lbu(x24, 8(x28)),
    sb(x20, 0(x11)),
    sb(x21, 1(x11)),
    sb(x22, 2(x11)),
    sb(x23, 3(x11)),
    sb(x24, 4(x11)),
    li(x10, 1),
    ecall(),
    lhu(x5, 114(x8)),
    addi(x5, x5, 16),
    sh(x5, 114(x8)),
    lbu(x5, 118(x8)),
    addi(x5, x5, 16),
    sb(x5, 118(x8)),
    lw(x5, 122(x8)),
    add(x5, x5, x18),
    sw(x5, 122(x8)),
    addi(x19, x19, -1),
    bne(x19, x0, -100),
    li(x10, 0),
    li(x17, 93),
    ecall(),
];

/// What it reads on channel 0: `lbu(x5, 8(x11))` and `jalr(x0, 0(x1))`, and the bytes behind them.
pub const ROUTINE: &[u8] = b"\x83\xc2\x85\0\x67\x80\0\0ABCDE";

/// What it reads on channel 1: the first three bytes of `lbu(x5, 9(x11))`.
pub const CHANGE: &[u8] = b"\x83\xc2\x95";

/// Its run: the routine is called in steps 6 and 20, and a round has 26 steps, from step 40 on.
const RUN: &[Entry] = &[
    Entry::Read(5, 0, 13, ROUTINE),
    Entry::Read(19, 1, 13, CHANGE),
    Entry::Write(32, 1, 2, b"AB"),
    Entry::Write(54, 1, 5, b"AAAAA"),
    Entry::Write(80, 1, 5, b"BBBBE"),
    Entry::Write(106, 1, 5, b"CCCCA"),
    Entry::Exit(120, 0),
];

/// Its numbers.
const NUMBERS: &str = "steps 121\ncalls 6\nread 16\nwritten 17\nend exit 0\n";

/// Each byte comes from where it was loaded: A was read as byte 8, and E as byte 12.
const REPORT: &str = "1:0 0:8\n1:1 0:9
1:2 0:8\n1:3 0:8\n1:4 0:8\n1:5 0:8\n1:6 0:8
1:7 0:9\n1:8 0:9\n1:9 0:9\n1:10 0:9\n1:11 0:12
1:12 0:10\n1:13 0:10\n1:14 0:10\n1:15 0:10\n1:16 0:8
end 17
";

/// It is recorded, and queried in one epoch.
pub const RECORDING: Recording = Recording {
    code: CHANGED_CODE,
    line: "jet record prog log routine change --pages 1",
    pages: 1,
    channels: &[ROUTINE, CHANGE],
    entries: RUN,
    length: 252,
    query: COPY,
    report: REPORT,
};

/// The second of two epochs begins with the second round, so the words are known there before they change.
const BY_ROUNDS: Line = "jet query prog log query --epoch 66";

#[test]
fn changed_code_is_run(rt: HostRuntime) {
    let program = program(&rt, CHANGED_CODE);
    let log = RECORDING.log(&rt, &program);
    for (line, text) in [(REPLAY, NUMBERS), (BY_ROUNDS, REPORT), (BY_STEPS, REPORT)] {
        assert_command(
            &rt,
            line,
            &program,
            &log,
            COPY.as_bytes(),
            Ending::report(text),
        );
    }
}
