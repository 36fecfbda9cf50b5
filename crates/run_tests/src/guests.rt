//! Programs, each with the log of a run of it.

use elf_image::Program;
use guest_assembler::{Instr, code, program};
use replay_log::{Log, read_log};
use replayer::Job;
use sha2::{Digest, Sha256};
use std::process::Abort;
use std::sync::Wait;
use std::thread::Threads;

/// What queries and these tests ask of the machine.
pub trait Runtime: Threads + Wait + Sync + AllocGlobal + Abort {}

impl<R: Threads + Wait + Sync + AllocGlobal + Abort> Runtime for R {}

/// The most bytes that a log has.
const LONGEST_LOG: usize = 67_108_864;

/// A log in version 1, which begins here with the window's pages: all but what names the program.
fn log_of(rt: &impl Runtime, file: &[u8], log: &[u8]) -> Log {
    let alloc = rt.alloc();
    let mut bytes = Vec::new(alloc);
    bytes.extend_from_slice(b"JETLOG1\n").expect(rt, "memory");
    bytes
        .extend_from_slice(&Sha256::digest(file))
        .expect(rt, "memory");
    bytes.extend_from_slice(log).expect(rt, "memory");
    assert!(rt; bytes.len() <= LONGEST_LOG);
    read_log(alloc, &bytes).expect(rt, "a log")
}

/// A program, and the log of a run of it.
#[derive(Drop)]
pub struct Recorded {
    pub program: Program,
    pub log: Log,
}

/// A program with such a log.
fn record(rt: &impl Runtime, code: &[Instr], log: &[u8]) -> Recorded {
    let alloc = rt.alloc();
    let file = program(alloc, code).expect(rt, "a program");
    let log = log_of(rt, &file, log);
    let program = Program::load(alloc, file).expect(rt, "an image");
    Recorded { program, log }
}

/// The same, checked.
fn checked(rt: &impl Runtime, code: &[Instr], log: &[u8]) -> Job {
    let Recorded { program, log } = record(rt, code, log);
    let Program { bytes, image } = program;
    Job::check(rt.alloc(), &bytes, image, log).expect(rt, "a log that fits")
}

/// A program, and what the log of a run of it has but what names the program.
#[derive(Clone, Copy)]
pub struct Guest {
    code: &'static [Instr],
    log: &'static [u8],
}

/// The program and the log of a guest, not yet checked.
pub fn unchecked(rt: &impl Runtime, guest: &Guest) -> Recorded {
    record(rt, guest.code, guest.log)
}

/// The same, checked.
pub fn job_of(rt: &impl Runtime, guest: &Guest) -> Job {
    checked(rt, guest.code, guest.log)
}

/// Code that reads so many bytes to 0x10100 in step 5, and then has these instructions.
macro_rules! reading {
    ($asked:expr; $($name:ident $operands:tt),*) => {
        &code![
            lui(x11, 0x10000), addi(x11, x11, 256), li(x10, 0), li(x12, $asked), li(x17, 63), ecall(),
            $($name $operands,)*
        ]
    };
}

/// The same, which then writes x12 bytes from x11 on, and exits.
macro_rules! moving {
    ($asked:expr; $($name:ident $operands:tt),*) => {
        reading!($asked; $($name $operands,)* li(x10, 1), li(x17, 64), ecall(), li(x10, 0), li(x17, 93), ecall())
    };
}

/// Reads four bytes to 0x10100 in step 5 and writes them in step 8: twelve steps.
pub const COPY_FOUR: Guest = Guest {
    code: moving!(4;),
    log: b"\x01\0\0\0\x01\0\0\0\
        \x01\x05\0\0\0\0\0\0\0\0\x01\x01\0\x04\0\0\0\x04\0\0\0ABCD\
        \x02\x08\0\0\0\x01\0\0\0\0\x01\x01\0\x04\0\0\0\x04\0\0\0ABCD\
        \x05\x0b\0\0\0\0\0\0\0",
};

/// Reads three bytes to 0x10100, then two more behind them, and writes all five: eighteen steps.
pub const COPY_IN_TWO: Guest = Guest {
    code: moving!(
        3;
        addi(x11, x11, 3), li(x10, 0), li(x12, 4), ecall(), addi(x11, x11, -3), li(x12, 5)
    ),
    log: b"\x01\0\0\0\x01\0\0\0\
        \x01\x05\0\0\0\0\0\0\0\0\x01\x01\0\x03\0\0\0\x03\0\0\0ABC\
        \x01\x09\0\0\0\0\0\0\0\x03\x01\x01\0\x04\0\0\0\x02\0\0\0DE\
        \x02\x0e\0\0\0\x01\0\0\0\0\x01\x01\0\x05\0\0\0\x05\0\0\0ABCDE\
        \x05\x11\0\0\0\0\0\0\0",
};

/// Reads a byte to 0x10100, masks it, shifts it by a byte and writes a zero byte and that: seventeen steps.
pub const MASK_AND_SHIFT: Guest = Guest {
    code: moving!(
        1;
        lbu(x5, 0(x11)), andi(x6, x5, 255), slli(x6, x6, 8), sh(x6, 0(x11)), li(x12, 2)
    ),
    log: b"\x01\0\0\0\x01\0\0\0\
        \x01\x05\0\0\0\0\0\0\0\0\x01\x01\0\x01\0\0\0\x01\0\0\0A\
        \x02\x0d\0\0\0\x01\0\0\0\0\x01\x01\0\x02\0\0\0\x02\0\0\0\0A\
        \x05\x10\0\0\0\0\0\0\0",
};

/// Traps at once, so it makes no step.
pub const TRAP: Guest = Guest {
    code: &code![ebreak()],
    log: b"\x01\0\0\0\0\0\0\0\x06\0\0\0\0\x03\0\0\0\0\0\x01\0",
};

/// Begins by a call that isn't known, and exits by the next: three steps.
pub const CALL_AND_EXIT: Guest = Guest {
    code: &code![ecall(), li(x17, 93), ecall()],
    log: b"\x01\0\0\0\0\0\0\0\x04\0\0\0\0\0\0\0\0\x05\x02\0\0\0\xda\xff\xff\xff",
};

/// Counts without end, and is cut off after five steps.
pub const CUT_OFF: Guest = Guest {
    code: &code![addi(x5, x5, 1), beq(x0, x0, -4)],
    log: b"\x01\0\0\0\0\0\0\0\x07\x05\0\0\0",
};

/// Counts down from 2047 and exits: 4,097 steps.
pub const COUNT_DOWN: Guest = Guest {
    code: &code![
        li(x5, 2047),
        addi(x5, x5, -1),
        bne(x5, x0, -4),
        li(x17, 93),
        ecall()
    ],
    log: b"\x01\0\0\0\0\0\0\0\x05\0\x10\0\0\0\0\0\0",
};

const COPY_MANY: &[Instr] = &code![
    lui(x11, 0x11000),
    li(x10, 0),
    lui(x12, 0x1000),
    addi(x12, x12, 904),
    li(x17, 63),
    ecall(),
    lui(x6, 0x13000),
    add(x7, x6, x12),
    lbu(x28, 0(x11)),
    sb(x28, 0(x6)),
    addi(x11, x11, 1),
    addi(x6, x6, 1),
    bne(x6, x7, -16),
    lui(x11, 0x13000),
    li(x10, 1),
    li(x17, 64),
    ecall(),
    li(x10, 0),
    li(x17, 93),
    ecall(),
];

/// Adds the bytes that are copied.
fn add_many(rt: &impl Abort, log: &mut Vec<u8>) {
    for i in 0..5000u32 {
        log.push((i % 256) as u8).expect(rt, "memory");
    }
}

/// Reads 5,000 bytes to 0x11000 in step 5, copies them one by one to 0x13000, byte `i` by a load in step `8 + 5 * i` and
/// the store behind it, and writes them from there: 25,015 steps, in a window of five pages.
pub fn copy_many(rt: &impl Runtime) -> Job {
    let mut log = Vec::new(rt.alloc());
    log.extend_from_slice(
        b"\x05\0\0\0\x01\0\0\0\
        \x01\x05\0\0\0\0\0\0\0\0\x10\x01\0\x88\x13\0\0\x88\x13\0\0",
    )
    .expect(rt, "memory");
    add_many(rt, &mut log);
    log.extend_from_slice(b"\x02\xb3\x61\0\0\x01\0\0\0\0\x30\x01\0\x88\x13\0\0\x88\x13\0\0")
        .expect(rt, "memory");
    add_many(rt, &mut log);
    log.extend_from_slice(b"\x05\xb6\x61\0\0\0\0\0\0")
        .expect(rt, "memory");
    checked(rt, COPY_MANY, &log)
}

/// How many steps a round of [`FILL`] has.
pub const ROUND: u64 = 12_288;

/// Writes the number of the round to each page of its window but the program's, one round after another, and is cut off
/// after sixteen rounds and a step. Two steps come before the first round. The window has 4,096 pages.
pub const FILL: Guest = Guest {
    code: &code![
        lui(x7, 0x1000),
        lui(x9, 0x1010000),
        addi(x5, x5, 1),
        lui(x8, 0x11000),
        sw(x5, 0(x8)),
        add(x8, x8, x7),
        bne(x8, x9, -8),
        beq(x0, x0, -20),
    ],
    log: b"\0\x10\0\0\0\0\0\0\x07\x01\0\x03\0",
};

/// Reads a key and a message of four bytes each, adds them, and writes the sum with the key's bits turned: nineteen steps.
pub const CIPHER: Guest = Guest {
    code: moving!(
        8;
        lw(x5, 0(x11)), lw(x6, 4(x11)), add(x7, x5, x6), xor(x7, x7, x5), sw(x7, 8(x11)), addi(x11, x11, 8), li(x12, 4)
    ),
    log: b"\x01\0\0\0\x01\0\0\0\
        \x01\x05\0\0\0\0\0\0\0\0\x01\x01\0\x08\0\0\0\x08\0\0\0KEY!ABCD\
        \x02\x0f\0\0\0\x01\0\0\0\x08\x01\x01\0\x04\0\0\0\x04\0\0\0\xc7\xc2\xc5\x44\
        \x05\x12\0\0\0\0\0\0\0",
};

/// Reads two bytes, compares each with 0, and loads from an address that the second is, which is outside the window:
/// seventeen steps, and a trap.
pub const COMPARE_AND_LOOK_UP: Guest = Guest {
    code: reading!(
        2;
        li(x28, 2), lbu(x5, 0(x11)), beq(x5, x0, 8), addi(x11, x11, 1), addi(x28, x28, -1), bne(x28, x0, -16),
        lbu(x7, 4(x5))
    ),
    log: b"\x01\0\0\0\x01\0\0\0\
        \x01\x05\0\0\0\0\0\0\0\0\x01\x01\0\x02\0\0\0\x02\0\0\0KE\
        \x06\x11\0\0\0\x05\0\0\0\x30\0\x01\0",
};

/// Reads a byte, asks for so many more, of which there is none, and exits with that byte as its code: twelve steps.
pub const ASK_BY_INPUT: Guest = Guest {
    code: reading!(
        1;
        lbu(x12, 0(x11)), li(x10, 0), ecall(), lbu(x10, 0(x11)), li(x17, 93), ecall()
    ),
    log: b"\x01\0\0\0\x01\0\0\0\
        \x01\x05\0\0\0\0\0\0\0\0\x01\x01\0\x01\0\0\0\x01\0\0\0\x02\
        \x01\x08\0\0\0\0\0\0\0\0\x01\x01\0\x02\0\0\0\0\0\0\0\
        \x05\x0b\0\0\0\x02\0\0\0",
};

const RUN_WHAT_IS_READ_CODE: &[Instr] = &code![
    lui(x11, 0x10000),
    addi(x11, x11, 24),
    li(x10, 0),
    li(x12, 4),
    li(x17, 63),
    ecall(),
    addi(x6, x0, 0),
    ebreak(),
];

/// Reads the next instruction, `addi x6, x0, 0`, over itself, and traps after it: seven steps.
pub const RUN_WHAT_IS_READ: Guest = Guest {
    code: RUN_WHAT_IS_READ_CODE,
    log: b"\x01\0\0\0\x01\0\0\0\
        \x01\x05\0\0\0\0\0\0\0\x18\0\x01\0\x04\0\0\0\x04\0\0\0\x13\x03\0\0\
        \x06\x07\0\0\0\x03\0\0\0\x1c\0\x01\0",
};

/// Reads a word that stands for no instruction there, and traps at it: six steps.
pub const TRAP_IN_WHAT_IS_READ: Guest = Guest {
    code: RUN_WHAT_IS_READ_CODE,
    log: b"\x01\0\0\0\x01\0\0\0\
        \x01\x05\0\0\0\0\0\0\0\x18\0\x01\0\x04\0\0\0\x04\0\0\0\xff\xff\xff\xff\
        \x06\x06\0\0\0\x02\0\0\0\x18\0\x01\0",
};

/// A program that makes no call, and comes to EBREAK at this pc after so many steps.
pub fn breaks_at(rt: &impl Runtime, code: &[Instr], steps: u32, pc: u32) -> Job {
    let mut log = Vec::new(rt.alloc());
    log.extend_from_slice(b"\x01\0\0\0\0\0\0\0\x06")
        .expect(rt, "memory");
    log.extend_from_slice(&steps.to_le_bytes())
        .expect(rt, "memory");
    log.extend_from_slice(b"\x03\0\0\0").expect(rt, "memory");
    log.extend_from_slice(&pc.to_le_bytes())
        .expect(rt, "memory");
    checked(rt, code, &log)
}
