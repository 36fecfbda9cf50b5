//! Guests of the tests: each reads channel 0 once, writes channel 1 once, and exits.

use super::Entry;
use guest_assembler::{Instr, code};

/// Where the guests have their buffer.
pub const BUFFER: u32 = 0x10100;

/// A guest, the pages of its window, and its run.
#[derive(Clone, Copy)]
pub struct Guest {
    pub code: &'static [Instr],
    pub pages: u32,
    pub entries: &'static [Entry],
}

/// Code that reads to its buffer, whose address is then in x11, and writes x12 bytes from x11 on: the length asked for,
/// and the instructions between the two.
macro_rules! moving {
    ($asked:expr; $($name:ident $operands:tt),*) => {
        &code![
            lui(x11, 0x10000), addi(x11, x11, 256), li(x10, 0), li(x12, $asked), li(x17, 63), ecall(),
            $($name $operands,)*
            li(x10, 1), li(x17, 64), ecall(), li(x10, 0), li(x17, 93), ecall(),
        ]
    };
}

/// A guest of such code: its pages; the length asked for, and the bytes read; the instructions; the step of the write,
/// its place, length and bytes.
macro_rules! guest {
    (
        $pages:expr; $asked:expr, $read:expr; $($name:ident $operands:tt),*;
        $at:expr, $place:expr, $length:expr, $written:expr
    ) => {
        Guest {
            code: moving!($asked; $($name $operands),*),
            pages: $pages,
            entries: &[
                Entry::Read(5, 0, $asked, $read),
                Entry::Moved(2, $at, [1, $place, $length], $written),
                Entry::Exit($at + 3, 0),
            ],
        }
    };
}

/// Reads four bytes and writes them.
pub const COPY_FOUR: Guest = guest!(1; 4, b"ABCD"; ; 8, BUFFER, 4, b"ABCD");

/// Its code.
pub const COPY_CODE: &[Instr] = moving!(4;);

/// Reads two words and writes their sum.
pub const ADD_WORDS: Guest = guest!(
    1; 8, b"ABCDEFGH";
    lw(x6, 0(x11)), lw(x7, 4(x11)), add(x6, x6, x7), sw(x6, 0(x11)), li(x12, 4);
    13, BUFFER, 4, b"\x86\x88\x8a\x8c"
);

/// Reads two words and writes their exclusive or.
pub const XOR_WORDS: Guest = guest!(
    1; 8, b"ABCDEFGH";
    lw(x6, 0(x11)), lw(x7, 4(x11)), xor(x6, x6, x7), sw(x6, 0(x11)), li(x12, 4);
    13, BUFFER, 4, b"\x04\x04\x04\x0c"
);

/// Reads two words and writes whether the one is below the other.
pub const LESS_THAN: Guest = guest!(
    1; 8, b"ABCDEFGH";
    lw(x6, 0(x11)), lw(x7, 4(x11)), sltu(x6, x6, x7), sw(x6, 0(x11)), li(x12, 4);
    13, BUFFER, 4, b"\x01\x00\x00\x00"
);

/// Reads a byte and writes the word that it is as a signed number.
pub const LOAD_SIGNED: Guest = guest!(
    1; 1, b"\x80"; lb(x6, 0(x11)), sw(x6, 0(x11)), li(x12, 4); 11, BUFFER, 4, b"\x80\xff\xff\xff"
);

/// Reads a byte and writes the word that it is as an unsigned number.
pub const LOAD_UNSIGNED: Guest = guest!(
    1; 1, b"\x80"; lbu(x6, 0(x11)), sw(x6, 0(x11)), li(x12, 4); 11, BUFFER, 4, b"\x80\x00\x00\x00"
);

/// Reads a byte, stores another over it, and writes that.
pub const OVERWRITE: Guest = guest!(1; 1, b"A"; li(x6, 90), sb(x6, 0(x11)); 10, BUFFER, 1, b"Z");

/// Moves a word to and from a place that is no multiple of 4, and over three of the bytes read.
pub const UNALIGNED: Guest = guest!(
    2; 4, b"ABCD";
    lw(x6, 0(x11)), lui(x5, 0x11000), sw(x6, -2(x5)), lw(x7, -2(x5)), sw(x7, 1(x11));
    13, BUFFER, 4, b"AABC"
);

/// Reads two words and writes their product.
pub const MULTIPLY_WORDS: Guest = guest!(
    1; 8, b"ABCDEFGH";
    lw(x6, 0(x11)), lw(x7, 4(x11)), mul(x6, x6, x7), sw(x6, 0(x11)), li(x12, 4);
    13, BUFFER, 4, b"\x85\xa1\x45\x72"
);

/// Reads a byte, looks another up by it, and writes that.
pub const LOOK_UP: Guest = guest!(
    1; 1, b"A";
    lbu(x6, 0(x11)), add(x6, x6, x11), lbu(x7, 0(x6)), sb(x7, 1(x11)), addi(x11, x11, 1);
    13, BUFFER + 1, 1, b"\0"
);

/// Reads four bytes and writes the first twice and the last two. Each goes through a mask or shifts by whole bytes, as
/// code of C libraries passes characters.
pub const MASK_AND_SHIFT: Guest = guest!(
    1; 4, b"ABCD";
    lw(x6, 0(x11)), andi(x7, x6, 255), sb(x7, 0(x11)), slli(x7, x7, 8), srli(x7, x7, 8), sb(x7, 1(x11)),
    srli(x6, x6, 16), sh(x6, 2(x11));
    16, BUFFER, 4, b"AACD"
);
