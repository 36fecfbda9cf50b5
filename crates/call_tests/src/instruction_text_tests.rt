//! Instructions as text.

use crate::asserts::assert_same;
use instruction_text::push_instruction;
use rv_decode::decode;
use std::process::Abort;

/// Words as LLVM's assembler writes them, and the lines that they are of; it takes a distance as a number, as `16`.
const LINES: [(u32, &str); 17] = [
    (0x0005_2283, "lw x5, 0(x10)"),
    (0xfff2_8293, "addi x5, x5, -1"),
    (0xffff_f537, "lui x10, 1048575"),
    (0x0062_8863, "beq x5, x6, .+16"),
    (0xff9f_f0ef, "jal x1, .-8"),
    (0x0000_8067, "jalr x0, 0(x1)"),
    (0x0082_9293, "slli x5, x5, 8"),
    (0x41f3_d393, "srai x7, x7, 31"),
    (0xfff1_0a23, "sb x31, -12(x2)"),
    (0x7ff5_ce03, "lbu x28, 2047(x11)"),
    (0x0231_20b3, "mulhsu x1, x2, x3"),
    (0x0040_31b3, "sltu x3, x0, x4"),
    (0xfe20_fee3, "bgeu x1, x2, .-4"),
    (0x0000_1197, "auipc x3, 1"),
    (0x0ff0_000f, "fence"),
    (0x0000_0073, "ecall"),
    (0x0010_0073, "ebreak"),
];

#[test]
fn each_word_is_a_line_of_the_assembler(rt: HostRuntime) {
    for (word, line) in LINES {
        let mut out = Vec::new(rt.alloc());
        let Some(instr) = decode(word) else {
            rt.abort()
        };
        push_instruction(&mut out, &instr).expect(&rt, "memory");
        assert_same(&rt, out.as_slice(), line.as_bytes());
    }
}
