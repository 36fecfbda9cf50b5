//! Words of all forms, both ways, and words that stand for nothing. All instructions are worked in isa/proofs.

use crate::guest_assembler_tests::WORDS;
use guest_assembler::{code, instruction};
use rv_decode::{Instr, decode, encode};
use std::process::Abort;

/// An instruction has one word, so two that have the same are the same.
fn stands_for(rt: &impl Abort, word: u32, instr: &Instr) {
    assert!(rt; instr.fits(), "at {word}");
    assert_eq!(rt; encode(instr), word, "at {word}");
    let Some(decoded) = decode(word) else {
        rt.abort()
    };
    assert_eq!(rt; encode(&decoded), word, "at {word}");
}

/// The words are LLVM's assembler's.
#[test]
fn words_stand_for_instructions_both_ways(rt: HostRuntime) {
    for (word, instr) in &WORDS {
        stands_for(&rt, *word, instr);
    }
    stands_for(&rt, 0x02c5_85b3, &instruction!(mul(x11, x11, x12)));
    stands_for(&rt, 0xffff_8f8f, &Instr::Fence { kept: 0x3f_ffff });
    for word in [0, 0xffff_ffff, 0x0000_100f, 0x0020_0073] {
        assert!(rt; decode(word).is_none(), "at {word}");
    }
}

#[test]
fn what_has_no_room_does_not_fit(rt: HostRuntime) {
    let no_register = Instr::Add {
        rd: 32,
        rs1: 0,
        rs2: 0,
    };
    assert!(rt; !no_register.fits());
    assert!(rt; !Instr::Fence { kept: 1 << 22 }.fits());
    for instr in code![
        slli(x1, x2, 32),
        addi(x1, x2, 2048),
        sw(x2, -2049(x1)),
        beq(x1, x2, 3),
        bne(x1, x2, 4096),
        jal(x1, -0x10_0002),
        lui(x1, 0xfff)
    ] {
        assert!(rt; !instr.fits());
    }
}
