//! Each name stands for its instruction, in a file of the form that loaders take.

use crate::asserts::assert_same;
use guest_assembler::{Instr, code, instruction, program};

/// Words as LLVM's assembler writes them, and their instructions by their names.
pub const WORDS: [(u32, Instr); 54] = [
    (0x8000_00b7, instruction!(lui(x1, -2147483648))),
    (0xffff_f537, instruction!(lui(x10, -4096))),
    (0x1234_5f97, instruction!(auipc(x31, 305418240))),
    (0x7fff_f0ef, instruction!(jal(x1, 1048574))),
    (0x8000_006f, instruction!(jal(x0, -1048576))),
    (0x0010_02ef, instruction!(jal(x5, 2048))),
    (0x0021_0067, instruction!(jalr(x0, 2(x2)))),
    (0x800f_80e7, instruction!(jalr(x1, -2048(x31)))),
    (0x7e20_8fe3, instruction!(beq(x1, x2, 4094))),
    (0x800f_8063, instruction!(beq(x31, x0, -4096))),
    (0x0062_90e3, instruction!(bne(x5, x6, 2048))),
    (0xfe83_cfe3, instruction!(blt(x7, x8, -2))),
    (0x00a4_df63, instruction!(bge(x9, x10, 30))),
    (0x40c5_e063, instruction!(bltu(x11, x12, 1024))),
    (0xbee6_f0e3, instruction!(bgeu(x13, x14, -1056))),
    (0xfff8_0783, instruction!(lb(x15, -1(x16)))),
    (0x7ff9_1883, instruction!(lh(x17, 2047(x18)))),
    (0x800a_2983, instruction!(lw(x19, -2048(x20)))),
    (0x001b_4a83, instruction!(lbu(x21, 1(x22)))),
    (0x055c_5b83, instruction!(lhu(x23, 85(x24)))),
    (0xff9d_0fa3, instruction!(sb(x25, -1(x26)))),
    (0x7fbe_1fa3, instruction!(sh(x27, 2047(x28)))),
    (0x81df_2023, instruction!(sw(x29, -2048(x30)))),
    (0xfff0_8f93, instruction!(addi(x31, x1, -1))),
    (0x7ff1_a113, instruction!(slti(x2, x3, 2047))),
    (0x8002_b213, instruction!(sltiu(x4, x5, -2048))),
    (0x5553_c313, instruction!(xori(x6, x7, 1365))),
    (0xaaa4_e413, instruction!(ori(x8, x9, -1366))),
    (0x0ff5_f513, instruction!(andi(x10, x11, 255))),
    (0x01f6_9613, instruction!(slli(x12, x13, 31))),
    (0x0017_d713, instruction!(srli(x14, x15, 1))),
    (0x4108_d813, instruction!(srai(x16, x17, 16))),
    (0x0149_8933, instruction!(add(x18, x19, x20))),
    (0x417b_0ab3, instruction!(sub(x21, x22, x23))),
    (0x01ac_9c33, instruction!(sll(x24, x25, x26))),
    (0x01de_2db3, instruction!(slt(x27, x28, x29))),
    (0x001f_bf33, instruction!(sltu(x30, x31, x1))),
    (0x0041_c133, instruction!(xor(x2, x3, x4))),
    (0x0073_52b3, instruction!(srl(x5, x6, x7))),
    (0x40a4_d433, instruction!(sra(x8, x9, x10))),
    (0x00d6_65b3, instruction!(or(x11, x12, x13))),
    (0x0107_f733, instruction!(and(x14, x15, x16))),
    (0x0231_00b3, instruction!(mul(x1, x2, x3))),
    (0x0262_9233, instruction!(mulh(x4, x5, x6))),
    (0x0294_23b3, instruction!(mulhsu(x7, x8, x9))),
    (0x02c5_b533, instruction!(mulhu(x10, x11, x12))),
    (0x02f7_46b3, instruction!(div(x13, x14, x15))),
    (0x0328_d833, instruction!(divu(x16, x17, x18))),
    (0x035a_69b3, instruction!(rem(x19, x20, x21))),
    (0x038b_fb33, instruction!(remu(x22, x23, x24))),
    (0x0000_0073, instruction!(ecall())),
    (0x0010_0073, instruction!(ebreak())),
    (0x0000_000f, instruction!(fence())),
    (0x05d0_0893, instruction!(li(x17, 93))),
];

#[test]
fn each_name_is_its_instruction(rt: HostRuntime) {
    let mut code = Vec::new(rt.alloc());
    for (_, instr) in &WORDS {
        code.push(*instr).expect(&rt, "memory");
    }
    let file = program(rt.alloc(), &code).expect(&rt, "memory");
    assert_eq!(rt; file.len(), 84 + 4 * WORDS.len());
    for (index, (word, _)) in WORDS.iter().enumerate() {
        let at = 84 + 4 * index;
        assert_eq!(rt;
            &file[at..at + 4],
            word.to_le_bytes().as_slice(),
            "at {index}"
        );
    }
}

/// The fields of the headers that the size is in, and the word of an instruction that has none.
#[test]
fn a_program_has_its_size_and_no_word_for_what_does_not_fit(rt: HostRuntime) {
    let file = program(rt.alloc(), &code![ecall(), li(x1, 2048), ecall()]).expect(&rt, "memory");
    assert_eq!(rt; file.len(), 96);
    assert_same(&rt, &file[68..76], [12, 0, 0, 0, 12, 0, 0, 0].as_slice());
    assert_same(
        &rt,
        &file[84..],
        [0x73, 0, 0, 0, 0, 0, 0, 0, 0x73, 0, 0, 0].as_slice(),
    );
}
