//! The instructions by the names of the RISC-V Unprivileged ISA manual, with their operands in the order of its
//! assembler.

/// The number of a register: `x0` to `x31`.
#[macro_export]
macro_rules! register {
    (x0) => { 0 };
    (x1) => { 1 };
    (x2) => { 2 };
    (x3) => { 3 };
    (x4) => { 4 };
    (x5) => { 5 };
    (x6) => { 6 };
    (x7) => { 7 };
    (x8) => { 8 };
    (x9) => { 9 };
    (x10) => { 10 };
    (x11) => { 11 };
    (x12) => { 12 };
    (x13) => { 13 };
    (x14) => { 14 };
    (x15) => { 15 };
    (x16) => { 16 };
    (x17) => { 17 };
    (x18) => { 18 };
    (x19) => { 19 };
    (x20) => { 20 };
    (x21) => { 21 };
    (x22) => { 22 };
    (x23) => { 23 };
    (x24) => { 24 };
    (x25) => { 25 };
    (x26) => { 26 };
    (x27) => { 27 };
    (x28) => { 28 };
    (x29) => { 29 };
    (x30) => { 30 };
    (x31) => { 31 };
}

/// An instruction by its name. `li` stands for `addi` from x0, and `fence` keeps no bits.
#[macro_export]
macro_rules! instruction {
    (lui($rd:ident, $imm:expr)) => { $crate::Instr::Lui { rd: $crate::register!($rd), imm: $imm } };
    (auipc($rd:ident, $imm:expr)) => { $crate::Instr::Auipc { rd: $crate::register!($rd), imm: $imm } };
    (jal($rd:ident, $imm:expr)) => { $crate::Instr::Jal { rd: $crate::register!($rd), imm: $imm } };
    (jalr($rd:ident, $imm:literal($rs1:ident))) => { $crate::Instr::Jalr { rd: $crate::register!($rd), rs1: $crate::register!($rs1), imm: $imm } };
    (beq($rs1:ident, $rs2:ident, $imm:expr)) => { $crate::Instr::Beq { rs1: $crate::register!($rs1), rs2: $crate::register!($rs2), imm: $imm } };
    (bne($rs1:ident, $rs2:ident, $imm:expr)) => { $crate::Instr::Bne { rs1: $crate::register!($rs1), rs2: $crate::register!($rs2), imm: $imm } };
    (blt($rs1:ident, $rs2:ident, $imm:expr)) => { $crate::Instr::Blt { rs1: $crate::register!($rs1), rs2: $crate::register!($rs2), imm: $imm } };
    (bge($rs1:ident, $rs2:ident, $imm:expr)) => { $crate::Instr::Bge { rs1: $crate::register!($rs1), rs2: $crate::register!($rs2), imm: $imm } };
    (bltu($rs1:ident, $rs2:ident, $imm:expr)) => { $crate::Instr::Bltu { rs1: $crate::register!($rs1), rs2: $crate::register!($rs2), imm: $imm } };
    (bgeu($rs1:ident, $rs2:ident, $imm:expr)) => { $crate::Instr::Bgeu { rs1: $crate::register!($rs1), rs2: $crate::register!($rs2), imm: $imm } };
    (lb($rd:ident, $imm:literal($rs1:ident))) => { $crate::Instr::Lb { rd: $crate::register!($rd), rs1: $crate::register!($rs1), imm: $imm } };
    (lh($rd:ident, $imm:literal($rs1:ident))) => { $crate::Instr::Lh { rd: $crate::register!($rd), rs1: $crate::register!($rs1), imm: $imm } };
    (lw($rd:ident, $imm:literal($rs1:ident))) => { $crate::Instr::Lw { rd: $crate::register!($rd), rs1: $crate::register!($rs1), imm: $imm } };
    (lbu($rd:ident, $imm:literal($rs1:ident))) => { $crate::Instr::Lbu { rd: $crate::register!($rd), rs1: $crate::register!($rs1), imm: $imm } };
    (lhu($rd:ident, $imm:literal($rs1:ident))) => { $crate::Instr::Lhu { rd: $crate::register!($rd), rs1: $crate::register!($rs1), imm: $imm } };
    (sb($rs2:ident, $imm:literal($rs1:ident))) => { $crate::Instr::Sb { rs1: $crate::register!($rs1), rs2: $crate::register!($rs2), imm: $imm } };
    (sh($rs2:ident, $imm:literal($rs1:ident))) => { $crate::Instr::Sh { rs1: $crate::register!($rs1), rs2: $crate::register!($rs2), imm: $imm } };
    (sw($rs2:ident, $imm:literal($rs1:ident))) => { $crate::Instr::Sw { rs1: $crate::register!($rs1), rs2: $crate::register!($rs2), imm: $imm } };
    (li($rd:ident, $imm:expr)) => { $crate::Instr::Addi { rd: $crate::register!($rd), rs1: 0, imm: $imm } };
    (addi($rd:ident, $rs1:ident, $imm:expr)) => { $crate::Instr::Addi { rd: $crate::register!($rd), rs1: $crate::register!($rs1), imm: $imm } };
    (slti($rd:ident, $rs1:ident, $imm:expr)) => { $crate::Instr::Slti { rd: $crate::register!($rd), rs1: $crate::register!($rs1), imm: $imm } };
    (sltiu($rd:ident, $rs1:ident, $imm:expr)) => { $crate::Instr::Sltiu { rd: $crate::register!($rd), rs1: $crate::register!($rs1), imm: $imm } };
    (xori($rd:ident, $rs1:ident, $imm:expr)) => { $crate::Instr::Xori { rd: $crate::register!($rd), rs1: $crate::register!($rs1), imm: $imm } };
    (ori($rd:ident, $rs1:ident, $imm:expr)) => { $crate::Instr::Ori { rd: $crate::register!($rd), rs1: $crate::register!($rs1), imm: $imm } };
    (andi($rd:ident, $rs1:ident, $imm:expr)) => { $crate::Instr::Andi { rd: $crate::register!($rd), rs1: $crate::register!($rs1), imm: $imm } };
    (slli($rd:ident, $rs1:ident, $amount:expr)) => { $crate::Instr::Slli { rd: $crate::register!($rd), rs1: $crate::register!($rs1), amount: $amount } };
    (srli($rd:ident, $rs1:ident, $amount:expr)) => { $crate::Instr::Srli { rd: $crate::register!($rd), rs1: $crate::register!($rs1), amount: $amount } };
    (srai($rd:ident, $rs1:ident, $amount:expr)) => { $crate::Instr::Srai { rd: $crate::register!($rd), rs1: $crate::register!($rs1), amount: $amount } };
    (add($rd:ident, $rs1:ident, $rs2:ident)) => { $crate::Instr::Add { rd: $crate::register!($rd), rs1: $crate::register!($rs1), rs2: $crate::register!($rs2) } };
    (sub($rd:ident, $rs1:ident, $rs2:ident)) => { $crate::Instr::Sub { rd: $crate::register!($rd), rs1: $crate::register!($rs1), rs2: $crate::register!($rs2) } };
    (sll($rd:ident, $rs1:ident, $rs2:ident)) => { $crate::Instr::Sll { rd: $crate::register!($rd), rs1: $crate::register!($rs1), rs2: $crate::register!($rs2) } };
    (slt($rd:ident, $rs1:ident, $rs2:ident)) => { $crate::Instr::Slt { rd: $crate::register!($rd), rs1: $crate::register!($rs1), rs2: $crate::register!($rs2) } };
    (sltu($rd:ident, $rs1:ident, $rs2:ident)) => { $crate::Instr::Sltu { rd: $crate::register!($rd), rs1: $crate::register!($rs1), rs2: $crate::register!($rs2) } };
    (xor($rd:ident, $rs1:ident, $rs2:ident)) => { $crate::Instr::Xor { rd: $crate::register!($rd), rs1: $crate::register!($rs1), rs2: $crate::register!($rs2) } };
    (srl($rd:ident, $rs1:ident, $rs2:ident)) => { $crate::Instr::Srl { rd: $crate::register!($rd), rs1: $crate::register!($rs1), rs2: $crate::register!($rs2) } };
    (sra($rd:ident, $rs1:ident, $rs2:ident)) => { $crate::Instr::Sra { rd: $crate::register!($rd), rs1: $crate::register!($rs1), rs2: $crate::register!($rs2) } };
    (or($rd:ident, $rs1:ident, $rs2:ident)) => { $crate::Instr::Or { rd: $crate::register!($rd), rs1: $crate::register!($rs1), rs2: $crate::register!($rs2) } };
    (and($rd:ident, $rs1:ident, $rs2:ident)) => { $crate::Instr::And { rd: $crate::register!($rd), rs1: $crate::register!($rs1), rs2: $crate::register!($rs2) } };
    (mul($rd:ident, $rs1:ident, $rs2:ident)) => { $crate::Instr::Mul { rd: $crate::register!($rd), rs1: $crate::register!($rs1), rs2: $crate::register!($rs2) } };
    (mulh($rd:ident, $rs1:ident, $rs2:ident)) => { $crate::Instr::Mulh { rd: $crate::register!($rd), rs1: $crate::register!($rs1), rs2: $crate::register!($rs2) } };
    (mulhsu($rd:ident, $rs1:ident, $rs2:ident)) => { $crate::Instr::Mulhsu { rd: $crate::register!($rd), rs1: $crate::register!($rs1), rs2: $crate::register!($rs2) } };
    (mulhu($rd:ident, $rs1:ident, $rs2:ident)) => { $crate::Instr::Mulhu { rd: $crate::register!($rd), rs1: $crate::register!($rs1), rs2: $crate::register!($rs2) } };
    (div($rd:ident, $rs1:ident, $rs2:ident)) => { $crate::Instr::Div { rd: $crate::register!($rd), rs1: $crate::register!($rs1), rs2: $crate::register!($rs2) } };
    (divu($rd:ident, $rs1:ident, $rs2:ident)) => { $crate::Instr::Divu { rd: $crate::register!($rd), rs1: $crate::register!($rs1), rs2: $crate::register!($rs2) } };
    (rem($rd:ident, $rs1:ident, $rs2:ident)) => { $crate::Instr::Rem { rd: $crate::register!($rd), rs1: $crate::register!($rs1), rs2: $crate::register!($rs2) } };
    (remu($rd:ident, $rs1:ident, $rs2:ident)) => { $crate::Instr::Remu { rd: $crate::register!($rd), rs1: $crate::register!($rs1), rs2: $crate::register!($rs2) } };
    (fence()) => { $crate::Instr::Fence { kept: 0 } };
    (ecall()) => { $crate::Instr::Ecall };
    (ebreak()) => { $crate::Instr::Ebreak };
}

/// Instructions in order, as an array of `Instr`: `code![li(x10, 4), sw(x10, -4(x2)), ecall()]`.
#[macro_export]
macro_rules! code {
    ($($name:ident $operands:tt),* $(,)?) => { [$($crate::instruction!($name $operands)),*] };
}
