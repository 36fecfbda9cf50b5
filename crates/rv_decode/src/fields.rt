//! The fields of a word, and its immediates.

ghost use Rattle.std.specs.Prelude.{◌≡◌, ℕ, ◌+◌, ◌*◌, ◌/◌, ◌%◌, ◌^◌, ◌<◌, ◌≤◌};
ghost use Rattle.isa.specs.Words.{signed, field, opcode, rd, funct3, rs1, rs2, funct7, imm_i, imm_s, imm_b, imm_u, imm_j};

/// The opcodes, by the names of "RV32 base opcode map".
pub const OP: u8 = 0b011_0011;

pub const OP_IMM: u8 = 0b001_0011;

pub const LOAD: u8 = 0b000_0011;

pub const STORE: u8 = 0b010_0011;

pub const BRANCH: u8 = 0b110_0011;

pub const JALR: u8 = 0b110_0111;

pub const JAL: u8 = 0b110_1111;

pub const LUI: u8 = 0b011_0111;

pub const AUIPC: u8 = 0b001_0111;

pub const MISC_MEM: u8 = 0b000_1111;

/// The funct7 of SUB, SRA and SRAI.
pub const ALTERNATE: u8 = 0b010_0000;
/// The funct7 of multiplications and divisions. All others have 0.
pub const MULDIV: u8 = 0b000_0001;

/// The `width` bits of a word from bit `low` up.
pub fn bits(word: u32, low: u32, width: u32) -> u32
    requires starts { low < 32 }
    requires narrow { width < 32 }
    ensures { result ≡ field word low width }
{
    (word >> low) % (1 << width)
}

pub fn opcode_of(word: u32) -> u8
    ensures { result ≡ opcode word }
{
    bits(word, 0, 7) as u8
}

pub fn rd_of(word: u32) -> u8
    ensures { result ≡ rd word }
{
    bits(word, 7, 5) as u8
}

pub fn funct3_of(word: u32) -> u8
    ensures { result ≡ funct3 word }
{
    bits(word, 12, 3) as u8
}

pub fn rs1_of(word: u32) -> u8
    ensures { result ≡ rs1 word }
{
    bits(word, 15, 5) as u8
}

pub fn rs2_of(word: u32) -> u8
    ensures { result ≡ rs2 word }
{
    bits(word, 20, 5) as u8
}

pub fn funct7_of(word: u32) -> u8
    ensures { result ≡ funct7 word }
{
    bits(word, 25, 7) as u8
}

/// A number of `width` bits, sign-extended: its highest bit is the sign.
fn sign_extended(value: u32, width: u32) -> i32
    requires wide { 1 ≤ width }
    requires narrow { width < 32 }
    requires fits { value < 2 ^ width }
    ensures { result ≡ signed width value }
{
    if value < 1 << (width - 1) {
        value as i32
    } else {
        (i64::from(value) - (1i64 << width)) as i32
    }
}

pub fn imm_i_of(word: u32) -> i32
    ensures { result ≡ imm_i word }
{
    sign_extended(bits(word, 20, 12), 12)
}

pub fn imm_s_of(word: u32) -> i32
    ensures { result ≡ imm_s word }
{
    sign_extended((bits(word, 25, 7) << 5) + bits(word, 7, 5), 12)
}

pub fn imm_b_of(word: u32) -> i32
    ensures { result ≡ imm_b word }
{
    let value = (bits(word, 31, 1) << 12)
        + (bits(word, 7, 1) << 11)
        + (bits(word, 25, 6) << 5)
        + (bits(word, 8, 4) << 1);
    sign_extended(value, 13)
}

pub fn imm_u_of(word: u32) -> i32
    ensures { result ≡ imm_u word }
{
    (bits(word, 12, 20) << 12).cast_signed()
}

pub fn imm_j_of(word: u32) -> i32
    ensures { result ≡ imm_j word }
{
    let value = (bits(word, 31, 1) << 20)
        + (bits(word, 12, 8) << 12)
        + (bits(word, 20, 1) << 11)
        + (bits(word, 21, 10) << 1);
    sign_extended(value, 21)
}
