//! The guest, an order gateway.

ghost use Rattle.std.specs.Prelude.{◌≡◌, IfOk};
ghost use Rattle.order_gateway.specs.Guest.{guest_file, guest_image};

use elf_image::Program;
use guest_assembler::{Instr, code, program};
use no_memory::{Fault, NoMemory};
use std::alloc::Global;

/// Messages are read to x8, and orders are written from x9. The positions of the accounts stand from x18 on.
const GUEST: &[Instr] = &code![
    lui(x8, 0x11000),
    lui(x9, 0x12000),
    lui(x18, 0x13000),
    // read a message of 8 bytes, and leave where fewer came
    li(x10, 0),
    addi(x11, x8, 0),
    li(x12, 8),
    li(x17, 63),
    ecall(),
    li(x5, 8),
    bne(x10, x5, 88),
    // its side, account, quantity and price
    lbu(x6, 0(x8)),
    lbu(x7, 1(x8)),
    lhu(x28, 2(x8)),
    lw(x29, 4(x8)),
    // the account's position
    slli(x30, x7, 2),
    add(x30, x30, x18),
    lw(x31, 0(x30)),
    // a sale's quantity is negated
    andi(x6, x6, 1),
    beq(x6, x0, 8),
    sub(x28, x0, x28),
    add(x31, x31, x28),
    sw(x31, 0(x30)),
    // the order: account, position and price
    sb(x7, 0(x9)),
    sw(x31, 1(x9)),
    sw(x29, 5(x9)),
    // write its 9 bytes, and go on with the next message
    li(x10, 1),
    addi(x11, x9, 0),
    li(x12, 9),
    li(x17, 64),
    ecall(),
    jal(x0, -108),
    // exit
    li(x10, 0),
    li(x17, 93),
    ecall(),
];

/// The guest's program file. It gives up with NoMemory alone.
pub fn guest_file(alloc: Global) -> Result<Vec<u8>, NoMemory>
    ensures { IfOk result (λ file. file.items ≡ guest_file) }
{
    Ok(program(alloc, GUEST)?)
}

/// The guest. It gives up with NoMemory alone.
pub fn guest_program(alloc: Global) -> Result<Program, NoMemory>
    ensures file { IfOk result (λ program. program.bytes.items ≡ guest_file) }
    ensures image { IfOk result (λ program. program.image ≡ guest_image) }
{
    let file = guest_file(alloc)?;
    match Program::load(alloc, file) {
        Ok(program) => Ok(program),
        Err(Fault::NoMemory(no_memory)) => Err(no_memory),
        Err(Fault::At(_)) => unreachable!(),
    }
}
