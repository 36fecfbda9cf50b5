//! The text of an instruction.

ghost use Rattle.std.specs.Prelude.{◌≡◌, ◌++◌, codes, OnOk};
ghost use Rattle.instruction_text.specs.Assembly.{register_text, distance_text, operands_text, instruction_text};

use crate::Operands;
use crate::table::{mnemonic, operands_of};
use isa::Instr;
use itoa::Buffer;
use no_memory::NoMemory;

/// Appends an instruction: its mnemonic, and its operands after a blank. It fails only where there is no memory.
pub fn push_instruction(out: &mut Vec<u8>, instr: &Instr) -> Result<(), NoMemory>
    ensures { OnOk result (out.new.items ≡ out.old.items ++ instruction_text instr.now) }
{
    out.extend_from_slice(mnemonic(instr).as_bytes())?;
    push_operands(out, operands_of(instr))
}

/// Appends the operands of an instruction, after a blank where there are some.
fn push_operands(out: &mut Vec<u8>, operands: Operands) -> Result<(), NoMemory>
    ensures { OnOk result (out.new.items ≡ out.old.items ++ operands_text operands) }
{
    match operands {
        Operands::Nothing => Ok(()),
        Operands::Registers { rd, rs1, rs2 } => push_three_registers(out, rd, rs1, rs2),
        Operands::Immediate { rd, rs1, imm } => push_immediate(out, rd, rs1, imm),
        Operands::Amount { rd, rs1, amount } => push_amount(out, rd, rs1, amount),
        Operands::Address {
            register,
            base,
            imm,
        } => push_address(out, register, base, imm),
        Operands::Branch { rs1, rs2, distance } => push_branch(out, rs1, rs2, distance),
        Operands::Upper { rd, imm } => push_upper(out, rd, imm),
        Operands::Jump { rd, distance } => push_jump(out, rd, distance),
    }
}

/// Appends the operands of an operation on two registers.
fn push_three_registers(out: &mut Vec<u8>, rd: u8, rs1: u8, rs2: u8) -> Result<(), NoMemory>
    ensures { OnOk result (out.new.items ≡ out.old.items ++ operands_text (Operands.Registers rd rs1 rs2)) }
{
    push_registers(out, rd, rs1)?;
    push_separator(out)?;
    push_register(out, rs2)
}

/// Appends the operands of an operation on a register and an immediate.
fn push_immediate(out: &mut Vec<u8>, rd: u8, rs1: u8, imm: i32) -> Result<(), NoMemory>
    ensures { OnOk result (out.new.items ≡ out.old.items ++ operands_text (Operands.Immediate rd rs1 imm)) }
{
    let mut buffer = Buffer::new();
    push_registers(out, rd, rs1)?;
    push_separator(out)?;
    out.extend_from_slice(buffer.format(imm).as_bytes())?;
    Ok(())
}

/// Appends the operands of a shift by an amount.
fn push_amount(out: &mut Vec<u8>, rd: u8, rs1: u8, amount: u8) -> Result<(), NoMemory>
    ensures { OnOk result (out.new.items ≡ out.old.items ++ operands_text (Operands.Amount rd rs1 amount)) }
{
    let mut buffer = Buffer::new();
    push_registers(out, rd, rs1)?;
    push_separator(out)?;
    out.extend_from_slice(buffer.format(amount).as_bytes())?;
    Ok(())
}

/// Appends a register, and an address by its base and its distance from there.
fn push_address(out: &mut Vec<u8>, register: u8, base: u8, imm: i32) -> Result<(), NoMemory>
    ensures { OnOk result (out.new.items ≡ out.old.items ++ operands_text (Operands.Address register base imm)) }
{
    let mut buffer = Buffer::new();
    push_first(out, register)?;
    out.extend_from_slice(buffer.format(imm).as_bytes())?;
    out.push(b'(')?;
    push_register(out, base)?;
    out.push(b')')?;
    Ok(())
}

/// Appends the operands of a branch.
fn push_branch(out: &mut Vec<u8>, rs1: u8, rs2: u8, distance: i32) -> Result<(), NoMemory>
    ensures { OnOk result (out.new.items ≡ out.old.items ++ operands_text (Operands.Branch rs1 rs2 distance)) }
{
    push_registers(out, rs1, rs2)?;
    push_separator(out)?;
    push_distance(out, distance)
}

/// Appends a register and the upper 20 bits of an immediate.
fn push_upper(out: &mut Vec<u8>, rd: u8, imm: i32) -> Result<(), NoMemory>
    ensures { OnOk result (out.new.items ≡ out.old.items ++ operands_text (Operands.Upper rd imm)) }
{
    let mut buffer = Buffer::new();
    push_first(out, rd)?;
    out.extend_from_slice(buffer.format(imm.cast_unsigned() / 4096).as_bytes())?;
    Ok(())
}

/// Appends the operands of a jump.
fn push_jump(out: &mut Vec<u8>, rd: u8, distance: i32) -> Result<(), NoMemory>
    ensures { OnOk result (out.new.items ≡ out.old.items ++ operands_text (Operands.Jump rd distance)) }
{
    push_first(out, rd)?;
    push_distance(out, distance)
}

/// Appends a blank, a register, and what stands before the next operand.
fn push_first(out: &mut Vec<u8>, register: u8) -> Result<(), NoMemory>
    ensures { OnOk result (out.new.items ≡ out.old.items ++ codes " " ++ register_text register ++ codes ", ") }
{
    out.push(b' ')?;
    push_register(out, register)?;
    push_separator(out)
}

/// Appends a blank and two registers.
fn push_registers(out: &mut Vec<u8>, first: u8, second: u8) -> Result<(), NoMemory>
    ensures { OnOk result
        (out.new.items ≡ out.old.items ++ codes " " ++ register_text first ++ codes ", " ++ register_text second) }
{
    push_first(out, first)?;
    push_register(out, second)
}

/// Appends what stands between two operands.
fn push_separator(out: &mut Vec<u8>) -> Result<(), NoMemory>
    ensures { OnOk result (out.new.items ≡ out.old.items ++ codes ", ") }
{
    out.extend_from_slice(b", ")?;
    Ok(())
}

/// Appends a register by its number.
fn push_register(out: &mut Vec<u8>, number: u8) -> Result<(), NoMemory>
    ensures { OnOk result (out.new.items ≡ out.old.items ++ register_text number) }
{
    let mut buffer = Buffer::new();
    out.push(b'x')?;
    out.extend_from_slice(buffer.format(number).as_bytes())?;
    Ok(())
}

/// Appends a place in the code, by its distance from the instruction.
fn push_distance(out: &mut Vec<u8>, distance: i32) -> Result<(), NoMemory>
    ensures { OnOk result (out.new.items ≡ out.old.items ++ distance_text distance) }
{
    let mut buffer = Buffer::new();
    let sign = if distance >= 0 { b".+" } else { b".-" };
    out.extend_from_slice(sign)?;
    out.extend_from_slice(buffer.format(distance.unsigned_abs()).as_bytes())?;
    Ok(())
}
