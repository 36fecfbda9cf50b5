//! Which instructions call and which return.

ghost use Rattle.std.specs.Prelude.{◌≡◌, ◌==◌};
ghost use Rattle.run_output.specs.Hints.{is_link as is_link_register, jalr_hint as hint_of_jalr, hint_of as hint_of_instr};

use isa::Instr;

/// What an instruction does to the calls in progress, by the return-address prediction hints of the RISC-V Unprivileged
/// ISA manual ("Unconditional Jumps", section 2.5).
#[derive(Clone, Copy)]
pub enum Hint {
    /// A call begins.
    Calls,
    /// A call ends.
    Returns,
    /// A call ends, and then another one begins: coroutines change over.
    ReturnsAndCalls,
    /// None begins or ends.
    Neither,
}

/// Whether a register is a link register: x1 or x5.
fn is_link(register: u8) -> bool
    ensures { result ≡ is_link_register register }
{
    register == 1 || register == 5
}

/// The hint of a JALR, by its rd and rs1.
fn jalr_hint(rd: u8, rs1: u8) -> Hint
    ensures { result ≡ hint_of_jalr (is_link_register rd) (is_link_register rs1) (rd == rs1) }
{
    match (is_link(rd), is_link(rs1)) {
        (false, false) => Hint::Neither,
        (false, true) => Hint::Returns,
        (true, false) => Hint::Calls,
        (true, true) if rd == rs1 => Hint::Calls,
        (true, true) => Hint::ReturnsAndCalls,
    }
}

/// The hint of an instruction.
#[inline(always)]
pub fn hint_of(instr: &Instr) -> Hint
    ensures { result ≡ hint_of_instr instr.now }
{
    match instr {
        Instr::Jal { rd, .. } => {
            if is_link(*rd) {
                Hint::Calls
            } else {
                Hint::Neither
            }
        }
        Instr::Jalr { rd, rs1, .. } => jalr_hint(*rd, *rs1),
        _ => Hint::Neither,
    }
}
