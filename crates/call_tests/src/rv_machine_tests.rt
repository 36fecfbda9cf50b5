//! Small programs, and what their steps come to. Expected values are typed from the manual's text.

ghost use Rattle.std.specs.Prelude.{◌≡◌, false};

use crate::asserts::{Runtime, assert_same};
use elf_image::load;
use guest_assembler::{code, program};
use rv_machine::{Call, CallKind, Instr, Machine, MachineState, Stepped};
use std::process::Abort;

/// A machine at the first of these instructions, at 0x10000, with a window of one page.
fn machine_of(rt: &impl Runtime, code: &[Instr]) -> Machine
    ensures { result.waits ≡ false }
{
    let alloc = rt.alloc();
    let file = program(alloc, code).expect(rt, "memory");
    let image = load(alloc, file.as_slice()).expect(rt, "an image");
    Machine::new(alloc, &image, 1).expect(rt, "a window of one page")
}

/// Makes plain steps.
fn run(rt: &impl Abort, machine: &mut Machine, steps: u32)
    requires { machine.old.waits ≡ false }
    ensures { machine.new.waits ≡ false }
{
    for _ in 0..steps {
        let Stepped::Plain { .. } = machine.step() else {
            rt.abort()
        };
    }
}

/// What comes after so many plain steps.
fn step_after(rt: &impl Runtime, code: &[Instr], plain: u32) -> Stepped {
    let mut machine = machine_of(rt, code);
    run(rt, &mut machine, plain);
    machine.step()
}

/// The call that a step came to, if it was one.
fn called(stepped: Stepped) -> Option<Call> {
    match stepped {
        Stepped::Called(call) => Some(call),
        Stepped::Plain { .. } => None,
        Stepped::Trapped { .. } => None,
    }
}

/// A call that the environment doesn't have, with these in x10, x11 and x12.
fn other_call(args: [u32; 3]) -> Call {
    Call {
        kind: CallKind::Other,
        number: 0,
        args,
    }
}

/// Programs, how many plain steps they make, and what is in x10, x11 and x12 at the call that comes then.
#[test]
fn programs_leave_their_results(rt: HostRuntime) {
    let cases: [(&[Instr], u32, [u32; 3]); 6] = [
        (&code![addi(x10, x2, 0), ecall()], 1, [0x1_0ff0, 0, 0]),
        (
            &code![
                auipc(x5, 0),
                lw(x10, 6(x5)),
                lh(x11, 9(x5)),
                lbu(x12, 8(x5)),
                ecall()
            ],
            4,
            [0x9583_0062, 0xffff_9295, 0x83],
        ),
        (
            &code![auipc(x10, 0), jalr(x10, 12(x10)), ebreak(), ecall()],
            2,
            [0x1_0008, 0, 0],
        ),
        (
            &code![
                li(x5, -8),
                li(x6, 33),
                sra(x10, x5, x6),
                srl(x11, x5, x6),
                sll(x12, x5, x6),
                ecall()
            ],
            5,
            [0xffff_fffc, 0x7fff_fffc, 0xffff_fff0],
        ),
        (
            &code![
                sltiu(x10, x0, -1),
                slti(x11, x0, -1),
                sltu(x12, x5, x0),
                ecall()
            ],
            3,
            [1, 0, 0],
        ),
        (
            &code![auipc(x5, 0), sw(x5, 29(x5)), lw(x10, 29(x5)), ecall()],
            3,
            [0x1_0000, 0, 0],
        ),
    ];
    for (code, plain, args) in cases {
        let stepped = step_after(&rt, code, plain);
        assert!(rt; called(stepped) == Some(other_call(args)));
    }
}

/// Programs, how many plain steps they make, and the kind and the pc of the trap that comes then.
#[test]
fn programs_trap(rt: HostRuntime) {
    let cases: [(&[Instr], u32, u32, u32); 7] = [
        (&code![jalr(x0, 2(x2))], 0, 0, 0x1_0000),
        (&code![beq(x0, x0, 6)], 0, 0, 0x1_0000),
        (&code![lui(x5, 0x2_0000), jalr(x0, 0(x5))], 2, 1, 0x2_0000),
        (&code![bne(x0, x0, 6)], 1, 2, 0x1_0004),
        (&code![ebreak()], 0, 3, 0x1_0000),
        (&code![lw(x0, 0(x0))], 0, 5, 0x1_0000),
        (&code![sw(x0, 0(x0))], 0, 7, 0x1_0000),
    ];
    for (code, plain, kind, pc) in cases {
        let Stepped::Trapped {
            kind: seen_kind,
            pc: seen_pc,
        } = step_after(&rt, code, plain)
        else {
            rt.abort()
        };
        assert_same(&rt, seen_kind, kind);
        assert_same(&rt, seen_pc, pc);
    }
}

/// A machine made of another one's state, which was taken apart and put together.
fn again(rt: &impl Runtime, machine: &Machine) -> Machine
    requires { machine.now.waits ≡ false }
    ensures { result.waits ≡ false }
{
    let saved = machine.export_state(rt.alloc()).expect(rt, "memory");
    let (window, rest) = saved.apart();
    Machine::import_state(MachineState::whole(window, rest))
}

/// A machine whose state is taken out and put back goes on alike: what it has in memory and in registers is there. So does
/// one that keeps what it decoded.
#[test]
fn a_saved_machine_goes_on_alike(rt: HostRuntime) {
    let code = code![
        auipc(x5, 0),
        li(x6, 42),
        sw(x6, 100(x5)),
        lw(x10, 100(x5)),
        addi(x11, x10, 1),
        ecall()
    ];
    for steps in 0..6 {
        let mut machine = machine_of(&rt, &code);
        run(&rt, &mut machine, steps);
        let mut machine = again(&rt, &machine);
        if steps % 2 == 1 {
            machine.keep_decoded(rt.alloc()).expect(&rt, "memory");
        }
        run(&rt, &mut machine, 5 - steps);
        assert!(rt; called(machine.step()) == Some(other_call([42, 43, 0])));
    }
}

/// An instruction of x5 and x6 that sets x10.
macro_rules! of_two {
    ($name:ident) => { Instr::$name { rd: 10, rs1: 5, rs2: 6 } };
}

/// Instructions after what sets their operands, and what is in x10 then ("Multiplication Operations", and the
/// table of "Division Operations").
#[test]
fn products_and_quotients(rt: HostRuntime) {
    const LEAST: u32 = 0x8000_0000;
    const ALL: u32 = 0xffff_ffff;
    let [seven, zero, less_seven, two] = code![li(x5, 7), li(x6, 0), li(x5, -7), li(x6, 2)];
    let [least, all, one_less] = code![lui(x5, -0x8000_0000), li(x5, -1), li(x6, -1)];
    let cases: [([Instr; 3], u32); 12] = [
        ([seven, zero, of_two!(Div)], ALL),
        ([seven, zero, of_two!(Divu)], ALL),
        ([seven, zero, of_two!(Rem)], 7),
        ([seven, zero, of_two!(Remu)], 7),
        ([less_seven, two, of_two!(Div)], 0xffff_fffd),
        ([less_seven, two, of_two!(Rem)], ALL),
        ([least, one_less, of_two!(Div)], LEAST),
        ([least, one_less, of_two!(Rem)], 0),
        ([all, one_less, of_two!(Mul)], 1),
        ([all, one_less, of_two!(Mulh)], 0),
        ([all, one_less, of_two!(Mulhu)], 0xffff_fffe),
        ([all, one_less, of_two!(Mulhsu)], ALL),
    ];
    for ([first, second, instr], value) in cases {
        let code = [first, second, instr, Instr::Ecall];
        let stepped = step_after(&rt, &code, 3);
        assert!(rt; called(stepped) == Some(other_call([value, 0, 0])));
    }
}
