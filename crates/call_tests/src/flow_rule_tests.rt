//! The rows of the flow table, target by target.

ghost use Rattle.std.specs.Prelude.{◌<◌, length};

use crate::asserts::assert_same;
use flow_rule::*;
use guest_assembler::instruction;
use isa::{CallKind, Instr};

/// An address at whose third byte places wrap.
const PLACE: u32 = 0xffff_fffe;

/// Each row is a target and then its origins, a location in two hexadecimal digits: lane 2 of x7 is 72, and
/// a byte of memory has the last two of its address.
type Rows = &'static [&'static [u32]];

/// An instruction, and its rows under copy, compute and index.
type Case = (Instr, [Rows; 3]);

/// The rows where each lane of x5 has these origins.
macro_rules! of_each_lane {
    ($($origin:expr),*) => {
        &[&[0x50, $($origin),*], &[0x51, $($origin),*], &[0x52, $($origin),*], &[0x53, $($origin),*]]
    };
}

const NO_ROW: Rows = &[];

const EMPTIED: Rows = of_each_lane!();

const FROM_X7: Rows = &[&[0x50, 0x70], &[0x51, 0x71], &[0x52, 0x72], &[0x53, 0x73]];

const FROM_BOTH: Rows = &[
    &[0x50, 0x70, 0x90],
    &[0x51, 0x71, 0x91],
    &[0x52, 0x72, 0x92],
    &[0x53, 0x73, 0x93],
];

const FROM_ALL_OF_X7: Rows = of_each_lane!(0x70, 0x71, 0x72, 0x73);

const FROM_ALL: Rows = of_each_lane!(0x70, 0x71, 0x72, 0x73, 0x90, 0x91, 0x92, 0x93);

const SHIFTED_BY_X9: Rows = of_each_lane!(0x70, 0x71, 0x72, 0x73, 0x90);

const SHIFTED_BY_X7: Rows = of_each_lane!(0x70, 0x90, 0x91, 0x92, 0x93);

const COMPARED: Rows = &[
    &[0x50, 0x70, 0x71, 0x72, 0x73, 0x90, 0x91, 0x92, 0x93],
    &[0x51],
    &[0x52],
    &[0x53],
];

const COMPARED_ALONE: Rows = &[&[0x50, 0x70, 0x71, 0x72, 0x73], &[0x51], &[0x52], &[0x53]];

const WORD: Rows = &[&[0x50, 0xfe], &[0x51, 0xff], &[0x52, 0x00], &[0x53, 0x01]];

const WORD_BY_X7: Rows = &[
    &[0x50, 0x70, 0x71, 0x72, 0x73, 0xfe],
    &[0x51, 0x70, 0x71, 0x72, 0x73, 0xff],
    &[0x52, 0x70, 0x71, 0x72, 0x73, 0x00],
    &[0x53, 0x70, 0x71, 0x72, 0x73, 0x01],
];

const HALF: Rows = &[&[0x50, 0xfe], &[0x51, 0xff], &[0x52], &[0x53]];

const SIGNED_HALF: Rows = &[&[0x50, 0xfe], &[0x51, 0xff], &[0x52, 0xff], &[0x53, 0xff]];

const BYTE: Rows = &[&[0x50, 0xfe], &[0x51], &[0x52], &[0x53]];

const BYTE_BY_X7: Rows = &[
    &[0x50, 0x70, 0x71, 0x72, 0x73, 0xfe],
    &[0x51],
    &[0x52],
    &[0x53],
];

const SIGNED_BYTE: Rows = of_each_lane!(0xfe);

const SIGNED_BYTE_BY_X7: Rows = of_each_lane!(0x70, 0x71, 0x72, 0x73, 0xfe);

const STORED: Rows = &[&[0xfe, 0x70], &[0xff, 0x71], &[0x00, 0x72], &[0x01, 0x73]];

const HALF_STORED: Rows = &[&[0xfe, 0x70], &[0xff, 0x71]];

const HALF_STORED_BY_X9: Rows = &[
    &[0xfe, 0x70, 0x90, 0x91, 0x92, 0x93],
    &[0xff, 0x71, 0x90, 0x91, 0x92, 0x93],
];

const ZERO_STORED: Rows = &[&[0xfe]];

const ZERO_STORED_BY_X7: Rows = &[&[0xfe, 0x70, 0x71, 0x72, 0x73]];

const CASES: &[Case] = &[
    (instruction!(lw(x5, 0(x7))), [WORD, WORD, WORD_BY_X7]),
    (instruction!(lw(x5, 0(x0))), [WORD, WORD, WORD]),
    (
        instruction!(lh(x5, 0(x0))),
        [HALF, SIGNED_HALF, SIGNED_HALF],
    ),
    (
        instruction!(lb(x5, 0(x7))),
        [BYTE, SIGNED_BYTE, SIGNED_BYTE_BY_X7],
    ),
    (instruction!(lbu(x5, 0(x7))), [BYTE, BYTE, BYTE_BY_X7]),
    (instruction!(sw(x7, 0(x0))), [STORED, STORED, STORED]),
    (
        instruction!(sh(x7, 0(x9))),
        [HALF_STORED, HALF_STORED, HALF_STORED_BY_X9],
    ),
    (
        instruction!(sb(x0, 0(x7))),
        [ZERO_STORED, ZERO_STORED, ZERO_STORED_BY_X7],
    ),
    (
        instruction!(sb(x7, 0(x7))),
        [&[&[0xfe, 0x70]], &[&[0xfe, 0x70]], ZERO_STORED_BY_X7],
    ),
    (instruction!(addi(x5, x7, 0)), [FROM_X7, FROM_X7, FROM_X7]),
    (
        instruction!(addi(x5, x7, 1)),
        [EMPTIED, FROM_ALL_OF_X7, FROM_ALL_OF_X7],
    ),
    (instruction!(add(x5, x0, x7)), [FROM_X7, FROM_X7, FROM_X7]),
    (instruction!(add(x5, x7, x9)), [EMPTIED, FROM_ALL, FROM_ALL]),
    (
        instruction!(xor(x5, x9, x7)),
        [EMPTIED, FROM_BOTH, FROM_BOTH],
    ),
    (instruction!(and(x5, x0, x7)), [EMPTIED, FROM_X7, FROM_X7]),
    (instruction!(andi(x5, x7, 255)), [EMPTIED, FROM_X7, FROM_X7]),
    (instruction!(xori(x5, x7, 0)), [EMPTIED, FROM_X7, FROM_X7]),
    (
        instruction!(sub(x5, x7, x0)),
        [EMPTIED, FROM_ALL_OF_X7, FROM_ALL_OF_X7],
    ),
    (instruction!(mul(x5, x9, x7)), [EMPTIED, FROM_ALL, FROM_ALL]),
    (
        instruction!(remu(x5, x7, x0)),
        [EMPTIED, FROM_ALL_OF_X7, FROM_ALL_OF_X7],
    ),
    (
        instruction!(sll(x5, x7, x9)),
        [EMPTIED, SHIFTED_BY_X9, SHIFTED_BY_X9],
    ),
    (
        instruction!(sra(x5, x9, x7)),
        [EMPTIED, SHIFTED_BY_X7, SHIFTED_BY_X7],
    ),
    (
        instruction!(srai(x5, x7, 8)),
        [EMPTIED, FROM_ALL_OF_X7, FROM_ALL_OF_X7],
    ),
    (
        instruction!(sltu(x5, x7, x9)),
        [EMPTIED, COMPARED, COMPARED],
    ),
    (
        instruction!(slti(x5, x7, 0)),
        [EMPTIED, COMPARED_ALONE, COMPARED_ALONE],
    ),
    (instruction!(jalr(x5, 0(x7))), [EMPTIED, EMPTIED, EMPTIED]),
    (instruction!(add(x0, x7, x9)), [NO_ROW, NO_ROW, NO_ROW]),
    (instruction!(beq(x7, x9, 0)), [NO_ROW, NO_ROW, NO_ROW]),
    (instruction!(ecall()), [NO_ROW, NO_ROW, NO_ROW]),
];

const LOWEST_KEPT: Rows = &[&[0x50, 0x70], &[0x51], &[0x52], &[0x53]];

const UPPER_KEPT: Rows = &[&[0x50], &[0x51, 0x71], &[0x52, 0x72], &[0x53, 0x73]];

const HIGH_HALF_KEPT: Rows = &[&[0x50], &[0x51], &[0x52, 0x72], &[0x53, 0x73]];

const HIGHEST_LOWERED: Rows = &[&[0x50, 0x73], &[0x51], &[0x52], &[0x53]];

/// Operations with an immediate, and their rows under keep.
const KEPT: &[(Instr, Rows)] = &[
    (instruction!(andi(x5, x7, 255)), LOWEST_KEPT),
    (instruction!(andi(x5, x7, -256)), UPPER_KEPT),
    (instruction!(andi(x5, x7, -2033)), HIGH_HALF_KEPT),
    (instruction!(andi(x5, x7, -1)), FROM_X7),
    (instruction!(andi(x5, x7, 0)), EMPTIED),
    (instruction!(andi(x5, x0, 255)), EMPTIED),
    (instruction!(andi(x0, x7, 255)), NO_ROW),
    (instruction!(ori(x5, x7, 255)), UPPER_KEPT),
    (instruction!(ori(x5, x7, 0)), FROM_X7),
    (instruction!(ori(x5, x7, -1)), EMPTIED),
    (instruction!(xori(x5, x7, -256)), LOWEST_KEPT),
    (instruction!(xori(x5, x7, 0)), FROM_X7),
    (instruction!(xori(x5, x7, -1)), EMPTIED),
    (instruction!(slli(x5, x7, 0)), FROM_X7),
    (
        instruction!(slli(x5, x7, 8)),
        &[&[0x50], &[0x51, 0x70], &[0x52, 0x71], &[0x53, 0x72]],
    ),
    (
        instruction!(slli(x5, x7, 16)),
        &[&[0x50], &[0x51], &[0x52, 0x70], &[0x53, 0x71]],
    ),
    (
        instruction!(slli(x5, x7, 24)),
        &[&[0x50], &[0x51], &[0x52], &[0x53, 0x70]],
    ),
    (instruction!(slli(x5, x7, 5)), EMPTIED),
    (
        instruction!(srli(x5, x7, 8)),
        &[&[0x50, 0x71], &[0x51, 0x72], &[0x52, 0x73], &[0x53]],
    ),
    (
        instruction!(srli(x5, x7, 16)),
        &[&[0x50, 0x72], &[0x51, 0x73], &[0x52], &[0x53]],
    ),
    (instruction!(srli(x5, x7, 24)), HIGHEST_LOWERED),
    (instruction!(srli(x5, x7, 31)), EMPTIED),
    (instruction!(srai(x5, x7, 0)), FROM_X7),
    (instruction!(srai(x5, x7, 24)), HIGHEST_LOWERED),
    (instruction!(srai(x5, x7, 12)), EMPTIED),
];

const X10: Rows = &[&[0xa0], &[0xa1], &[0xa2], &[0xa3]];

const X10_X11: Rows = &[
    &[0xa0],
    &[0xa1],
    &[0xa2],
    &[0xa3],
    &[0xb0],
    &[0xb1],
    &[0xb2],
    &[0xb3],
];

fn digits(loc: Loc) -> u32 {
    match loc {
        Loc::Reg { number, lane } => u32::from(number) * 16 + u32::from(lane),
        Loc::Mem { place } => place % 256,
    }
}

/// Whether a row is that of the target of this number.
fn has_row(table: &Flow, i: usize, row: &[u32]) -> bool
    requires { i < length table.now }
{
    let Some((target, origins)) = row.split_first() else {
        return false;
    };
    let locs = table.origins(i);
    if digits(table.target(i)) != *target || locs.len() != origins.len() {
        return false;
    }
    for (loc, origin) in locs.iter().zip(origins) {
        if digits(*loc) != *origin {
            return false;
        }
    }
    true
}

/// Whether the table has these rows and no others.
fn has_rows(table: &Flow, rows: &[&[u32]]) -> bool {
    if table.count() != rows.len() {
        return false;
    }
    for i in 0..table.count() {
        if !has_row(table, i, rows[i]) {
            return false;
        }
    }
    true
}

fn is_right(case: &Case) -> bool {
    let (instr, [copy, compute, index]) = case;
    has_rows(&flow(instr, PLACE, Rule::Copy), copy)
        && has_rows(&flow(instr, PLACE, Rule::Compute), compute)
        && has_rows(&flow(instr, PLACE, Rule::Index), index)
}

/// The first of these cases that fails.
fn first_wrong(cases: &[Case]) -> Option<usize> {
    for (i, case) in cases.iter().enumerate() {
        if !is_right(case) {
            return Some(i);
        }
    }
    None
}

#[test]
fn instructions_have_their_rows_under_each_rule(rt: HostRuntime) {
    assert_same(&rt, first_wrong(CASES), None);
}

/// Whether an instruction may keep lanes whole though it computes.
fn may_keep(instr: &Instr) -> bool {
    matches!(
        instr,
        Instr::Andi { .. }
            | Instr::Ori { .. }
            | Instr::Xori { .. }
            | Instr::Slli { .. }
            | Instr::Srli { .. }
            | Instr::Srai { .. }
    )
}

#[test]
fn operations_with_an_immediate_keep_lanes(rt: HostRuntime) {
    for (i, (instr, rows)) in KEPT.iter().enumerate() {
        assert!(rt; has_rows(&flow(instr, PLACE, Rule::Keep), rows), "{i}");
    }
}

#[test]
fn what_else_is_moved_is_moved_by_keep_as_by_copy(rt: HostRuntime) {
    for (i, (instr, [copy, _, _])) in CASES.iter().enumerate() {
        let is_right = may_keep(instr) || has_rows(&flow(instr, PLACE, Rule::Keep), copy);
        assert!(rt; is_right, "{i}");
    }
}

#[test]
fn calls_empty_their_results(rt: HostRuntime) {
    assert!(rt; has_rows(&cleared(CallKind::Read), X10));
    assert!(rt; has_rows(&cleared(CallKind::Other), X10));
    assert!(rt; has_rows(&cleared(CallKind::Exit), NO_ROW));
    assert!(rt; has_rows(&cleared(CallKind::Clock), X10_X11));
}
