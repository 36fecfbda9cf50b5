//! The nodes of a small log: which node each call gives, and the leaves under it.

ghost use Rattle.merge_log.specs.Log.{IsNode};

use crate::asserts::{Runtime, assert_same};
use crate::source_runs_tests::{FROM_3, UP_TO_3};
use flow_model::{Loc, SourceByte};
use merge_log::{Leaf, ManyTerms, MergeLog, Node, TermsReader};
use source_runs::SourceRun;
use std::process::Abort;

/// How a node is asked for.
enum Asked {
    Source(SourceByte),
    Run(SourceRun),
    Start(Loc),
    Union(Node, Node),
    Absorbing(Node, Node),
}

/// How a node is asked for, the node that is given, and the leaves under it.
type Case = (Asked, Node, &'static [Leaf]);

const FIRST: SourceByte = source!(0, 1);

const THIRD: SourceByte = source!(0, 3);

const SECOND: SourceByte = source!(0, 2);

const FOURTH: SourceByte = source!(0, 4);

const X5: Loc = Loc::Reg { number: 5, lane: 0 };

/// In turn, in one log: the leaves, and the union of two.
const FIRST_CASES: [Case; 4] = [
    (Asked::Source(THIRD), 1, &[Leaf::Source(THIRD)]),
    (Asked::Source(FIRST), 2, &[Leaf::Source(FIRST)]),
    (Asked::Start(X5), 3, &[Leaf::Start(X5)]),
    (Asked::Union(1, 2), 4, BOTH),
];

/// Then in that log, where a union with an operand has a node of its own. The last five give nodes that are there.
const UNION_CASES: [Case; 7] = [
    (Asked::Union(4, 1), 5, BOTH),
    (Asked::Union(5, 3), 6, ALL),
    (Asked::Source(THIRD), 1, &[Leaf::Source(THIRD)]),
    (Asked::Union(2, 1), 4, BOTH),
    (Asked::Union(1, 4), 5, BOTH),
    (Asked::Union(6, 6), 6, ALL),
    (Asked::Absorbing(6, 5), 6, ALL),
];

/// Or then in that log, where a union absorbs its operands. The last three give nodes that are there.
const ABSORBING_CASES: [Case; 5] = [
    (Asked::Absorbing(4, 1), 4, BOTH),
    (Asked::Absorbing(4, 3), 5, ALL),
    (Asked::Absorbing(2, 4), 4, BOTH),
    (Asked::Absorbing(4, 5), 5, ALL),
    (Asked::Absorbing(2, 1), 4, BOTH),
];

/// Or then in that log, where nodes are runs. Runs that overlap, and a byte of them, are read once.
const RUN_CASES: [Case; 5] = [
    (Asked::Run(UP_TO_3), 5, FIRST_THREE),
    (Asked::Run(FROM_3), 6, LAST_TWO),
    (Asked::Union(5, 6), 7, FIRST_FOUR),
    (Asked::Union(7, 1), 8, FIRST_FOUR),
    (Asked::Run(UP_TO_3), 5, FIRST_THREE),
];

const FIRST_THREE: &[Leaf] = &[
    Leaf::Source(FIRST),
    Leaf::Source(SECOND),
    Leaf::Source(THIRD),
];

const LAST_TWO: &[Leaf] = &[Leaf::Source(THIRD), Leaf::Source(FOURTH)];

const FIRST_FOUR: &[Leaf] = &[
    Leaf::Source(FIRST),
    Leaf::Source(SECOND),
    Leaf::Source(THIRD),
    Leaf::Source(FOURTH),
];

const BOTH: &[Leaf] = &[Leaf::Source(FIRST), Leaf::Source(THIRD)];

const ALL: &[Leaf] = &[Leaf::Source(FIRST), Leaf::Source(THIRD), Leaf::Start(X5)];

/// The node that is asked for, or the empty node where an operand isn't there.
fn node_of(rt: &impl Abort, log: &mut MergeLog, asked: &Asked) -> Node
    ensures { IsNode log.new result }
{
    let size = log.size();
    let node = match *asked {
        Asked::Source(byte) => log.leaf_source(byte),
        Asked::Run(run) => log.leaf_run(run),
        Asked::Start(loc) => log.leaf_symbol(loc),
        Asked::Union(a, b) if a < size && b < size => log.union(a, b),
        Asked::Absorbing(a, b) if a < size && b < size => log.absorbing_union(a, b),
        Asked::Union(..) | Asked::Absorbing(..) => Ok(0),
    };
    node.expect(rt, "memory")
}

/// Compares a node, and the leaves under it, with what is written out.
fn compare(rt: &impl Runtime, log: &mut MergeLog, case: &Case) {
    let (asked, want, leaves) = case;
    let node = node_of(rt, log, asked);
    assert_same(rt, node, *want);
    let found = log.terms(rt.alloc(), node).expect(rt, "memory");
    assert_same(rt, found.as_slice(), *leaves);
}

/// The log of the first cases and then of these, in turn.
fn log_of(rt: &impl Runtime, cases: &[Case]) -> MergeLog {
    let alloc = rt.alloc();
    let mut log = MergeLog::new(alloc);
    for case in FIRST_CASES.iter().chain(cases) {
        compare(rt, &mut log, case);
    }
    let none = log.terms(alloc, 0).expect(rt, "memory");
    assert_same(rt, none.len(), 0);
    log
}

#[test]
fn equal_nodes_are_one(rt: HostRuntime) {
    let log = log_of(&rt, &UNION_CASES);
    assert_same(&rt, log.size(), 7);
}

#[test]
fn a_union_absorbs_its_operands(rt: HostRuntime) {
    let log = log_of(&rt, &ABSORBING_CASES);
    assert_same(&rt, log.size(), 6);
}

#[test]
fn runs_are_read_as_their_bytes(rt: HostRuntime) {
    let log = log_of(&rt, &RUN_CASES);
    assert_same(&rt, log.size(), 9);
    for case in &RUN_CASES {
        let (_, node, leaves) = case;
        let found = leaves_between(&rt, &log, 6, *node, 4);
        assert_same(&rt, found.as_slice(), *leaves);
    }
    let mut reader = TermsReader::new(rt.alloc());
    reader.read_run(FROM_3).expect(&rt, "memory");
    let leaves = reader.leaves(rt.alloc()).expect(&rt, "memory");
    assert_same(
        &rt,
        leaves.as_slice(),
        [Leaf::Source(THIRD), Leaf::Source(FOURTH)].as_slice(),
    );
    assert_same(&rt, reader.runs(), [FROM_3].as_slice());
}

/// A log of 70,000 source bytes has a node for each, in their order.
#[test]
fn a_long_log_has_its_nodes(rt: HostRuntime) {
    let mut log = MergeLog::new(rt.alloc());
    for offset in 0..70_000 {
        let byte = SourceByte { channel: 0, offset };
        let leaf = log.leaf_source(byte).expect(&rt, "memory");
        assert_same(&rt, leaf, u64::from(offset) + 1);
    }
    assert_same(&rt, log.size(), 70_001);
}

/// The leaves of a node, which one walk reads with two other nodes.
fn leaves_between(
    rt: &impl Runtime,
    log: &MergeLog,
    before: Node,
    node: Node,
    after: Node,
) -> Vec<Leaf> {
    let alloc = rt.alloc();
    let size = log.size();
    let mut reader = TermsReader::new(alloc);
    if before < size && node < size && after < size {
        let mut many = ManyTerms::new(alloc);
        many.read(log, &[before, node, after]).expect(rt, "memory");
        many.copy(1, &mut reader).expect(rt, "memory");
    }
    reader.leaves(alloc).expect(rt, "memory")
}

#[test]
fn one_walk_reads_several_nodes(rt: HostRuntime) {
    let log = log_of(&rt, &UNION_CASES);
    for case in FIRST_CASES.iter().chain(&UNION_CASES) {
        let (_, node, leaves) = case;
        let found = leaves_between(&rt, &log, 6, *node, 4);
        assert_same(&rt, found.as_slice(), *leaves);
    }
}
