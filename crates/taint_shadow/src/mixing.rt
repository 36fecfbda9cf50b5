//! The labels of what some lanes have together. Labels that are equal are united once, and one of nothing adds nothing.

ghost use Rattle.std.specs.Prelude.{IfOk};
ghost use Rattle.taint_shadow.specs.Labels.{Makes, mean_together};
ghost use Rattle.taint_shadow.specs.Lanes.{LanesStand, all_mean, both_mean, MakesLanes};

use crate::labels::{Label, Labels};
use crate::lanes::Lanes;
use no_memory::NoMemory;

/// The label of two together. Where they are equal, or one came from nowhere, none is made.
#[inline(always)]
pub(crate) fn unite<A: Labels>(labels: &mut A, left: Label, right: Label) -> Result<Label, NoMemory>
    requires left { A.words.stands labels.old left }
    requires right { A.words.stands labels.old right }
    ensures { IfOk result (Makes A.words labels.old (mean_together A.words labels.old left right) labels.new) }
{
    if left == right || right.is_nothing() {
        return Ok(left);
    }
    if left.is_nothing() {
        return Ok(right);
    }
    labels.unite(left, right)
}

/// The label of what four lanes have together.
#[inline(always)]
pub(crate) fn unite_all<A: Labels>(labels: &mut A, lanes: Lanes) -> Result<Label, NoMemory>
    requires { LanesStand A.words labels.old lanes }
    ensures { IfOk result (Makes A.words labels.old (all_mean A.words labels.old lanes) labels.new) }
{
    if lanes.are_alike() {
        return Ok(lanes.first);
    }
    let highest = unite(labels, lanes.third, lanes.fourth)?;
    let upper = unite(labels, lanes.second, highest)?;
    unite(labels, lanes.first, upper)
}

/// The labels of what the same lane of two words has together.
pub(crate) fn unite_lanes<A: Labels>(
    labels: &mut A,
    one: Lanes,
    other: Lanes,
) -> Result<Lanes, NoMemory>
    requires one { LanesStand A.words labels.old one }
    requires other { LanesStand A.words labels.old other }
    ensures { IfOk result (MakesLanes A.words labels.old 4 (both_mean A.words labels.old one other) labels.new) }
{
    if one.are_alike() && other.are_alike() {
        let label = unite(labels, one.first, other.first)?;
        return Ok(Lanes::alike(label));
    }
    let first = unite(labels, one.first, other.first)?;
    let second = unite(labels, one.second, other.second)?;
    let third = unite(labels, one.third, other.third)?;
    let fourth = unite(labels, one.fourth, other.fourth)?;
    Ok(Lanes {
        first,
        second,
        third,
        fourth,
    })
}
