//! Nodes, in groups and in one list again.

ghost use Rattle.std.specs.Prelude.{◌≡◌, ◌≤◌, ◌-◌, ◌++◌, IfOk, OnOk, length, reverse, vec_len};
ghost use Rattle.run_board.specs.Tasks.{AreNumbered};
ghost use Rattle.epoch_turns.specs.Groups.{AreOfOneJob, nodes_of};

use crate::group::Group;
use epoch_node::Node;
use no_memory::NoMemory;
use std::alloc::Global;

/// The group of the last nodes, `size` of them, or all where there are fewer. It gives up with NoMemory alone.
fn take_group<'a, G>(
    alloc: Global,
    number: u32,
    nodes: &mut Vec<Node<'a, G>>,
    size: usize,
) -> Result<Group<'a, G>, NoMemory>
    requires { AreOfOneJob nodes.old.items }
    ensures number { IfOk result (λ group. group.number ≡ number) }
    ensures nodes { IfOk result (λ group. nodes.old.items ≡ nodes.new.items ++ group.nodes) }
    ensures left { IfOk result (λ _. vec_len nodes.new ≡ vec_len nodes.old - size) }
{
    let count = size.min(nodes.len());
    let mut stack = Vec::with_capacity(alloc, count)?;
    let turned = Vec::with_capacity(alloc, count)?;
    for _ in 0..count {
        if let Some(node) = nodes.pop() {
            stack.push_reserved(node);
        }
    }
    Ok(Group::new(number, stack, turned))
}

/// The nodes in `count` groups of neighbours, from the last to the first. None has two nodes more than another one. It
/// gives up with NoMemory alone.
pub(crate) fn split<'a, G>(
    alloc: Global,
    mut nodes: Vec<Node<'a, G>>,
    count: u32,
) -> Result<Vec<Group<'a, G>>, NoMemory>
    requires some { 1 ≤ count }
    requires one_job { AreOfOneJob nodes.items }
    ensures nodes { IfOk result (λ groups. nodes_of groups.items ≡ nodes.entry.items) }
    ensures numbers { IfOk result (λ groups. AreNumbered (λ g. g.number) groups.items) }
    ensures count { IfOk result (λ groups. vec_len groups ≡ count) }
{
    let mut groups = Vec::new(alloc);
    for number in 0..count {
        let size = nodes.len().div_ceil((count - number) as usize);
        groups.push(take_group(alloc, number, &mut nodes, size)?)?;
    }
    Ok(groups)
}

/// Appends the items of a stack, from the top down. It gives up with NoMemory alone.
fn append_stack<T: Drop>(items: &mut Vec<T>, mut stack: Vec<T>) -> Result<(), NoMemory>
    ensures { OnOk result (items.new.items ≡ items.old.items ++ reverse stack.items) }
{
    while let Some(item) = stack.pop() {
        items.push(item)?;
    }
    Ok(())
}

/// The nodes of all groups, in order. It gives up with NoMemory alone.
pub(crate) fn join<'a, G>(
    alloc: Global,
    mut groups: Vec<Group<'a, G>>,
) -> Result<Vec<Node<'a, G>>, NoMemory>
    ensures { IfOk result (λ nodes. nodes.items ≡ nodes_of groups.entry.items) }
{
    let mut nodes = Vec::new(alloc);
    while let Some(group) = groups.pop() {
        append_stack(&mut nodes, group.into_stack())?;
    }
    Ok(nodes)
}
