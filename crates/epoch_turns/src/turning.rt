//! The work of the board over nodes: their epochs are analysed, they have their turns, in groups, and their rows are made.

ghost use Rattle.std.specs.Prelude.{◌≡◌, ◌≤◌, All, IfOk, length, map};
ghost use Rattle.std.specs.List.{AllZip};
ghost use Rattle.run_board.specs.Tasks.{AreNumbered};
ghost use Rattle.epoch_node.specs.Nodes.{HasBegun, IsLedFrom, IsDone};
ghost use Rattle.epoch_turns.specs.Groups.{number_of, AreOfOneJob};

use crate::own_work::OwnWork;
use crate::splitting::{join, split};
use epoch_node::Node;
use no_memory::NoMemory;
use outer_io::Gate;
use run_board::Board;
use std::alloc::Global;
use std::sync::Wait;
use std::thread::Threads;

/// How many nodes a group has at most that one worker alone turns: groups that are done leave the board.
const MOST_NODES: u32 = 64;

/// The own work of each of these nodes. It gives up with NoMemory alone.
fn into_tasks<'a, G>(
    alloc: Global,
    nodes: Vec<Node<'a, G>>,
) -> Result<Vec<OwnWork<'a, G>>, NoMemory>
    ensures { IfOk result (λ tasks. tasks.items ≡ nodes.entry.items) }
{
    let mut tasks = Vec::with_capacity(alloc, nodes.len())?;
    for node in nodes {
        tasks.push(OwnWork::new(node))?;
    }
    Ok(tasks)
}

/// The nodes whose own work this is. It gives up with NoMemory alone.
fn into_nodes<'a, G>(
    alloc: Global,
    tasks: Vec<OwnWork<'a, G>>,
) -> Result<Vec<Node<'a, G>>, NoMemory>
    ensures { IfOk result (λ nodes. nodes.items ≡ tasks.entry.items) }
{
    let mut nodes = Vec::with_capacity(alloc, tasks.len())?;
    for task in tasks {
        nodes.push(task.into_node())?;
    }
    Ok(nodes)
}

/// Lets each of 1 to 4096 nodes, whose numbers are 0, 1, 2 and so on, do its own work, by `workers`, 1 to 64 of them: one
/// that hasn't begun enters the gate, and its epoch is analysed; of one that is done the rows are made. It gives up with
/// NoMemory alone.
fn work_apart<'a, G: Gate, R: Threads + Wait + Sync>(
    rt: &R,
    alloc: Global,
    nodes: Vec<Node<'a, G>>,
    workers: u32,
) -> Result<Vec<Node<'a, G>>, NoMemory>
    requires numbers { AreNumbered number_of nodes.items }
    requires count { (1 ≤ length nodes.items) × (length nodes.items ≤ 4096) }
    requires workers { (1 ≤ workers) × (workers ≤ 64) }
    ensures begun { IfOk result (λ worked. All HasBegun worked.items) }
    ensures led { IfOk result (λ worked. AllZip IsLedFrom worked.items nodes.entry.items) }
{
    let board = Board::new(alloc, into_tasks(alloc, nodes)?)?;
    let done = board.work(rt, alloc, workers)?;
    into_nodes(alloc, done)
}

/// Gives the nodes of one job turns until each is done, by `workers`, 1 to 64 of them, in 1 to 4096 groups of neighbours.
/// Within a group a message stays on one processor, and may pass many nodes in one turn. A node that hasn't begun
/// enters the gate, and its epoch is analysed; the cursor of one analysis serves the next of its group. It gives up with
/// NoMemory alone.
fn turn_all<'a, G: Gate, R: Threads + Wait + Sync>(
    rt: &R,
    alloc: Global,
    nodes: Vec<Node<'a, G>>,
    groups: u32,
    workers: u32,
) -> Result<Vec<Node<'a, G>>, NoMemory>
    requires one_job { AreOfOneJob nodes.items }
    requires groups { (1 ≤ groups) × (groups ≤ 4096) }
    requires workers { (1 ≤ workers) × (workers ≤ 64) }
    ensures ended { IfOk result (λ done. All IsDone done.items) }
    ensures led { IfOk result (λ done. AllZip IsLedFrom done.items nodes.entry.items) }
{
    let groups = split(alloc, nodes, groups)?;
    let board = Board::new(alloc, groups)?;
    let done = board.work(rt, alloc, workers)?;
    join(alloc, done)
}

/// Gives 1 to 4096 nodes of one job, whose numbers are 0, 1, 2 and so on, turns until each is done, by `workers`, 1 to
/// 64 of them. It answers them in order of number, each led from the one handed in with that number. It gives up with
/// NoMemory alone.
///
/// There are as many groups of neighbours as workers, or as nodes where these are fewer; one worker has more. At last all
/// workers make the rows, each those of the epochs that it takes.
pub fn work_in_groups<'a, G: Gate, R: Threads + Wait + Sync>(
    rt: &R,
    alloc: Global,
    nodes: Vec<Node<'a, G>>,
    workers: u32,
) -> Result<Vec<Node<'a, G>>, NoMemory>
    requires numbers { AreNumbered number_of nodes.items }
    requires count { (1 ≤ length nodes.items) × (length nodes.items ≤ 4096) }
    requires one_job { AreOfOneJob nodes.items }
    requires workers { (1 ≤ workers) × (workers ≤ 64) }
    ensures order { IfOk result (λ done. map number_of done.items ≡ map number_of nodes.entry.items) }
    ensures ended { IfOk result (λ done. All IsDone done.items) }
    ensures led { IfOk result (λ done. AllZip IsLedFrom done.items nodes.entry.items) }
{
    // More workers than nodes would find nothing to do.
    let count = nodes.len() as u32;
    let workers = workers.min(count);
    if workers == 1 {
        return turn_all(rt, alloc, nodes, count.div_ceil(MOST_NODES), 1);
    }
    let done = turn_all(rt, alloc, nodes, workers, workers)?;
    work_apart(rt, alloc, done, workers)
}
