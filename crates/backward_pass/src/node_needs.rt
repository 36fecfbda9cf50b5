//! What is asked for the nodes of an epoch's log, by walks that visit no node twice.

ghost use Rattle.std.specs.Prelude.{◌≡◌, ◌<◌, ◌≤◌, ◌⊎◌, [], ℕ, true, None, length, slice_index, IfOk, IfSome, OnOk};
ghost use Rattle.lists.specs.Sets.{Ascends, has};
ghost use Rattle.flow_model.specs.Orders.{loc_cmp};
ghost use Rattle.flow_model.specs.declared.Loc.{Loc as Location};
ghost use Rattle.epoch_model.specs.Crossing.{added_all};
ghost use Rattle.stream_model.specs.Streams.{places_needed};
ghost use Rattle.merge_log.specs.Log.{HasOperand, IsNode, terms};
ghost use Rattle.source_labels.specs.Words.{log_of, node_words};
ghost use Rattle.backward_pass.specs.Needs.{AreCountedNow, AreInOrder, AreOfLog, AreWalked, HasNeed, HasStart};
ghost use Rattle.backward_pass.specs.Needs.{IsAmong, IsNeed};

use crate::asking::{add_all, add_start};
use epoch_summary::Asked;
use flow_model::Loc;
use merge_log::{Entry, MergeLog, ascend};
use no_memory::NoMemory;
use source_labels::Nodes;
use std::alloc::Global;
use taint_shadow::{Label, LabelKind};

/// What the nodes of an epoch's log need that were walked: all start locations under them are asked.
#[derive(Drop)]
pub struct NodeNeeds {
    // For a node that was walked one more than how many of the asked locations there are up to the last that is under
    // it, and 0 for any other.
    needs: Vec<usize>,
    // Only the room of these is used again.
    stack: Vec<u32>,
    order: Vec<u32>,
    starts: Vec<Loc>,
}

impl NodeNeeds {
    /// No node was walked. It takes no memory.
    pub fn new(alloc: Global) -> NodeNeeds
        ensures { result.needs.items ≡ [] }
    {
        NodeNeeds {
            needs: Vec::new(alloc),
            stack: Vec::new(alloc),
            order: Vec::new(alloc),
            starts: Vec::new(alloc),
        }
    }

    /// Asks for the start locations of a label. It gives how many of the asked locations there are up to the last of
    /// them. When out of memory, part of them may be asked.
    pub fn ask(&mut self, nodes: &Nodes, label: Label, asked: &mut Asked) -> Result<usize, NoMemory>
        requires stands { node_words.stands nodes.now label }
        requires of_log { AreOfLog (log_of nodes.now) asked.old self.old }
        ensures of_log { AreOfLog (log_of nodes.now) asked.new self.new }
        ensures asked { OnOk result (asked.new ≡ added_all asked.old (node_words.means nodes.now label).starts) }
        ensures needed { IfOk result (λ n. n ≡ places_needed asked.new (node_words.means nodes.now label).starts) }
    {
        match label.kind() {
            LabelKind::Start(loc) => add_start(asked, loc),
            LabelKind::Run(_) => Ok(0),
            LabelKind::Node(node) => self.ask_node(nodes.log(), node, asked),
        }
    }

    /// Asks for the start locations under a node. When out of memory, part of them may be asked, and no node counts as
    /// walked.
    fn ask_node(&mut self, log: &MergeLog, root: u32, asked: &mut Asked) -> Result<usize, NoMemory>
        requires stands { IsNode log.now root }
        requires of_log { AreOfLog log.now asked.old self.old }
        ensures of_log { AreOfLog log.now asked.new self.new }
        ensures asked { OnOk result (asked.new ≡ added_all asked.old (terms log.now root).starts) }
        ensures needed { IfOk result (λ n. n ≡ places_needed asked.new (terms log.now root).starts) }
    {
        if root == 0 {
            return Ok(0);
        }
        log.form(); // so that nodes fit into 32 bits
        fit(&mut self.needs, log.size() as usize)?;
        let noted = self.needs[root as usize];
        if noted > 0 {
            return Ok(noted - 1);
        }
        if let Err(no_memory) = self.ask_new(log, root, asked) {
            self.needs.clear();
            return Err(no_memory);
        }
        Ok(self.needs[root as usize] - 1)
    }

    /// Asks for the start locations under a node that wasn't walked: only those under nodes that weren't are looked up.
    fn ask_new(&mut self, log: &MergeLog, root: u32, asked: &mut Asked) -> Result<(), NoMemory>
        requires above_0 { 0 < root }
        requires stands { IsNode log.now root }
        requires room { length log.now < length self.old.needs.items }
        requires new { slice_index self.old.needs.items root ≡ 0 }
        requires of_log { AreOfLog log.now asked.old self.old }
        ensures of_log { OnOk result (AreOfLog log.now asked.new self.new) }
        ensures room { OnOk result (length self.new.needs.items ≡ length self.old.needs.items) }
        ensures asked { OnOk result (asked.new ≡ added_all asked.old (terms log.now root).starts) }
        ensures needed { OnOk result (HasNeed log.now asked.new self.new.needs.items root) }
    {
        log.form(); // so that the start locations under a node are a set
        walk(
            log,
            root,
            &mut self.needs,
            &mut self.stack,
            &mut self.order,
            &mut self.starts,
        )?;
        ascend(&mut self.starts);
        add_all(&self.starts, asked)?;
        count_all(log, &self.order, &mut self.needs, asked)?;
        Ok(())
    }
}

/// Makes room for the nodes below `size`. Nothing is noted for those that are new.
fn fit(needs: &mut Vec<usize>, size: usize) -> Result<(), NoMemory>
    ensures room { OnOk result (size ≤ length needs.new.items) }
    ensures kept { (n : ℕ) → slice_index needs.new.items n ≡ slice_index needs.old.items n }
{
    if needs.len() < size {
        needs.resize(size, 0)?;
    }
    Ok(())
}

/// Walks the nodes under a node that weren't walked. It gives them in an order in which each stands after its operands,
/// and the start locations among them.
fn walk(
    log: &MergeLog,
    root: u32,
    needs: &mut Vec<usize>,
    stack: &mut Vec<u32>,
    order: &mut Vec<u32>,
    starts: &mut Vec<Loc>,
) -> Result<(), NoMemory>
    requires above_0 { 0 < root }
    requires stands { IsNode log.now root }
    requires room { length log.now < length needs.old.items }
    requires new { slice_index needs.old.items root ≡ 0 }
    ensures walked { OnOk result
        (AreWalked log.now root needs.old.items needs.new.items order.new.items starts.new.items) }
    ensures root { OnOk result (IsAmong order.new.items root) }
{
    log.form(); // so that operands stand before their unions
    order.clear();
    starts.clear();
    stack.clear();
    stack.push(root)?;
    while let Some(node) = stack.pop() {
        match new_operand(log, node, needs) {
            Some(operand) => {
                stack.push(node)?;
                stack.push(operand)?;
            }
            None => {
                needs[node as usize] = 1;
                order.push(node)?;
                note_start(log, node, starts)?;
            }
        }
    }
    Ok(())
}

/// An operand of a node for which nothing is noted.
fn new_operand(log: &MergeLog, node: u32, needs: &[usize]) -> Option<u32>
    requires above_0 { 0 < node }
    requires stands { IsNode log.now node }
    requires room { length log.now < length needs.now }
    ensures operand { IfSome result (HasOperand log.now node) }
    ensures above_0 { IfSome result (λ o. 0 < o) }
    ensures before { IfSome result (λ o. o < node) }
    ensures new { IfSome result (λ o. slice_index needs.now o ≡ 0) }
    ensures none { result ≡ None → (o : ℕ) → HasOperand log.now node o → 0 < slice_index needs.now o }
{
    log.form(); // so that nodes fit into 32 bits
    match log.entry(node) {
        Entry::Source(_) => None,
        Entry::Run { .. } => None,
        Entry::Start(_) => None,
        Entry::Union { left, right } => {
            if needs[left as usize] == 0 {
                return Some(left);
            }
            if needs[right as usize] == 0 {
                return Some(right);
            }
            None
        }
    }
}

/// Notes the start location of a node, if it is that of one.
fn note_start(log: &MergeLog, node: u32, starts: &mut Vec<Loc>) -> Result<(), NoMemory>
    requires above_0 { 0 < node }
    requires stands { IsNode log.now node }
    ensures found { OnOk result (HasStart log.now starts.new.items node) }
    ensures kept { OnOk result ((l : Location) → has loc_cmp l starts.old.items ≡ true
        → has loc_cmp l starts.new.items ≡ true) }
    ensures only { OnOk result ((l : Location) → has loc_cmp l starts.new.items ≡ true
        → (has loc_cmp l starts.old.items ≡ true) ⊎ (has loc_cmp l (terms log.now node).starts ≡ true)) }
{
    match log.entry(node) {
        Entry::Source(_) => Ok(()),
        Entry::Run { .. } => Ok(()),
        Entry::Start(loc) => {
            starts.push(loc)?;
            Ok(())
        }
        Entry::Union { .. } => Ok(()),
    }
}

/// Counts what some nodes need, each of which stands after its operands. Their start locations are asked already.
fn count_all(
    log: &MergeLog,
    order: &[u32],
    needs: &mut Vec<usize>,
    asked: &mut Asked,
) -> Result<(), NoMemory>
    requires nodes { (n : ℕ) → IsAmong order.now n → (0 < n) × (n ≤ length log.now) }
    requires room { length log.now < length needs.old.items }
    requires asked { (n : ℕ) → IsAmong order.now n → HasStart log.now asked.old n }
    requires ordered { AreInOrder log.now (HasNeed log.now asked.old needs.old.items) [] order.now }
    ensures counted { OnOk result (AreCountedNow log.now asked.old order.now needs.old.items needs.new.items) }
    ensures asked { OnOk result (asked.new ≡ asked.old) }
{
    for number in 0..order.len() {
        let node = order[number];
        let need = need_of(log, node, needs, asked)?;
        needs[node as usize] = need;
    }
    Ok(())
}

/// What is to be noted for a node, by what is noted for its operands: one more than it needs.
fn need_of(log: &MergeLog, node: u32, needs: &[usize], asked: &mut Asked) -> Result<usize, NoMemory>
    requires above_0 { 0 < node }
    requires stands { IsNode log.now node }
    requires room { length log.now < length needs.now }
    requires start { HasStart log.now asked.old node }
    requires operands { (o : ℕ) → HasOperand log.now node o → HasNeed log.now asked.old needs.now o }
    ensures need { IfOk result (λ n. IsNeed asked.new (terms log.now node).starts n) }
    ensures asked { OnOk result (asked.new ≡ asked.old) }
{
    log.form(); // so that nodes fit into 32 bits
    match log.entry(node) {
        Entry::Source(_) => Ok(1),
        Entry::Run { .. } => Ok(1),
        Entry::Start(loc) => {
            let needed = add_start(asked, loc)?;
            Ok(needed.min(asked.locations().len()) + 1) // no more than there are, so that it fits
        }
        Entry::Union { left, right } => Ok(needs[left as usize].max(needs[right as usize])),
    }
}
