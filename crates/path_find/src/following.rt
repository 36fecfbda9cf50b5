//! How one step moves the source byte on.

ghost use Rattle.std.specs.Prelude.{◌≡◌, Some, OnOk};
ghost use Rattle.isa.specs.Encodings.{Fits};
ghost use Rattle.isa.specs.declared.CallKind.TheVariants as kind;
ghost use Rattle.flow_model.specs.Flow.{flow as flow_of, cleared as cleared_by};
ghost use Rattle.flow_model.specs.Ranges.{IsTable, IsCallInRange};
ghost use Rattle.path_find.specs.Trails.{AreStanding, Carries, AreFirst, Receives, Calls};

use crate::carriers::Carriers;
use crate::nodes::{Label, Nodes};
use crate::touching::is_apart;
use flow_model::{CallSeen, Loc, Rule, SourceByte};
use flow_rule::{Flow, cleared, flow, shape_of};
use isa::{CallKind, Instr};
use no_memory::NoMemory;

/// Goes on by an instruction, which is the step of this number. `place` is the effective address of a load or a store.
#[inline(always)]
pub(crate) fn follow_instruction(
    nodes: &mut Nodes,
    carriers: &mut Carriers,
    rule: Rule,
    number: u64,
    instr: &Instr,
    place: u32,
) -> Result<(), NoMemory>
    requires fits { Fits instr.now }
    requires standing { AreStanding nodes.old carriers.old }
    ensures { OnOk result
        (Carries nodes.old carriers.old number (flow_of rule instr.now place) nodes.new carriers.new) }
{
    if is_apart(carriers, shape_of(instr, place, rule)) {
        return Ok(());
    }
    carry_by_instruction(nodes, carriers, rule, number, instr, place)
}

/// What is at the origins of an instruction arrives at its targets, in the step of this number. It is a function of its own, so
/// that the loop over the steps holds no room for the table.
fn carry_by_instruction(
    nodes: &mut Nodes,
    carriers: &mut Carriers,
    rule: Rule,
    number: u64,
    instr: &Instr,
    place: u32,
) -> Result<(), NoMemory>
    requires fits { Fits instr.now }
    requires standing { AreStanding nodes.old carriers.old }
    ensures { OnOk result
        (Carries nodes.old carriers.old number (flow_of rule instr.now place) nodes.new carriers.new) }
{
    carry(nodes, carriers, number, &flow(instr, place, rule))
}

/// Goes on by a guest call, which is the step of this number.
pub(crate) fn follow_call(
    nodes: &mut Nodes,
    carriers: &mut Carriers,
    source: SourceByte,
    number: u64,
    call: &CallSeen,
) -> Result<(), NoMemory>
    requires in_range { IsCallInRange (Some call.now) }
    requires standing { AreStanding nodes.old carriers.old }
    ensures { OnOk result (Calls nodes.old carriers.old source number call.now nodes.new carriers.new) }
{
    carry(nodes, carriers, number, &cleared(call.kind))?;
    match call.kind {
        CallKind::Read => receive(nodes, carriers, source, number, call),
        CallKind::Write => Ok(()),
        CallKind::Clock => Ok(()),
        CallKind::Other => Ok(()),
        CallKind::Exit => Ok(()),
    }
}

/// What is at the origins of a table arrives at its targets, in the step of this number: at each target what is at its first
/// origin that has the source byte.
fn carry(
    nodes: &mut Nodes,
    carriers: &mut Carriers,
    number: u64,
    flow: &Flow,
) -> Result<(), NoMemory>
    requires table { IsTable flow.now }
    requires standing { AreStanding nodes.old carriers.old }
    ensures { OnOk result (Carries nodes.old carriers.old number flow.now nodes.new carriers.new) }
{
    let labels = first_labels(carriers, flow);
    let count = flow.count();
    for done in 0..count {
        let i = count - 1 - done;
        let loc = flow.target(i);
        let label = nodes.arrive(number, loc, labels[i])?;
        carriers.set(loc, label)?;
    }
    Ok(())
}

/// For each target of a table the first label of its origins that isn't nothing.
fn first_labels(carriers: &Carriers, flow: &Flow) -> [Label; 8]
    requires { IsTable flow.now }
    ensures { AreFirst carriers.now flow.now result }
{
    let mut labels = [Label::Nothing; 8];
    for i in 0..flow.count() {
        labels[i] = carriers.first(flow.origins(i));
    }
    labels
}

/// A read puts bytes at its places: the source byte arrives where it is among them, and nothing is at the others.
fn receive(
    nodes: &mut Nodes,
    carriers: &mut Carriers,
    source: SourceByte,
    number: u64,
    call: &CallSeen,
) -> Result<(), NoMemory>
    requires read { call.now.kind ≡ kind.Read }
    requires in_range { IsCallInRange (Some call.now) }
    requires standing { AreStanding nodes.old carriers.old }
    ensures { OnOk result (Receives nodes.old carriers.old source number call.now nodes.new carriers.new) }
{
    for i in 0..call.length {
        let byte = SourceByte {
            channel: call.channel as u8,
            offset: call.offset + i,
        };
        let loc = Loc::Mem {
            place: call.place + i,
        };
        let label = if byte == source {
            nodes.arrive(number, loc, Label::Read)?
        } else {
            Label::Nothing
        };
        carriers.set(loc, label)?;
    }
    Ok(())
}
