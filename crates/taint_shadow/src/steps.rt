//! How one step turns what locations are labelled with.

ghost use Rattle.std.specs.Prelude.{◌≡◌, ◌<◌, Some, IfOk, OnOk};
ghost use Rattle.isa.specs.declared.Instr.{Instr as AnyInstr};
ghost use Rattle.isa.specs.Encodings.{Fits};
ghost use Rattle.rv_decode.specs.Accesses.{load_of, store_of, FitsLoad, FitsStore};
ghost use Rattle.flow_model.specs.Flow.{flow, to_register, nothing, cleared};
ghost use Rattle.flow_model.specs.Ranges.{IsInRange, IsCallInRange};
ghost use Rattle.report_model.specs.Query.{policy_of};
ghost use Rattle.taint_shadow.specs.Labels.{KeepsLabels, Makes};
ghost use Rattle.taint_shadow.specs.Lanes.{MakesLanes};
ghost use Rattle.taint_shadow.specs.Steps.{AreStanding, Turned, introduced as introduced_by, introduced_lane, AfterRead, AfterCall, AfterStep};

use crate::labels::{Label, Labels};
use crate::lanes::Lanes;
use crate::places::Places;
use crate::shapes::{turn_by_load, turn_by_shape, turn_by_store};
use flow_model::{CallSeen, Rule, StepSeen};
use flow_rule::{Shape, SourceByte, counted_base, fills_above, shape_of};
use isa::{CallKind, Instr};
use no_memory::NoMemory;
use query_lang::Query;
use rv_decode::{Load, Store};

/// The label of what a source byte brings in: its own where the query chooses it.
fn introduced<A: Labels>(labels: &mut A, byte: SourceByte, query: &Query) -> Result<Label, NoMemory>
    ensures { IfOk result (Makes A.words labels.old (introduced_by A.words (policy_of query.now) byte) labels.new) }
{
    if query.source_has(byte) {
        labels.source(byte)
    } else {
        Ok(Label::nothing())
    }
}

/// The label of what a byte that a read received brings in: the one so many bytes behind the one of a number. Past the read's end
/// that is nothing.
#[inline(always)]
fn introduced_behind<A: Labels>(
    labels: &mut A,
    call: &CallSeen,
    number: u32,
    behind: u32,
    query: &Query,
) -> Result<Label, NoMemory>
    requires in_range { IsCallInRange (Some call.now) }
    requires number { number < call.now.length }
    ensures { IfOk result (Makes A.words labels.old
        (introduced_lane A.words (policy_of query.now) call.now number behind) labels.new) }
{
    if behind >= call.length - number {
        return Ok(Label::nothing());
    }
    let byte = SourceByte {
        channel: call.channel as u8,
        offset: call.offset + number + behind,
    };
    introduced(labels, byte, query)
}

/// The labels of what four bytes that a read received bring in, from the one of a number on.
#[inline(always)]
fn introduced_word<A: Labels>(
    labels: &mut A,
    call: &CallSeen,
    number: u32,
    query: &Query,
) -> Result<Lanes, NoMemory>
    requires in_range { IsCallInRange (Some call.now) }
    requires number { number < call.now.length }
    ensures { IfOk result (MakesLanes A.words labels.old 4
        (introduced_lane A.words (policy_of query.now) call.now number) labels.new) }
{
    let first = introduced_behind(labels, call, number, 0, query)?;
    let second = introduced_behind(labels, call, number, 1, query)?;
    let third = introduced_behind(labels, call, number, 2, query)?;
    let fourth = introduced_behind(labels, call, number, 3, query)?;
    Ok(Lanes {
        first,
        second,
        third,
        fourth,
    })
}

/// Labels the bytes that a read received with what they bring in, four at a time.
fn receive<A: Labels>(
    labels: &mut A,
    places: &mut Places,
    call: &CallSeen,
    query: &Query,
) -> Result<(), NoMemory>
    requires in_range { IsCallInRange (Some call.now) }
    requires standing { AreStanding A.words labels.old places.old }
    ensures { OnOk result
        (AfterRead A.words (policy_of query.now) call.now labels.old places.old labels.new places.new) }
{
    let mut number = 0;
    while number < call.length {
        let lanes = introduced_word(labels, call, number, query)?;
        let size = (call.length - number).min(4);
        places.set_word(call.place + number, size as u8, lanes)?;
        number += size;
    }
    Ok(())
}

/// Empties the registers of a guest call's result.
fn clear_result<A: Labels>(
    labels: &mut A,
    places: &mut Places,
    kind: CallKind,
) -> Result<(), NoMemory>
    requires standing { AreStanding A.words labels.old places.old }
    ensures { OnOk result (Turned A.words labels.old places.old labels.new places.new (cleared kind)) }
{
    match kind {
        CallKind::Read | CallKind::Write | CallKind::Other => clear(labels, places, 10),
        CallKind::Clock => {
            clear(labels, places, 11)?;
            clear(labels, places, 10)
        }
        CallKind::Exit => Ok(()),
    }
}

/// Empties the lanes of a register.
fn clear<A: Labels>(labels: &mut A, places: &mut Places, rd: u8) -> Result<(), NoMemory>
    requires register { rd < 32 }
    requires standing { AreStanding A.words labels.old places.old }
    ensures { OnOk result (Turned A.words labels.old places.old labels.new places.new (to_register rd nothing)) }
{
    turn_by_shape(labels, places, Shape::Clear { rd })
}

/// A guest call empties the registers of its result, and a read labels the bytes that it received.
fn turn_by_call<A: Labels>(
    labels: &mut A,
    places: &mut Places,
    call: &CallSeen,
    query: &Query,
) -> Result<(), NoMemory>
    requires in_range { IsCallInRange (Some call.now) }
    requires standing { AreStanding A.words labels.old places.old }
    ensures { OnOk result
        (AfterCall A.words (policy_of query.now) call.now labels.old places.old labels.new places.new) }
{
    clear_result(labels, places, call.kind)?;
    match call.kind {
        CallKind::Read => receive(labels, places, call, query),
        CallKind::Write => Ok(()),
        CallKind::Clock => Ok(()),
        CallKind::Other => Ok(()),
        CallKind::Exit => Ok(()),
    }
}

/// Goes on by one step that is no call: whatever the locations' labels meant before it, they mean what its instruction makes of
/// that after it. `place` is the effective address of a load or a store. Each caller, named by `C`, has a copy of its own, so
/// that a loop of steps has it in its midst.
#[inline(always)]
pub fn plain_step<A: Labels, C>(
    labels: &mut A,
    places: &mut Places,
    instr: &Instr,
    place: u32,
    rule: Rule,
) -> Result<(), NoMemory>
    requires fits { Fits instr.now }
    requires standing { AreStanding A.words labels.old places.old }
    ensures { OnOk result (Turned A.words labels.old places.old labels.new places.new (flow rule instr.now place)) }
{
    match rule {
        Rule::Copy => turn_by_shape(labels, places, shape_of(instr, place, Rule::Copy)),
        Rule::Keep => turn_by_shape(labels, places, shape_of(instr, place, Rule::Keep)),
        Rule::Compute | Rule::Index => turn_by_shape(labels, places, shape_of(instr, place, rule)),
    }
}

/// Goes on by one load: whatever the locations' labels meant before it, they mean what it makes of that after it. `place` is its
/// effective address. It gives up with NoMemory alone.
#[inline(always)]
pub fn load_step<A: Labels>(
    labels: &mut A,
    places: &mut Places,
    load: Load,
    place: u32,
    rule: Rule,
) -> Result<(), NoMemory>
    requires fits { FitsLoad load }
    requires standing { AreStanding A.words labels.old places.old }
    ensures standing { OnOk result (AreStanding A.words labels.new places.new) }
    ensures keeps { OnOk result (KeepsLabels A.words labels.old labels.new) }
    ensures turned { OnOk result ((instr : AnyInstr) → load_of instr ≡ Some load
        → Turned A.words labels.old places.old labels.new places.new (flow rule instr place)) }
{
    let Load {
        rd,
        base,
        size,
        is_signed,
    } = load;
    let fills = is_signed && fills_above(rule);
    turn_by_load(
        labels,
        places,
        rd,
        counted_base(rule, base),
        place,
        size,
        fills,
    )
}

/// Goes on by one store, as [`load_step`] does by a load.
#[inline(always)]
pub fn store_step<A: Labels>(
    labels: &mut A,
    places: &mut Places,
    store: Store,
    place: u32,
    rule: Rule,
) -> Result<(), NoMemory>
    requires fits { FitsStore store }
    requires standing { AreStanding A.words labels.old places.old }
    ensures standing { OnOk result (AreStanding A.words labels.new places.new) }
    ensures keeps { OnOk result (KeepsLabels A.words labels.old labels.new) }
    ensures turned { OnOk result ((instr : AnyInstr) → store_of instr ≡ Some store
        → Turned A.words labels.old places.old labels.new places.new (flow rule instr place)) }
{
    let Store { source, base, size } = store;
    turn_by_store(
        labels,
        places,
        source,
        counted_base(rule, base),
        place,
        size,
    )
}

/// Goes on by one step: whatever the locations' labels meant before it, they mean what the step makes of that after it.
#[inline(always)]
pub fn step<A: Labels>(
    labels: &mut A,
    places: &mut Places,
    step: &StepSeen,
    query: &Query,
) -> Result<(), NoMemory>
    requires in_range { IsInRange step.now }
    requires standing { AreStanding A.words labels.old places.old }
    ensures { OnOk result
        (AfterStep A.words (policy_of query.now) step.now labels.old places.old labels.new places.new) }
{
    match &step.call {
        None => { plain_step::<A, Places>(labels, places, &step.instr, step.place, query.rule()) }
        Some(call) => turn_by_call(labels, places, call, query),
    }
}
