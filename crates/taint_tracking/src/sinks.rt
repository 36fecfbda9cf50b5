//! The labels of the output bytes that a step writes.

ghost use Rattle.std.specs.Prelude.{◌≡◌, ℕ, ◌∷◌, [], map, Some, OnOk};
ghost use Rattle.std.specs.List.{range_with_len};
ghost use Rattle.flow_model.specs.Ranges.{IsLocation, IsInRange, IsCallInRange};
ghost use Rattle.flow_model.specs.declared.SinkPoint.TheVariants.{Out};
ghost use Rattle.report_model.specs.Rows.{sinks_of_step, sink_at};
ghost use Rattle.taint_tracking.specs.Sinks.{Notes, chosen};

use flow_model::{CallSeen, Loc, SinkByte, SinkPoint, StepSeen};
use isa::CallKind;
use no_memory::NoMemory;
use query_lang::Query;
use taint_shadow::{Places, SinkLabel};

/// Notes those bytes that a step writes and the query chooses, in the order of writing. What is kept for locations is
/// that before the step.
#[inline(always)]
pub fn collect(
    places: &Places,
    step: &StepSeen,
    query: &Query,
    sinks: &mut Vec<SinkLabel>,
) -> Result<(), NoMemory>
    requires { IsInRange step.now }
    ensures { OnOk result
        ((t : ℕ) → Notes places.now
        (chosen query.now (sinks_of_step t step.now.call)) sinks.old.items sinks.new.items) }
{
    let Some(call) = &step.call else {
        return Ok(());
    };
    match call.kind {
        CallKind::Write => collect_written(places, call, query, sinks),
        CallKind::Read | CallKind::Clock | CallKind::Other | CallKind::Exit => Ok(()),
    }
}

/// Notes the bytes of a write.
fn collect_written(
    places: &Places,
    call: &CallSeen,
    query: &Query,
    sinks: &mut Vec<SinkLabel>,
) -> Result<(), NoMemory>
    requires { IsCallInRange (Some call.now) }
    ensures { OnOk result
        ((t : ℕ) → Notes places.now
        (chosen query.now
        (map (sink_at t call.now) (range_with_len 0 call.now.length))) sinks.old.items sinks.new.items) }
{
    for i in 0..call.length {
        let sink = SinkByte {
            channel: call.channel as u8,
            offset: call.offset + i,
        };
        let loc = Loc::Mem {
            place: call.place + i,
        };
        collect_byte(places, sink, loc, query, sinks)?;
    }
    Ok(())
}

/// Notes one byte that is written from a location, if the query chooses it.
fn collect_byte(
    places: &Places,
    sink: SinkByte,
    loc: Loc,
    query: &Query,
    sinks: &mut Vec<SinkLabel>,
) -> Result<(), NoMemory>
    requires { IsLocation loc }
    ensures { OnOk result
        ((t : ℕ) → Notes places.now
        (chosen query.now (record { name = Out sink; time = t; loc = loc } ∷ [])) sinks.old.items sinks.new.items) }
{
    if !query.sink_has(sink) {
        return Ok(());
    }
    sinks.push(SinkLabel {
        name: SinkPoint::Out(sink),
        label: places.get(loc),
    })?;
    Ok(())
}
