//! Comparing what a machine did with what a log has next.

ghost use Rattle.std.specs.Prelude.{◌≡◌};
ghost use Rattle.isa.specs.Machine.{call_of};
ghost use Rattle.log_model.specs.Logs.{IsRecord};
ghost use Rattle.replay_model.specs.Comparison.{kept_event, call_event, fields, compared, CallOf};
ghost use Rattle.replay_model.specs.declared.Field.TheVariants as field;
ghost use Rattle.replay_run.specs.Expects.{expected_of};
ghost use Rattle.replayer.specs.Differences.{IsFirst, compared_of};
ghost use Rattle.replayer.specs.Comparisons.{event_of, IsSeenIn, IsFormed, is_limit as limited, is_trap as trapped};

use crate::difference::{
    Difference, compare_arguments, compare_bytes, compare_result, compare_words,
};
use isa::{Call, CallKind};
use log_model::{CallRecord, RunEnd};
use replay_model::Field;
use replay_run::Expected;
use rv_machine::{Machine, Stepped};

/// The code of what a log has next: 0 a plain step, 1 to 5 a call, 6 a trap, 7 the limit.
pub(crate) fn kept_code(expected: &Expected<'_>) -> u32
    ensures { result ≡ kept_event (expected_of expected.now) }
{
    match expected {
        Expected::PlainStep => 0,
        Expected::Call(CallRecord::Read { .. }) => 1,
        Expected::Call(CallRecord::Write { .. }) => 2,
        Expected::Call(CallRecord::Clock { .. }) => 3,
        Expected::Call(CallRecord::Other { .. }) => 4,
        Expected::End(RunEnd::Exit { .. }) => 5,
        Expected::End(RunEnd::Trap { .. }) => 6,
        Expected::End(RunEnd::Limit { .. }) => 7,
    }
}

/// The code of what the machine did.
pub(crate) fn seen_code(stepped: &Stepped) -> u32
    ensures { result ≡ event_of stepped.now }
{
    match stepped {
        Stepped::Plain { .. } => 0,
        Stepped::Called(call) => match call.kind {
            CallKind::Read => 1,
            CallKind::Write => 2,
            CallKind::Clock => 3,
            CallKind::Other => 4,
            CallKind::Exit => 5,
        },
        Stepped::Trapped { .. } => 6,
    }
}

/// The difference of events where the log has a plain step next, and the machine did this.
pub(crate) fn event_in_place_of_a_step(stepped: &Stepped) -> Difference
    ensures { compared_of result ≡ compared field.Event 0 (event_of stepped.now) }
{
    Difference {
        field: Field::Event,
        kept: 0,
        seen: i64::from(seen_code(stepped)),
    }
}

/// The log has the limit next: there the program isn't looked at.
pub(crate) fn is_limit(expected: &Expected<'_>) -> bool
    ensures { result ≡ limited (expected_of expected.now) }
{
    match expected {
        Expected::End(RunEnd::Limit { .. }) => true,
        Expected::End(RunEnd::Exit { .. }) => false,
        Expected::End(RunEnd::Trap { .. }) => false,
        Expected::PlainStep => false,
        Expected::Call(_) => false,
    }
}

/// The log has the trap next that ends the run.
pub(crate) fn is_trap(expected: &Expected<'_>) -> bool
    ensures { result ≡ trapped (expected_of expected.now) }
{
    match expected {
        Expected::End(RunEnd::Trap { .. }) => true,
        Expected::End(RunEnd::Exit { .. }) => false,
        Expected::End(RunEnd::Limit { .. }) => false,
        Expected::PlainStep => false,
        Expected::Call(_) => false,
    }
}

/// Compares a call that waits with its record, below the event.
fn compare_call(
    machine: &Machine,
    kept: &CallRecord,
    call: &Call,
    inputs: u32,
) -> Result<(), Difference>
    requires waits { call.now ≡ call_of machine.now.state }
    requires kind { kept_event (CallOf kept.now) ≡ call_event call.now.kind }
    requires form { IsRecord kept.now }
    ensures { IsFirst (fields machine.now.state inputs (CallOf kept.now)) result }
{
    match kept {
        CallRecord::Read {
            args,
            result: moved,
            ..
        } => {
            compare_arguments(args, &call.args)?;
            compare_result(*moved, machine.refusal(call, inputs), 0)
        }
        CallRecord::Write {
            args,
            result: moved,
            bytes,
            ..
        } => {
            compare_arguments(args, &call.args)?;
            compare_result(*moved, machine.refusal(call, inputs), call.args[2])?;
            match machine.bytes(call.args[1], bytes.len() as u32) {
                Some(seen) => compare_bytes(bytes.as_slice(), seen),
                None => Ok(()),
            }
        }
        CallRecord::Clock { .. } => Ok(()),
        CallRecord::Other { number, .. } => compare_words(Field::Number, *number, call.number),
    }
}

/// Compares what a machine did with what the log has next, below the event, which is the same.
pub(crate) fn compare(
    machine: &Machine,
    expected: &Expected<'_>,
    stepped: &Stepped,
    inputs: u32,
) -> Result<(), Difference>
    requires seen { IsSeenIn machine.now.state stepped.now }
    requires event { kept_event (expected_of expected.now) ≡ event_of stepped.now }
    requires form { IsFormed (expected_of expected.now) }
    ensures { IsFirst (fields machine.now.state inputs (expected_of expected.now)) result }
{
    match expected {
        Expected::PlainStep => Ok(()),
        Expected::Call(kept) => match stepped {
            Stepped::Called(call) => compare_call(machine, kept, call, inputs),
            Stepped::Plain { .. } => Ok(()),
            Stepped::Trapped { .. } => Ok(()),
        },
        Expected::End(RunEnd::Exit { code, .. }) => match stepped {
            Stepped::Called(call) => compare_words(Field::Code, *code, call.args[0]),
            Stepped::Plain { .. } => Ok(()),
            Stepped::Trapped { .. } => Ok(()),
        },
        Expected::End(RunEnd::Trap { kind, pc, .. }) => match stepped {
            Stepped::Trapped {
                kind: seen_kind,
                pc: seen_pc,
            } => {
                compare_words(Field::Kind, *kind, *seen_kind)?;
                compare_words(Field::Pc, *pc, *seen_pc)
            }
            Stepped::Plain { .. } => Ok(()),
            Stepped::Called(_) => Ok(()),
        },
        Expected::End(RunEnd::Limit { .. }) => Ok(()),
    }
}
