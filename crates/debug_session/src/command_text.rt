//! Commands in words: what they are told.

ghost use Rattle.std.specs.Prelude.{◌≡◌, ◌≤◌, IfOk, IfSome};
ghost use Rattle.std.specs.Option.{option_and_then};
ghost use Rattle.log_model.specs.Logs.{steps};
ghost use Rattle.debug_model.specs.Commands.{step_of_byte as step_of_log, time_within as time_within_log};
ghost use Rattle.debug_model.specs.Commands.{number_line as line_of_number, found_line as line_of_found, command_text as text_of_command, time_asked as time_of_command};

use crate::moved::step_of_byte;
use debug_model::Command;
use itoa::Buffer;
use no_memory::NoMemory;
use replayer::Job;
use run_output::{Way, calls_text};
use std::alloc::Global;

/// What is told where there is no such time.
const NO_TIME: &[u8] = b"no such time\n";

/// What is told where there is no such byte.
const NO_BYTE: &[u8] = b"no such byte\n";

/// What commands there are.
const COMMANDS: &[u8] = b"time | steps | calls | goto T | read C:O | wrote C:O\n";

/// A time of the run: at most the number of its steps.
fn time_within(job: &Job, time: Option<u64>) -> Option<u64>
    ensures time { result ≡ option_and_then (time_within_log job.now.log) time }
    ensures within { IfSome result (λ time. time ≤ steps job.now.log) }
{
    time.filter(|time| *time <= job.steps())
}

/// The number of the step that moved a byte this way.
fn step_found(job: &Job, way: Way, byte: Option<(u64, u64)>) -> Option<u64>
    ensures { result ≡ option_and_then (step_of_log way job.now.log) byte }
{
    let (channel, offset) = byte?;
    step_of_byte(job.log(), way, channel, offset)
}

/// A line with a number.
fn number_line(alloc: Global, number: u64) -> Result<Vec<u8>, NoMemory>
    ensures { IfOk result (λ text. text.items ≡ line_of_number number) }
{
    let mut buffer = Buffer::new();
    let mut text = Vec::from_slice(alloc, buffer.format(number).as_bytes())?;
    text.push(b'\n')?;
    Ok(text)
}

/// A line with the number that was found, or what is told where there is none.
fn found_line(alloc: Global, otherwise: &[u8], found: Option<u64>) -> Result<Vec<u8>, NoMemory>
    ensures { IfOk result (λ text. text.items ≡ line_of_found otherwise.now found) }
{
    match found {
        Some(number) => number_line(alloc, number),
        None => Ok(Vec::from_slice(alloc, otherwise)?),
    }
}

/// The text of a command at a time. It gives up with NoMemory alone.
pub(crate) fn command_text(
    alloc: Global,
    job: &Job,
    time: u64,
    asked: Command,
) -> Result<Vec<u8>, NoMemory>
    ensures { IfOk result (λ text. text.items ≡ text_of_command job.now time asked) }
{
    match asked {
        Command::Time => number_line(alloc, time),
        Command::Steps => number_line(alloc, job.steps()),
        Command::Calls => calls_text(alloc, job.log()),
        Command::GoTo(to) => found_line(alloc, NO_TIME, time_within(job, to)),
        Command::Read(byte) => found_line(alloc, NO_BYTE, step_found(job, Way::Received, byte)),
        Command::Wrote(byte) => found_line(alloc, NO_BYTE, step_found(job, Way::Written, byte)),
        Command::Other => Ok(Vec::from_slice(alloc, COMMANDS)?),
    }
}

/// The time to which a command goes, if it does.
pub(crate) fn time_asked(job: &Job, asked: Command) -> Option<u64>
    ensures asked { result ≡ time_of_command job.now.log asked }
    ensures within { IfSome result (λ time. time ≤ steps job.now.log) }
{
    match asked {
        Command::GoTo(to) => time_within(job, to),
        _ => None,
    }
}
