//! A log in two parts, and whole again.

ghost use Rattle.std.specs.Prelude.{◌≡◌, ◌≤◌, ◌^◌, length, take, IfOk};
ghost use Rattle.log_model.specs.declared.Version.TheVariants.{Two};
ghost use Rattle.log_model.specs.Logs.{IsLog, Rise, end_at, log_text};
ghost use Rattle.replay_model.specs.Offsets.{records_before};
ghost use Rattle.replay_log.specs.Logs.{log_of_parts};
ghost use Rattle.run_beginning.specs.Beginnings.{beginning, followed_by};

use crate::tail::Tail;
use log_model::{CallRecord, RunEnd};
use no_memory::NoMemory;
use replay_log::{Log, text_length};
use replay_run::time_of_call;

/// How many of these calls are among the first `steps` steps.
fn count_before(records: &[CallRecord], steps: u64) -> usize
    requires { Rise 0 records.now }
    ensures within { result ≤ length records.now }
    ensures front { take result records.now ≡ records_before steps records.now }
{
    let mut count = 0;
    for call in records {
        if time_of_call(call) >= steps {
            return count;
        }
        count += 1;
    }
    count
}

/// The log of these parts, which are those of one. It takes no memory.
fn log_of(pages: u32, inputs: u32, digest: [u8; 32], records: Vec<CallRecord>, end: RunEnd) -> Log
    requires form { IsLog (log_of_parts pages inputs digest records.items end) }
    requires limit { length (log_text Two (log_of_parts pages inputs digest records.items end)) ≤ 2 ^ 27 }
    ensures { result ≡ log_of_parts pages inputs digest records.items end }
{
    let size = text_length(inputs, &records, end);
    Log::from_parts(pages, inputs, digest, records, end, size)
}

/// The beginning of a log that has the first `steps` steps, and what follows it. The calls of the beginning stay where they
/// are, and the later ones are moved out. It gives up with NoMemory alone.
pub fn split(log: Log, steps: u64) -> Result<(Log, Tail), NoMemory>
    requires { steps ≤ end_at log.end }
    ensures beginning { IfOk result (λ r. r.0 ≡ beginning steps log) }
    ensures tail { IfOk result (λ r. followed_by r.0 r.1 ≡ log) }
{
    log.form();
    let _size = log.size();
    let pages = log.pages();
    let inputs = log.inputs();
    let digest = log.digest();
    let end = log.end();
    let count = count_before(log.records(), steps);
    let mut records = log.into_records();
    let later = records.split_off(count)?;
    let cut = RunEnd::Limit { at: steps };
    let beginning = log_of(pages, inputs, digest, records, cut);
    let tail = Tail {
        records: later,
        end,
    };
    Ok((beginning, tail))
}

/// The log that goes on with a tail in place of its end, where that is one. It gives up with NoMemory alone.
pub fn join(log: Log, tail: Tail) -> Result<Log, NoMemory>
    requires form { IsLog (followed_by log tail) }
    requires limit { length (log_text Two (followed_by log tail)) ≤ 2 ^ 27 }
    ensures { IfOk result (λ whole. whole ≡ followed_by log tail) }
{
    let pages = log.pages();
    let inputs = log.inputs();
    let digest = log.digest();
    let Tail {
        records: mut later,
        end,
    } = tail;
    let mut records = log.into_records();
    records.append(&mut later)?;
    Ok(log_of(pages, inputs, digest, records, end))
}
