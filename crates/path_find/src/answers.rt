//! The text of a path over the run of a job.

ghost use Rattle.std.specs.Prelude.{◌≡◌, ◌≤◌, Some, IfOk, IfErr, IfSome};
ghost use Rattle.log_model.specs.Logs.{steps};
ghost use Rattle.flow_model.specs.declared.Rule.{Rule as RuleOfFlow};
ghost use Rattle.report_model.specs.Query.{Query as QueryOf};
ghost use Rattle.report_model.specs.Rows.{rows};
ghost use Rattle.no_memory.specs.Faults.{IsCausedBy};
ghost use Rattle.path_find.specs.FirstPair.{first_pair};
ghost use Rattle.replayer.specs.Checks.{IsChecked, IsMisfit};
ghost use Rattle.replayer.specs.Jobs.{trace_of};
ghost use Rattle.path_find.specs.Sinks.{IsLocated, path_of};
ghost use Rattle.path_find.specs.Stops.{AreBefore};
ghost use Rattle.path_find.specs.Answer.{found_report, pair_report, path_report};
ghost use Rattle.path_find.specs.Watched.{IsPathIn};

use crate::Pair;
use crate::finding::{SinkPath, find_path};
use crate::passes::stops;
use crate::watching::PathWatching;
use crate::writing::{End, text, text_of_none};
use elf_image::Program;
use flow_model::Rule;
use no_memory::NoMemory;
use replay_log::Log;
use replayer::{CheckFault, Job};
use std::alloc::Global;

/// The text of the path of a pair in the run of a job, by a rule: `end 0` where there is no pair, or no path. It fails only
/// where there is no memory.
pub fn answer(alloc: Global, job: &Job, rule: Rule, pair: Option<Pair>) -> Result<Vec<u8>, NoMemory>
    requires located { IfSome pair IsLocated }
    ensures text { IfOk result (λ text. text.items ≡ pair_report job.now rule pair) }

    // The pair is the first of the report of a query with this rule.
    ensures report { IfOk result (λ text. (q : QueryOf) → q.rule ≡ rule → first_pair (rows q (trace_of job.now)) ≡ pair
        → text.items ≡ path_report job.now.start job.now.log q) }
{
    let Some(pair) = pair else {
        return text_of_none(alloc);
    };
    let found = find_path(alloc, job, rule, pair)?;
    text_of(alloc, job, pair, found)
}

/// Checks that a log fits a program, and gives the job of its run, and the text of the path of a pair in it, as [`answer`] does.
/// The path is found in the replay that checks the log; one more tells its steps.
///
/// The fault is that of [`Job::check`]: the first misfit that holds, or out of memory.
pub fn check_and_answer(
    alloc: Global,
    program: Program,
    log: Log,
    rule: Rule,
    pair: Pair,
) -> Result<(Job, Vec<u8>), CheckFault>
    requires located { IsLocated pair }
    ensures checked { IfOk result (λ r. IsChecked program.bytes.items program.image log r.0) }
    ensures text { IfOk result (λ r. r.1.items ≡ pair_report r.0 rule (Some pair)) }
    ensures fault { IfErr result (IsCausedBy (IsMisfit program.bytes.items program.image log)) }
{
    let mut watching = PathWatching::new(alloc, rule, pair);
    let Program { bytes, image } = program;
    let job = Job::check_watched(alloc, &bytes, image, log, &mut watching)?;
    let found = watching.finish(&job)?;
    let text = text_of(alloc, &job, pair, found)?;
    Ok((job, text))
}

/// The text of the path of a pair, if there is one.
fn text_of(
    alloc: Global,
    job: &Job,
    pair: Pair,
    found: Option<SinkPath>,
) -> Result<Vec<u8>, NoMemory>
    requires falls { IfSome found (λ f. AreBefore f.time f.arrivals.items) }
    requires inside { IfSome found (λ f. f.time ≤ steps job.now.log) }
    ensures { IfOk result (λ text. (rule : RuleOfFlow) → IsPathIn rule pair (trace_of job.now) found
        → text.items ≡ pair_report job.now rule (Some pair)) }
{
    match found {
        None => text_of_none(alloc),
        Some(found) => found_text(alloc, job, pair, &found),
    }
}

/// The text of a path that was found.
fn found_text(alloc: Global, job: &Job, pair: Pair, found: &SinkPath) -> Result<Vec<u8>, NoMemory>
    requires falls { AreBefore found.now.time found.now.arrivals.items }
    requires inside { found.now.time ≤ steps job.now.log }
    ensures { IfOk result (λ text. text.items ≡ found_report job.now pair.source (path_of found.now)) }
{
    job.form();
    let (stops, pc) = stops(alloc, job, &found.arrivals, found.time)?;
    let end = End {
        name: found.name,
        number: found.time,
        pc,
        loc: found.loc,
    };
    text(alloc, pair.source, &end, &stops)
}
