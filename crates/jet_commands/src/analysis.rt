//! The analysis of a run, of a program and a log that were read, for one query and for several; and its decisions.
ghost use Rattle.std.specs.Prelude.{◌≡◌, ◌≤◌, List, Ok, Err, Some, None, length, IfOk, IfErr, OnOk};
ghost use Rattle.flow_model.specs.declared.StepSeen.{StepSeen as Step};
ghost use Rattle.replayer.specs.Checks.{IsChecked};
ghost use Rattle.replayer.specs.Jobs.{trace_of};
ghost use Rattle.report_model.specs.Query.{Query as Choice};
ghost use Rattle.report_model.specs.Rows.{rows};
ghost use Rattle.jet_refusal.specs.Faults.{IsOutOfMemory};
ghost use Rattle.jet_model.specs.Report.{reports_from};
ghost use Rattle.path_find.specs.Sinks.{IsLocated};
ghost use Rattle.path_find.specs.Answer.{pair_report};
ghost use Rattle.jet_words.specs.Commands.{IsPipeline};
ghost use Rattle.jet_model.specs.Answer.{told_check};
ghost use Rattle.command_parts.specs.Outcome.{IsWork, seen_by};
ghost use Rattle.command_parts.specs.Views.{run_of};
ghost use Rattle.jet_commands.specs.Targets.{ToOutput};
ghost use Rattle.jet_commands.specs.Answers.{IsWorkOf, IsGivenAlike, AreGivenAlike, IsUnion, fits_and_is_cut};
ghost use Rattle.jet_commands.specs.Answers.{decisions_by, format_text, format_target};
ghost use Rattle.jet_commands.specs.Obeying.{given_text, given_target};

use crate::delivery::Given;
use crate::parts::part_for;
use crate::path::pair_told;
use crate::pieces::Answer;
use crate::reports::{own_parts, union_of};
use crate::resources::{Resources, parallelism_of};
use crate::tellings::{Format, fitted, told};
use command_parts::Run;
use decision_find::check_and_decide;
use epoch_engine::Engine;
use jet_refusal::Refusal;
use jet_words::Pipeline;
use page_data::laws::alike_have_same_data;
use path_find::{Pair, check_and_answer};
use query_lang::Query;
use replayer::Job;
use run_query::check_and_query;
use sink_collect::Report;
use std::alloc::Global;

/// A run whose log fits its program, and the rows of the query over it. The misfits of the log come first, and then
/// `TooManyEpochs`, where a length is told.
fn analysed_run<E: Engine>(
    resources: &Resources<'_, E>,
    run: Run,
    query: &Query,
    pipeline: Pipeline,
) -> Result<(Job, Report), Refusal>
    requires ready { E.ready resources.now.engine.now }
    requires pipeline { IsPipeline pipeline }
    ensures checked { IfOk result (λ r. IsChecked run.program.bytes.items run.program.image run.log r.0) }
    ensures few { OnOk result (told_check pipeline.epoch run.log ≡ Ok tt) }
    ensures report { IfOk result (λ r. r.1 ≡ rows query.now (trace_of r.0)) }
    ensures err { IfErr result (λ r. IsWork (fits_and_is_cut pipeline.epoch (run_of run)) (Err r)) }
{
    match part_for(&run.log, query, pipeline) {
        Ok(part) => {
            let Run { program, log } = run;
            let found = check_and_query(
                resources.engine,
                resources.alloc,
                program,
                log,
                query,
                part,
                parallelism_of(pipeline),
            )?;
            Ok(found)
        }
        Err(refusal) => {
            let _job = fitted(resources.alloc, run)?;
            Err(refusal)
        }
    }
}

/// A run whose log fits its program, and the path of the pair that the query names. It gives up as [`analysed_run`] does.
fn named_path(
    alloc: Global,
    run: Run,
    query: &Query,
    pair: Pair,
    pipeline: Pipeline,
) -> Result<(Job, Vec<u8>), Refusal>
    requires pipeline { IsPipeline pipeline }
    requires located { IsLocated pair }
    ensures checked { IfOk result (λ r. IsChecked run.program.bytes.items run.program.image run.log r.0) }
    ensures few { OnOk result (told_check pipeline.epoch run.log ≡ Ok tt) }
    ensures text { IfOk result (λ r. r.1.items ≡ pair_report r.0 query.now.rule (Some pair)) }
    ensures err { IfErr result (λ r. IsWork (fits_and_is_cut pipeline.epoch (run_of run)) (Err r)) }
{
    match part_for(&run.log, query, pipeline) {
        Ok(_) => {
            let Run { program, log } = run;
            let found = check_and_answer(alloc, program, log, query.rule(), pair)?;
            Ok(found)
        }
        Err(refusal) => {
            let _fits = fitted(alloc, run)?;
            Err(refusal)
        }
    }
}

/// What is told of the rows of a query over the run. It gives up as [`analysed_run`] does.
pub fn analysed<'a, E: Engine>(
    resources: &Resources<'_, E>,
    run: Run,
    query: &Query,
    format: Format<'a>,
    pipeline: Pipeline,
) -> Result<Given<'a>, Refusal>
    requires ready { E.ready resources.now.engine.now }
    requires pipeline { IsPipeline pipeline }
    ensures answer { IsWorkOf (IsGivenAlike (format_text format.entry) pipeline.epoch (run_of run) query.now)
        (seen_by given_text result) }
    ensures goes { IfOk result (λ given. given_target given ≡ format_target format.entry) }
{
    alike_have_same_data();
    if let Some(pair) = pair_told(format, query) {
        let (_job, text) = named_path(resources.alloc, run, query, pair, pipeline)?;
        return Ok(Given::Told(Answer::Whole(text)));
    }
    let (job, report) = analysed_run(resources, run, query, pipeline)?;
    let given = told(resources.alloc, &job, query, report, format)?;
    Ok(given)
}

/// Where a source byte of a query could turn the run. It gives up as [`fitted`] does.
pub fn decided<'a>(alloc: Global, run: Run, query: &Query) -> Result<Given<'a>, Refusal>
    ensures answer { IsWorkOf (IsGivenAlike decisions_by None (run_of run) query.now) (seen_by given_text result) }
    ensures goes { IfOk result (λ given. given_target given ≡ ToOutput) }
{
    let Run { program, log } = run;
    let (_job, text) = check_and_decide(alloc, program, log, query)?;
    Ok(Given::Told(Answer::Whole(text)))
}

/// The reports of several queries over the run, for all queries that these stand for. The rules are compared first; then
/// the run is analysed once for all.
pub fn reports<'a, E: Engine>(
    resources: &Resources<'_, E>,
    run: Run,
    queries: &[Query],
    pipeline: Pipeline,
) -> Result<Given<'a>, Refusal>
    requires ready { E.ready resources.now.engine.now }
    requires some { 1 ≤ length queries.now }
    requires few { length queries.now ≤ 16 }
    requires pipeline { IsPipeline pipeline }
    ensures answer { IsWorkOf (AreGivenAlike pipeline.epoch (run_of run) queries.now) (seen_by given_text result) }
    ensures goes { IfOk result (λ given. given_target given ≡ ToOutput) }
{
    let union = union_of(resources.alloc, queries)?;
    let (_job, all) = analysed_run(resources, run, &union, pipeline)?;
    several(resources.alloc, &all, queries)
}

/// The reports of several queries, by the rows of one that asks for what any of them does.
fn several<'a>(alloc: Global, all: &Report, queries: &[Query]) -> Result<Given<'a>, Refusal>
    ensures text { IfOk result (λ given. (union : Choice) (trace : List Step)
        → IsUnion queries.now union → all.now ≡ rows union trace → given_text given ≡ reports_from 1 queries.now trace) }
    ensures goes { IfOk result (λ given. given_target given ≡ ToOutput) }
    ensures err { IfErr result IsOutOfMemory }
{
    let reports = own_parts(alloc, all, queries)?;
    Ok(Given::Told(Answer::Several(reports)))
}
