//! What a command gives: its files are read one after another, and a text, or what it is made of, comes of them.
ghost use Rattle.std.specs.Prelude.{◌≡◌, ◌≤◌, ◌∷◌, [], length, map, None};
ghost use Rattle.jet_model.specs.Contents.{run_at};
ghost use Rattle.jet_model.specs.Outcomes.{and_then};
ghost use Rattle.jet_model.specs.Answer.{query_answer, queries_answer};
ghost use Rattle.jet_words.specs.Commands.{plain_command, IsPipeline, IsInRange};
ghost use Rattle.jet_commands.specs.Targets.{ToOutput};
ghost use Rattle.jet_commands.specs.Answers.{decisions_by, format_text, format_target, making_answer, making_target, named};
ghost use Rattle.jet_commands.specs.Obeying.{Gives, IsGiven};

use crate::analysis::{analysed, decided, reports};
use crate::bench::bench;
use crate::delivery::Given;
use crate::queries::{open_queries, open_query};
use crate::recorded::{Limits, record};
use crate::resources::Resources;
use crate::tellings::{Format, Making, fitted, made};
use command_parts::open_run;
use epoch_engine::Engine;
use jet_refusal::Refusal;
use jet_words::{Command, Pipeline};
use outer_io::{Clock, Store};
use std::alloc::Global;

/// What is told of the rows of a query.
fn analysis<'a, E: Engine, S: Store>(
    resources: &Resources<'_, E>,
    store: &mut S,
    program: &str,
    log: &str,
    query: &str,
    format: Format<'a>,
    pipeline: Pipeline,
) -> Result<Given<'a>, Refusal>
    requires ready { E.ready resources.now.engine.now }
    requires pipeline { IsPipeline pipeline }
    ensures { Gives (λ file answer.
        query_answer (format_text format.entry) pipeline.epoch file (named program.now log.now query.now) ≡ answer)
        (program.now ∷ log.now ∷ query.now ∷ []) (format_target format.entry) (S.shown store.old) (S.shown store.new)
        result }
{
    let run = open_run(resources.alloc, store, program, log)?;
    let query = open_query(resources.alloc, store, None, query)?;
    analysed(resources, run, &query, format, pipeline)
}

/// Where a source byte of a query could turn a run.
fn decisions<'a, S: Store>(
    alloc: Global,
    store: &mut S,
    program: &str,
    log: &str,
    query: &str,
) -> Result<Given<'a>, Refusal>
    ensures { Gives (λ file answer.
        query_answer decisions_by None file (named program.now log.now query.now) ≡ answer)
        (program.now ∷ log.now ∷ query.now ∷ []) ToOutput (S.shown store.old) (S.shown store.new) result }
{
    let run = open_run(alloc, store, program, log)?;
    let query = open_query(alloc, store, None, query)?;
    decided(alloc, run, &query)
}

/// The reports of several queries.
fn queries<'a, E: Engine, S: Store>(
    resources: &Resources<'_, E>,
    store: &mut S,
    program: &str,
    log: &str,
    names: &[&str],
    pipeline: Pipeline,
) -> Result<Given<'a>, Refusal>
    requires ready { E.ready resources.now.engine.now }
    requires some { 1 ≤ length names.now }
    requires few { length names.now ≤ 16 }
    requires pipeline { IsPipeline pipeline }
    ensures { Gives (λ file answer.
        queries_answer pipeline.epoch file program.now log.now (map (λ name. name.now) names.now) ≡ answer)
        (program.now ∷ log.now ∷ map (λ name. name.now) names.now) ToOutput (S.shown store.old) (S.shown store.new)
        result }
{
    let run = open_run(resources.alloc, store, program, log)?;
    let queries = open_queries(resources.alloc, store, names)?;
    reports(resources, run, &queries, pipeline)
}

/// What is made of a run without a query.
fn run_product<'a, S: Store>(
    alloc: Global,
    store: &mut S,
    program: &str,
    log: &str,
    making: Making<'a>,
) -> Result<Given<'a>, Refusal>
    ensures { Gives (λ file answer.
        and_then (run_at file program.now log.now) (making_answer making.entry) ≡ answer)
        (program.now ∷ log.now ∷ []) (making_target making.entry) (S.shown store.old) (S.shown store.new) result }
{
    let run = open_run(alloc, store, program, log)?;
    let job = fitted(alloc, run)?;
    made(alloc, &job, making)
}

/// What a command gives, which `deliver` writes: what it reads, what is told of that, and where that goes.
pub fn answer<'a, E: Engine, S: Store, K: Clock>(
    resources: &Resources<'_, E>,
    store: &mut S,
    clock: &mut K,
    command: &'a Command<'_>,
) -> Result<Given<'a>, Refusal>
    requires ready { E.ready resources.now.engine.now }
    requires ranges { IsInRange (plain_command command.now) }
    ensures { IsGiven (plain_command command.now) (S.shown store.old) (S.shown store.new)
        (K.answers clock.old) (K.answers clock.new) (clock.new ≡ clock.old) result }
{
    let alloc = resources.alloc;
    match command {
        Command::Analysis {
            listing,
            program,
            log,
            query,
            pipeline,
        } => {
            let format = Format::Listed(*listing);
            analysis(resources, store, *program, *log, *query, format, *pipeline)
        }
        Command::Page {
            program,
            log,
            query,
            page,
            pipeline,
        } => {
            let format = Format::Page(*page);
            analysis(resources, store, *program, *log, *query, format, *pipeline)
        }
        Command::Decisions {
            program,
            log,
            query,
        } => decisions(alloc, store, *program, *log, *query),
        Command::Queries {
            program,
            log,
            queries: names,
            pipeline,
        } => queries(resources, store, *program, *log, names, *pipeline),
        Command::Product {
            product,
            program,
            log,
        } => run_product(alloc, store, *program, *log, Making::Product(*product)),
        Command::Stacks {
            program,
            log,
            times,
        } => run_product(
            alloc,
            store,
            *program,
            *log,
            Making::Stacks(times.as_slice()),
        ),
        Command::Core {
            program,
            log,
            time,
            core,
        } => {
            let core = Making::Core {
                name: *core,
                time: *time,
            };
            run_product(alloc, store, *program, *log, core)
        }
        Command::Convert { program, log, new } => {
            run_product(
                alloc,
                store,
                *program,
                *log,
                Making::Converted { name: *new },
            )
        }
        Command::Record {
            program,
            log,
            inputs,
            pages,
            piece,
            steps,
        } => {
            let limits = Limits {
                pages: *pages,
                piece: *piece,
                steps: *steps,
            };
            record(alloc, store, clock, *program, inputs, limits, *log)
        }
        Command::Bench {
            seed,
            steps,
            pipeline,
        } => bench(resources, *seed, *steps, *pipeline),
    }
}
