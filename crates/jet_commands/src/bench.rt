//! The command `bench`: the workload's run is recorded in memory and analysed, and its numbers are printed.
ghost use Rattle.std.specs.Prelude.{◌≡◌, ◌≤◌, ℕ, Err, IfOk, IfErr};
ghost use Rattle.log_model.specs.Logs.{steps as steps_of};
ghost use Rattle.replayer.specs.Jobs.{trace_of};
ghost use Rattle.epoch_model.specs.Cutting.{IsCutting};
ghost use Rattle.order_gateway.specs.Lines.{numbers_of, bench_text};
ghost use Rattle.order_gateway.specs.Answer.{IsBenchAnswer};
ghost use Rattle.jet_words.specs.Commands.{IsPipeline};
ghost use Rattle.command_parts.specs.Outcome.{seen_by};
ghost use Rattle.jet_commands.specs.Targets.{ToOutput};
ghost use Rattle.jet_commands.specs.Answers.{IsWorkOf, workload_length};
ghost use Rattle.jet_commands.specs.Obeying.{given_text, given_target};
ghost use Rattle.jet_commands.specs.Bench.{IsWorkloadJob, asked_in_all};

use crate::delivery::Given;
use crate::parts::cuts_of;
use crate::pieces::Answer;
use crate::resources::{Resources, parallelism_of};
use crate::tellings::fitted;
use command_parts::Run;
use epoch_cut::Cuts;
use epoch_engine::Engine;
use jet_refusal::Refusal;
use jet_words::Pipeline;
use no_memory::NoMemory;
use order_gateway::{MOST_STEPS, Numbers, Recording, query, recorded, text_of};
use query_lang::Query;
use replayer::Job;
use run_query::Crossed;
use sha2::{Digest, Sha256};
use sink_collect::text;
use std::alloc::Global;

/// The length of the epochs of the workload's run, where the words don't tell it.
const WORKLOAD_LENGTH: u64 = 4096;

/// The recorded run of the workload. It gives up with `LogTooLong`, or is out of memory.
fn workload_job(alloc: Global, seed: u64, steps: u64) -> Result<Job, Refusal>
    requires { steps ≤ MOST_STEPS }
    ensures ok { IfOk result (IsWorkloadJob seed steps) }
    ensures err { IfErr result (λ r. (epoch : ℕ) → IsWorkOf (IsBenchAnswer seed steps epoch) (Err r)) }
{
    let recording = recorded(alloc, seed, steps)?;
    let Recording { program, log } = recording;
    fitted(alloc, Run { program, log })
}

/// How many locations were asked at the cuts in all, or 2^64 - 1 where they are more.
fn count_asked(crossed: &[Crossed]) -> u64
    ensures { result ≡ asked_in_all crossed.now }
{
    let mut count = 0u64;
    for crossing in crossed {
        count = count.saturating_add(crossing.asked().len() as u64);
    }
    count
}

/// The numbers of a query over the run, of which the epochs are analysed.
fn numbers<E: Engine>(
    resources: &Resources<'_, E>,
    job: &Job,
    query: &Query,
    cuts: Cuts,
    pipeline: Pipeline,
) -> Result<Numbers, NoMemory>
    requires ready { E.ready resources.now.engine.now }
    requires cuts { IsCutting (steps_of job.now.log) cuts }
    requires pipeline { IsPipeline pipeline }
    ensures { IfOk result (λ numbers. numbers ≡ numbers_of query.now cuts (trace_of job.now)) }
{
    let epochs = u64::from(cuts.count());
    let found = run_query::query(
        resources.engine,
        resources.alloc,
        job,
        query,
        cuts,
        parallelism_of(pipeline),
    )?;
    let text = text(resources.alloc, &found.report)?;
    Ok(Numbers {
        steps: job.steps(),
        epochs,
        sinks: found.report.lines(),
        pairs: found.report.pairs(),
        asked: count_asked(&found.crossed),
        digest: Sha256::digest(&text),
        events: found.events,
    })
}

/// The lines of the run with these cuts.
fn lines<E: Engine>(
    resources: &Resources<'_, E>,
    job: &Job,
    cuts: Cuts,
    pipeline: Pipeline,
) -> Result<Vec<u8>, NoMemory>
    requires ready { E.ready resources.now.engine.now }
    requires cuts { IsCutting (steps_of job.now.log) cuts }
    requires pipeline { IsPipeline pipeline }
    ensures { IfOk result (λ text. text.items ≡ bench_text cuts (trace_of job.now)) }
{
    let query = query(resources.alloc)?;
    let numbers = numbers(resources, job, &query, cuts, pipeline)?;
    text_of(resources.alloc, &numbers)
}

/// The lines of the workload's run by this seed, of so many steps. It gives up with `LogTooLong`, then with
/// `TooManyEpochs`, or is out of memory.
pub fn bench<'a, E: Engine>(
    resources: &Resources<'_, E>,
    seed: u64,
    steps: u64,
    pipeline: Pipeline,
) -> Result<Given<'a>, Refusal>
    requires ready { E.ready resources.now.engine.now }
    requires steps { steps ≤ MOST_STEPS }
    requires pipeline { IsPipeline pipeline }
    ensures answer { IsWorkOf (IsBenchAnswer seed steps (workload_length pipeline)) (seen_by given_text result) }
    ensures goes { IfOk result (λ given. given_target given ≡ ToOutput) }
{
    let job = workload_job(resources.alloc, seed, steps)?;
    let length = pipeline.epoch.unwrap_or(WORKLOAD_LENGTH);
    let cuts = cuts_of(job.log(), length)?;
    let text = lines(resources, &job, cuts, pipeline)?;
    Ok(Given::Told(Answer::Whole(text)))
}
