//! How much of a run is analysed for a query, and where it is cut into epochs.
ghost use Rattle.std.specs.Prelude.{◌≡◌, ◌≤◌, None, IfOk};
ghost use Rattle.log_model.specs.Logs.{steps};
ghost use Rattle.epoch_model.specs.ByLength.{epoch_count, cut_times};
ghost use Rattle.epoch_model.specs.Cutting.{IsCutting};
ghost use Rattle.jet_words.specs.Commands.{IsPipeline};
ghost use Rattle.jet_model.specs.Lengths.{epoch_length, times_of_moves, times_of_computed, cuts_by};
ghost use Rattle.jet_model.specs.Answer.{epochs_check, told_check};
ghost use Rattle.command_parts.specs.Outcome.{IsWork, seen_by};
ghost use Rattle.run_query.specs.Parts.{IsEnough};
ghost use Rattle.jet_commands.specs.Parts.{part_by};

use epoch_cut::laws::{
    cut_times_are_cutting, long_first_times_are_cutting, shrinking_times_are_cutting,
};
use epoch_cut::{CutFault, Cuts, MOST_SHRINKING, cuts, long_first_cuts, shrinking_cuts};
use flow_model::Rule;
use jet_refusal::Refusal;
use jet_words::Pipeline;
use query_lang::Query;
use replay_log::Log;
use replayer::steps_of;
use run_beginning::needed_steps;
use run_query::Part;

/// An epoch has at least so many steps, but for those that get shorter and for the last one, unless the words tell its length.
const LEAST_LENGTH: u64 = 262144;

/// The first epoch has so many lengths where computed values are followed, unless the words tell the length: it ends when the others
/// do, which begin later and cost more.
const LENGTHS_OF_FIRST: u32 = 3;

/// The cuts of so many steps of a run, into as many epochs as workers at most, where moves alone are followed.
fn cuts_of_moves(steps: u64, workers: u32) -> Cuts
    ensures times { result ≡ times_of_moves workers steps }
    ensures cutting { IsCutting steps result }
{
    shrinking_times_are_cutting();
    let most = workers.min(MOST_SHRINKING);
    let epochs = (steps / LEAST_LENGTH).min(u64::from(most)).max(1);
    shrinking_cuts(steps, epochs as u32)
}

/// The cuts of so many steps of a run, into as many epochs as workers at most, where computed values are followed too.
fn cuts_of_computed(steps: u64, workers: u32) -> Cuts
    requires { workers ≤ 64 }
    ensures times { result ≡ times_of_computed workers steps }
    ensures cutting { IsCutting steps result }
{
    long_first_times_are_cutting();
    let lengths = u64::from(workers) + u64::from(LENGTHS_OF_FIRST) - 1;
    // The last epoch has three quarters of a length.
    let quarters = 4 * lengths - 1;
    let length = (4 * steps.div_ceil(quarters)).max(LEAST_LENGTH);
    match long_first_cuts(steps, length, LENGTHS_OF_FIRST) {
        Ok(cuts) => cuts,
        Err(CutFault::TooMany(_)) => unreachable!(),
    }
}

/// The cuts of so many steps of a run for a query with this rule, into as many epochs as workers at most.
fn untold_cuts(rule: Rule, steps: u64, workers: u32) -> Cuts
    requires { workers ≤ 64 }
    ensures times { result ≡ cuts_by None rule workers steps }
    ensures cutting { IsCutting steps result }
{
    match rule {
        Rule::Copy | Rule::Keep => cuts_of_moves(steps, workers),
        Rule::Compute | Rule::Index => cuts_of_computed(steps, workers),
    }
}

/// The cuts of a log's run into epochs of this length. It gives up with `TooManyEpochs`.
pub fn cuts_of(log: &Log, epoch: u64) -> Result<Cuts, Refusal>
    requires { 1 ≤ epoch }
    ensures times { IfOk result (λ cuts. cuts ≡ cut_times (steps log.now) epoch) }
    ensures check { IsWork (epochs_check epoch log.now) (seen_by (λ cuts. tt) result) }
    ensures cutting { IfOk result (λ cuts. IsCutting (steps log.now) cuts) }
{
    cut_times_are_cutting();
    match cuts(steps_of(log), epoch) {
        Ok(cuts) => Ok(cuts),
        Err(CutFault::TooMany(count)) => Err(Refusal::TooManyEpochs(count)),
    }
}

/// The cuts of a log's run into epochs for a query with this rule, as the words tell their length, or as there are workers. It gives
/// up with `TooManyEpochs`, where a length is told.
fn cuts_by(log: &Log, rule: Rule, pipeline: Pipeline) -> Result<Cuts, Refusal>
    requires { IsPipeline pipeline }
    ensures times { IfOk result (λ cuts. cuts ≡ cuts_by pipeline.epoch rule pipeline.workers (steps log.now)) }
    ensures check { IsWork (told_check pipeline.epoch log.now) (seen_by (λ cuts. tt) result) }
    ensures cutting { IfOk result (λ cuts. IsCutting (steps log.now) cuts) }
{
    match pipeline.epoch {
        Some(length) => cuts_of(log, length),
        None => Ok(untold_cuts(rule, steps_of(log), pipeline.workers)),
    }
}

/// The cuts of so many first steps of a run into epochs for a query with this rule, as the words tell their length, or as there are
/// workers.
fn cuts_of_beginning(beginning: u64, rule: Rule, pipeline: Pipeline) -> Cuts
    requires pipeline { IsPipeline pipeline }
    requires few { epoch_count beginning (epoch_length pipeline.epoch pipeline.workers beginning) ≤ 4096 }
    ensures times { result ≡ cuts_by pipeline.epoch rule pipeline.workers beginning }
    ensures cutting { IsCutting beginning result }
{
    cut_times_are_cutting();
    let Some(length) = pipeline.epoch else {
        return untold_cuts(rule, beginning, pipeline.workers);
    };
    match cuts(beginning, length) {
        Ok(cuts) => cuts,
        Err(CutFault::TooMany(_)) => unreachable!(),
    }
}

/// What of a log's run is analysed for a query: the whole run, where its rows need half of the steps, since the replay that
/// checks the log can then serve the query too; else the steps alone that they need. It gives up with `TooManyEpochs`, where
/// a length is told by which the whole run has too many.
pub fn part_for(log: &Log, query: &Query, pipeline: Pipeline) -> Result<Part, Refusal>
    requires { IsPipeline pipeline }
    ensures part { IfOk result (λ part. part ≡ part_by pipeline.epoch pipeline.workers query.now log.now) }
    ensures check { IsWork (told_check pipeline.epoch log.now) (seen_by (λ part. tt) result) }
    ensures enough { IfOk result (IsEnough query.now log.now) }
{
    let rule = query.rule();
    let whole = cuts_by(log, rule, pipeline)?;
    let needed = needed_steps(log, query);
    if needed >= steps_of(log) / 2 {
        return Ok(Part::Whole(whole));
    }
    let cuts = cuts_of_beginning(needed, rule, pipeline);
    Ok(Part::Beginning {
        steps: needed,
        cuts,
    })
}
