//! The work over a program and a log that were read, but for the analysis of the run: the log is fitted to its program, the
//! run is replayed, and what a command gives is found.
ghost use Rattle.std.specs.Prelude.{◌≡◌, Err, IfOk, IfErr};
ghost use Rattle.replayer.specs.Checks.{IsChecked};
ghost use Rattle.replayer.specs.Jobs.{trace_of};
ghost use Rattle.report_model.specs.Rows.{rows};
ghost use Rattle.report_model.specs.Influence.{influence};
ghost use Rattle.jet_model.specs.Answer.{fitting_start, limited_text};
ghost use Rattle.command_parts.specs.Outcome.{IsWork, seen_by, bytes_of};
ghost use Rattle.command_parts.specs.Views.{run_of};
ghost use Rattle.jet_commands.specs.Answers.{format_text, format_target, made_by, made_of, making_target};
ghost use Rattle.jet_commands.specs.Obeying.{given_text, given_target};

use crate::delivery::Given;
use crate::path::path_text;
use crate::pieces::Answer;
use command_parts::{LONGEST_FILE, Run};
use core_file::core_file;
use elf_image::Program;
use jet_refusal::Refusal;
use jet_words::{Listing, Product};
use no_memory::NoMemory;
use page_data::{page, sources_of};
use query_lang::Query;
use range_report::shown;
use replay_log::write_log;
use replayer::Job;
use run_output::{calls_text, input_on, output_on, stacks_text, summary_text};
use sink_collect::{Influence, Report, turn_round};
use std::alloc::Global;

/// What is told of the rows of a query.
#[derive(Clone, Copy)]
pub enum Format<'a> {
    /// A text to read, line by line.
    Listed(Listing),
    /// The page of the query, as a file of this name.
    Page(&'a str),
}

/// What is made of a run without a query.
#[derive(Clone, Copy)]
pub enum Making<'a> {
    /// A text of the whole run.
    Product(Product),
    /// The calls in progress after so many steps each.
    Stacks(&'a [u64]),
    /// The state after so many steps, as a core file of this name.
    Core { name: &'a str, time: u64 },
    /// The log in version 2, as a file of this name.
    Converted { name: &'a str },
}

/// A run whose log fits its program.
pub fn fitted(alloc: Global, run: Run) -> Result<Job, Refusal>
    ensures ok { IfOk result (λ job. IsChecked run.program.bytes.items run.program.image run.log job) }
    ensures err { IfErr result (λ r. IsWork (fitting_start (run_of run).program run.log) (Err r)) }
{
    let Run { program, log } = run;
    let Program { bytes, image } = program;
    let job = Job::check(alloc, &bytes, image, log)?;
    Ok(job)
}

/// The influence of the source bytes that the run received and a query chooses, by the query's report.
fn influence_of(
    alloc: Global,
    job: &Job,
    query: &Query,
    report: &Report,
) -> Result<Influence, NoMemory>
    requires { report.now ≡ rows query.now (trace_of job.now) }
    ensures { IfOk result (λ reaches. reaches ≡ influence query.now (trace_of job.now)) }
{
    let sources = sources_of(alloc, job, query)?;
    turn_round(alloc, report, &sources)
}

/// What is told of the rows of a query. It gives up with NoMemory alone.
pub fn told<'a>(
    alloc: Global,
    job: &Job,
    query: &Query,
    report: Report,
    format: Format<'a>,
) -> Result<Given<'a>, NoMemory>
    requires { report ≡ rows query.now (trace_of job.now) }
    ensures text { IfOk result (λ given.
        given_text given ≡ format_text format.entry query.now job.now.start job.now.log) }
    ensures goes { IfOk result (λ given. given_target given ≡ format_target format.entry) }
{
    match format {
        Format::Listed(Listing::BySink) => Ok(Given::Told(Answer::Rows(report))),
        Format::Listed(Listing::BySource) => {
            let influence = influence_of(alloc, job, query, &report)?;
            Ok(Given::Told(Answer::Turned(influence)))
        }
        Format::Listed(Listing::ByPath) => {
            let text = path_text(alloc, job, query, &report)?;
            Ok(Given::Told(Answer::Whole(text)))
        }
        Format::Listed(Listing::ByRange) => {
            let text = shown(alloc, &report, job.log())?;
            Ok(Given::Told(Answer::Whole(text)))
        }
        Format::Page(name) => {
            let content = page(alloc, job, query, &report)?;
            Ok(Given::Made { name, content })
        }
    }
}

/// The text that is made of a whole run. It gives up with NoMemory alone.
fn product_text(alloc: Global, job: &Job, product: Product) -> Result<Vec<u8>, NoMemory>
    ensures { IfOk result (λ text. text.items ≡ made_by product job.now.start job.now.log) }
{
    match product {
        Product::Numbers => summary_text(alloc, &job.summary()),
        Product::Calls => calls_text(alloc, job.log()),
        Product::Input(channel) => input_on(alloc, job.log().records(), channel),
        Product::Output(channel) => output_on(alloc, job.log().records(), channel),
    }
}

/// The log of a run in version 2. It gives up with `LogTooLong`, where that has more than 2^26 bytes.
fn converted(alloc: Global, job: &Job) -> Result<Vec<u8>, Refusal>
    ensures { IsWork (limited_text job.now.log) (seen_by bytes_of result) }
{
    job.form();
    let log = job.log();
    let size = log.size();
    if size > LONGEST_FILE as u64 {
        return Err(Refusal::LogTooLong(size));
    }
    let text = write_log(alloc, log)?;
    Ok(text)
}

/// What is made of a run without a query.
pub fn made<'a>(alloc: Global, job: &Job, making: Making<'a>) -> Result<Given<'a>, Refusal>
    ensures answer { IsWork (made_of making.entry job.now.start job.now.log) (seen_by given_text result) }
    ensures goes { IfOk result (λ given. given_target given ≡ making_target making.entry) }
{
    match making {
        Making::Product(product) => {
            let text = product_text(alloc, job, product)?;
            Ok(Given::Told(Answer::Whole(text)))
        }
        Making::Stacks(times) => {
            let text = stacks_text(alloc, job, times)?;
            Ok(Given::Told(Answer::Whole(text)))
        }
        Making::Core { name, time } => {
            let content = core_file(alloc, job, time)?;
            Ok(Given::Made { name, content })
        }
        Making::Converted { name } => {
            let content = converted(alloc, job)?;
            Ok(Given::Made { name, content })
        }
    }
}
