//! The data of a page.

ghost use Rattle.std.specs.Prelude.{◌≡◌, ◌++◌, length, OnOk};
ghost use Rattle.replayer.specs.Jobs.{trace_of};
ghost use Rattle.page_data.specs.Data.{run_text, moved_text, asked, asked_text, told_text, data_text};

use crate::calls::push_calls;
use crate::channels::push_channels;
use crate::rows::{push_ranges, push_rows};
use crate::sources::sources_of;
use jet_refusal::rule_name;
use no_memory::NoMemory;
use query_lang::Query;
use replay_log::Log;
use replayer::Job;
use run_output::{Way, push_number, summary_text};
use sink_collect::Report;
use source_ranges::SourceSet;
use std::alloc::Global;

/// Appends the digest of the program, and the run's numbers.
#[tactic(auto, unfolding(crate::specs::Data::run_text))]
fn push_run(alloc: Global, out: &mut Vec<u8>, job: &Job) -> Result<(), NoMemory>
    ensures { OnOk result (out.new.items ≡ out.old.items ++ run_text job.now.log) }
{
    let digest = job.log().digest();
    let mut digits = [0; 64];
    let _ = hex::encode_to_slice(digest.as_slice(), &mut digits);
    out.extend_from_slice(b"program ")?;
    out.extend_from_slice(&digits)?;
    out.push(b'\n')?;
    let numbers = summary_text(alloc, &job.summary())?;
    out.extend_from_slice(&numbers)?;
    Ok(())
}

/// Appends what is told of a query that chooses these source bytes.
#[tactic(auto, unfolding(crate::specs::Data::asked_text))]
fn push_query(out: &mut Vec<u8>, query: &Query, sources: &SourceSet) -> Result<(), NoMemory>
    ensures { OnOk result (out.new.items ≡ out.old.items ++ asked_text (record {
      rule = query.now.rule;
      points = length query.now.points;
      sources = sources.now;
    })) }
{
    out.extend_from_slice(b"rule ")?;
    out.extend_from_slice(rule_name(query.rule()).as_bytes())?;
    out.push(b'\n')?;
    push_number(out, b"points", query.points().len() as u64)?;
    out.extend_from_slice(b"sources")?;
    push_ranges(out, sources.ranges())?;
    out.push(b'\n')?;
    Ok(())
}

/// Appends the bytes that a log's run moved, and the calls that moved them.
#[tactic(auto, unfolding(crate::specs::Data::moved_text))]
fn push_moved(alloc: Global, out: &mut Vec<u8>, log: &Log) -> Result<(), NoMemory>
    ensures { OnOk result (out.new.items ≡ out.old.items ++ moved_text log.now) }
{
    push_channels(alloc, out, Way::Received, log)?;
    push_channels(alloc, out, Way::Written, log)?;
    push_calls(out, log.records())
}

/// Appends what is told beside the rows.
#[tactic(auto, unfolding(crate::specs::Data::told_text))]
fn push_told(alloc: Global, out: &mut Vec<u8>, job: &Job, query: &Query) -> Result<(), NoMemory>
    ensures { OnOk result (out.new.items ≡ out.old.items
        ++ told_text (asked query.now (trace_of job.now)) job.now.log) }
{
    let sources = sources_of(alloc, job, query)?;
    push_run(alloc, out, job)?;
    push_query(out, query, &sources)?;
    push_moved(alloc, out, job.log())
}

/// Appends the data of a page: of this report of the query over the run of the job. It fails only where there is no
/// memory.
pub(crate) fn push_data(
    alloc: Global,
    out: &mut Vec<u8>,
    job: &Job,
    query: &Query,
    report: &Report,
) -> Result<(), NoMemory>
    ensures { OnOk result (out.new.items ≡ out.old.items
        ++ data_text (asked query.now (trace_of job.now)) job.now.log report.now) }
{
    out.extend_from_slice(b"jet page 1\nrows\n")?;
    push_rows(out, report.rows())?;
    push_told(alloc, out, job, query)?;
    push_number(out, b"end", report.lines())?;
    Ok(())
}
