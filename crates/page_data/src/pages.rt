//! A page, whole.

ghost use Rattle.std.specs.Prelude.{◌≡◌, IfOk};
ghost use Rattle.report_model.specs.Rows.{rows};
ghost use Rattle.replayer.specs.Jobs.{trace_of};
ghost use Rattle.page_data.specs.Page.{page_report};

use crate::data::push_data;
use no_memory::NoMemory;
use page_text::{push_head, push_tail};
use query_lang::Query;
use replayer::Job;
use sink_collect::Report;
use std::alloc::Global;

/// The page of a query over the run of a job, of which `report` has the rows. It fails only where there is no memory.
pub fn page(alloc: Global, job: &Job, query: &Query, report: &Report) -> Result<Vec<u8>, NoMemory>
    requires { report.now ≡ rows query.now (trace_of job.now) }
    ensures { IfOk result (λ text. text.items ≡ page_report query.now job.now.start job.now.log) }
{
    let mut out = Vec::new(alloc);
    push_head(&mut out)?;
    push_data(alloc, &mut out, job, query, report)?;
    push_tail(&mut out)?;
    Ok(out)
}
