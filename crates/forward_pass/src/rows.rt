//! The rows of an epoch's sinks.

ghost use Rattle.std.specs.Prelude.{◌≡◌, true, false, is_none, [], List, IfOk, IfSome, IfNone, Some, None};
ghost use Rattle.report_model.specs.Rows.{Row};
ghost use Rattle.pass_parts.specs.PassSummaries.{summary_in};
ghost use Rattle.forward_pass.specs.Rows.{is_due, rows_by, rows_in};

use answer_sets::{Answers, rows};
use epoch_summary::{Asked, Summary};
use merge_log::TermsReader;
use no_memory::NoMemory;
use pass_parts::PassSummary;
use sink_collect::SinkSets;
use std::alloc::Global;

/// How far the rows of an epoch's sinks are. Once all answers came they need nothing of other nodes, so they may be made
/// after the pass.
#[derive(Drop)]
pub enum SinkRows {
    /// The sinks are not resolved: answers may still come.
    Unresolved,
    /// The sinks are resolved by the answers that came, and their rows are to be made.
    Due,
    /// The rows.
    Made(SinkSets),
}

impl SinkRows {
    /// Whether the sinks are resolved.
    pub(crate) fn are_resolved(&self) -> bool
        ensures no { result ≡ false → (due : List Row) → rows_in self.now due ≡ None }
        ensures yes { result ≡ true → (due : List Row) → is_none (rows_in self.now due) ≡ false }
    {
        match self {
            SinkRows::Unresolved => false,
            SinkRows::Due => true,
            SinkRows::Made(_) => true,
        }
    }

    /// Whether the rows are to be made.
    pub(crate) fn are_due(&self) -> bool
        ensures { result ≡ is_due self.now }
    {
        match self {
            SinkRows::Unresolved => false,
            SinkRows::Due => true,
            SinkRows::Made(_) => false,
        }
    }
}

/// The summary that a pass has. A broken one may have none.
fn summary_of(epoch: &PassSummary) -> Option<&Summary>
    ensures some { IfSome result (λ s. summary_in epoch.now ≡ Some s.now) }
    ensures none { IfNone result (summary_in epoch.now ≡ None) }
{
    match epoch {
        PassSummary::Whole(summary) => Some(summary),
        PassSummary::Broken(summary) => summary.as_ref(),
    }
}

/// The rows of an epoch that asked this and had these answers. It gives up with NoMemory alone.
pub(crate) fn make_rows(
    alloc: Global,
    reader: &mut TermsReader,
    epoch: &PassSummary,
    asked: &Asked,
    answers: &Answers,
) -> Result<SinkSets, NoMemory>
    ensures { IfOk result (λ sets. sets ≡ rows_by (summary_in epoch.now) asked.now answers.now) }
{
    let Some(summary) = summary_of(epoch) else {
        return Ok(SinkSets::from_vec(Vec::new(alloc)));
    };
    let rows = rows(alloc, reader, summary, asked, answers)?;
    Ok(SinkSets::from_vec(rows))
}
