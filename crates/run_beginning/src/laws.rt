//! Laws of the definitions: each is the contract of a function that does nothing.

ghost use Rattle.run_beginning.specs.NeedLaws.{LogTellsNeed};
ghost use Rattle.run_beginning.specs.BeginningLaws.{BeginningAgrees, BeginningOfTrace, BeginningHasRows};

use report_model::laws::rows_of_beginning;

/// Where nothing differs between a log and its program, the log tells what the rows of the run need.
#[tactic(auto, using(crate::proofs::Told::log_tells_need))]
pub fn log_tells_need()
    ensures { LogTellsNeed }
{}

/// Where nothing differs between a run and its log, nothing differs between the run and a beginning of the log, and the
/// steps of the beginning are the first of the run.
#[tactic(auto, using(crate::proofs::Moments::beginning_agrees, crate::proofs::Moments::beginning_of_trace))]
pub fn beginning_fits()
    ensures agrees { BeginningAgrees }
    ensures steps { BeginningOfTrace }
{}

/// A beginning of such a run that has as many steps as a query needs has the query's rows over the run.
#[tactic(auto, using(crate::proofs::Rows::beginning_has_rows))]
pub fn beginning_has_rows()
    ensures { BeginningHasRows }
{
    log_tells_need();
    rows_of_beginning();
}
