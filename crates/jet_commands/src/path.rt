//! The path by which a source byte came to an output byte or a point.
ghost use Rattle.std.specs.Prelude.{◌≡◌, Some, IfOk, IfSome};
ghost use Rattle.isa.specs.Machine.{State};
ghost use Rattle.log_model.specs.Logs.{Log as LogOf};
ghost use Rattle.report_model.specs.Rows.{rows};
ghost use Rattle.replayer.specs.Jobs.{trace_of};
ghost use Rattle.path_find.specs.Sinks.{IsLocated};
ghost use Rattle.path_find.specs.Answer.{pair_report, path_report};
ghost use Rattle.jet_commands.specs.Targets.{ToOutput};
ghost use Rattle.jet_commands.specs.Answers.{format_text, format_target};

use crate::tellings::Format;
use jet_words::Listing;
use no_memory::NoMemory;
use path_find::laws::{first_pairs_are_located, named_pairs_are_told};
use path_find::{Pair, answer, first_pair, named_pair};
use query_lang::Query;
use replayer::Job;
use sink_collect::Report;
use std::alloc::Global;

/// The text of the path of the first pair of a query's report.
pub fn path_text(
    alloc: Global,
    job: &Job,
    query: &Query,
    report: &Report,
) -> Result<Vec<u8>, NoMemory>
    requires { report.now ≡ rows query.now (trace_of job.now) }
    ensures { IfOk result (λ text. text.items ≡ path_report job.now.start job.now.log query.now) }
{
    // The contract of `points` says where they are, and so where the pair is.
    let _points = query.points();
    first_pairs_are_located();
    let pair = first_pair(report.rows());
    answer(alloc, job, query.rule(), pair)
}

/// The pair whose path is told of a query, where the query names it: so it is known before the run is gone through.
pub fn pair_told(format: Format<'_>, query: &Query) -> Option<Pair>
    ensures located { IfSome result IsLocated }
    ensures goes { IfSome result (λ pair. format_target format.entry ≡ ToOutput) }
    ensures told { IfSome result (λ pair. (start : State) (log : LogOf) → format_text format.entry query.now start log
        ≡ pair_report (record { start = start; log = log }) query.now.rule (Some pair)) }
{
    named_pairs_are_told();
    match format {
        Format::Listed(listing) => match listing {
            Listing::ByPath => named_pair(query),
            Listing::BySink | Listing::BySource | Listing::ByRange => None,
        },
        Format::Page(_) => None,
    }
}
