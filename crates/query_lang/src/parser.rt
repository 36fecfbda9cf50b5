//! From a text to a query.

ghost use Rattle.std.specs.Prelude.{◌≡◌, ◌≤◌, ◌^◌, length, IfOk, IfErr};
ghost use Rattle.report_model.specs.Query.{AreLocated};
ghost use Rattle.no_memory.specs.Faults.{IsCausedBy};
ghost use Rattle.query_lang.specs.Answers.{StandsFor, IsTold};
ghost use Rattle.query_lang.specs.Drafts.{IsFinished, IsUnfinished};

use crate::draft::Draft;
use crate::fault::QueryFault;
use crate::lines::split_line;
use crate::query::Query;
use no_memory::Fault;
use report_model::{FaultInQuery, QueryKind};
use std::alloc::Global;

/// The query of which all lines were taken up.
fn finish(alloc: Global, draft: Draft) -> Result<Query, QueryFault>
    requires { AreLocated draft.points.items }
    ensures ok { IfOk result (IsFinished draft) }
    ensures fault { IfErr result (IsCausedBy (IsUnfinished draft)) }
{
    let Draft {
        rule,
        sources,
        sinks,
        points,
    } = draft;
    let rule = rule.ok_or(Fault::At(FaultInQuery {
        line: 0,
        kind: QueryKind::NoRule,
    }))?;
    Ok(Query::of(alloc, rule, sources, sinks, points)?)
}

/// The query that a text of at most 2^26 bytes stands for.
///
/// A text that stands for none has a first faulty line, and that line a first fault, in the order of the
/// kinds: the answer is `At` with both. `NoMemory` says that there was no memory for the query.
pub fn parse(alloc: Global, text: &[u8]) -> Result<Query, QueryFault>
    requires { length text.now ≤ 2 ^ 26 }
    ensures read { IfOk result (StandsFor text.now) }
    ensures fault { IfErr result (IsCausedBy (IsTold text.now)) }
{
    let mut draft = Draft::new(alloc);
    let mut number = 0;
    let mut left = Some(text);
    while let Some(part) = left {
        let (line, rest) = split_line(part);
        number += 1;
        draft.take_up(number, line)?;
        left = rest;
    }
    finish(alloc, draft)
}
