//! The rows of several queries, by one analysis of the run.
ghost use Rattle.std.specs.Prelude.{◌≡◌, ◌≤◌, List, Err, length, map, IfOk, IfErr};
ghost use Rattle.lists.specs.Sets.{Ascends};
ghost use Rattle.flow_model.specs.Orders.{inner_cmp};
ghost use Rattle.flow_model.specs.declared.StepSeen.{StepSeen as Step};
ghost use Rattle.report_model.specs.Query.{Query as Choice};
ghost use Rattle.report_model.specs.Rows.{rows};
ghost use Rattle.report_model.specs.Together.{only};
ghost use Rattle.jet_model.specs.Answer.{rules_check};
ghost use Rattle.command_parts.specs.Outcome.{IsWork};
ghost use Rattle.jet_commands.specs.Answers.{IsUnion};

use jet_refusal::Refusal;
use no_memory::NoMemory;
use query_lang::{Query, together};
use sink_collect::Report;
use std::alloc::Global;

/// One query that chooses what any of several does. It gives up with `Rules`, where their rules differ, or is out of memory.
pub fn union_of(alloc: Global, queries: &[Query]) -> Result<Query, Refusal>
    requires some { 1 ≤ length queries.now }
    requires few { length queries.now ≤ 16 }
    ensures ok { IfOk result (IsUnion queries.now) }
    ensures err { IfErr result (λ r. IsWork (rules_check queries.now) (Err r)) }
{
    let union = together(alloc, queries)?;
    Ok(union)
}

/// What one of the queries chooses of the rows of all.
fn own_part(alloc: Global, all: &Report, query: &Query) -> Result<Report, NoMemory>
    ensures rows { IfOk result (λ part. part ≡ only query.now all.now) }
    ensures points { Ascends inner_cmp query.now.points }
{
    // The contract of `points` says that they ascend.
    let _points = query.points();
    all.only(alloc, query)
}

/// The rows of several queries, by those of one that asks for what any of them does. They are there before any is written, so
/// that writing takes no memory.
pub fn own_parts(alloc: Global, all: &Report, queries: &[Query]) -> Result<Vec<Report>, NoMemory>
    ensures { IfOk result (λ parts. (union : Choice) (trace : List Step)
        → IsUnion queries.now union → all.now ≡ rows union trace → parts.items ≡ map (λ q. rows q trace) queries.now) }
{
    let mut parts = Vec::with_capacity(alloc, queries.len())?;
    for query in queries {
        parts.push(own_part(alloc, all, query)?)?;
    }
    Ok(parts)
}
