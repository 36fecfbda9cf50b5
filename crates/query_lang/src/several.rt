//! Several queries made one.

ghost use Rattle.std.specs.Prelude.{◌≡◌, ◌≤◌, ◌<◌, ◌^◌, None, length, IfOk, IfErr, OnOk};
ghost use Rattle.report_model.specs.Query.{Alike};
ghost use Rattle.report_model.specs.Together.{together as one_of_all, first_rule, first_other_rule};
ghost use Rattle.no_memory.specs.Faults.{IsCausedBy};
ghost use Rattle.query_lang.specs.Answers.{IsFirstOther};

use crate::chosen::Selection;
use crate::fault::TogetherFault;
use crate::query::Query;
use flow_model::Rule;
use no_memory::Fault;
use report_model::OtherRule;
use std::alloc::{AllocError, Global};

/// The rule of the queries, where it is one.
fn rule_of_all(queries: &[Query]) -> Result<Rule, OtherRule>
    requires some { 1 ≤ length queries.now }
    requires few { length queries.now < 2 ^ 32 }
    ensures first { IfOk result (λ rule. rule ≡ first_rule queries.now) }
    ensures one_rule { OnOk result (first_other_rule queries.now ≡ None) }
    ensures fault { IfErr result (IsFirstOther queries.now) }
{
    let first = queries[0].rule();
    let mut number = 1;
    for query in &queries[1..] {
        number += 1;
        let other = query.rule();
        if other != first {
            return Err(OtherRule {
                first,
                index: number,
                other,
            });
        }
    }
    Ok(first)
}

/// The query by the rule of the first that chooses what any of these does.
fn gathered(alloc: Global, rule: Rule, queries: &[Query]) -> Result<Query, AllocError>
    requires { rule ≡ first_rule queries.now }
    ensures { IfOk result (λ q. Alike q (one_of_all queries.now)) }
{
    let mut sources = Selection::new(alloc);
    let mut sinks = Selection::new(alloc);
    let mut points = Vec::new(alloc);
    for query in queries {
        query.add_to(&mut sources, &mut sinks, &mut points)?;
    }
    Query::of(alloc, rule, sources, sinks, points)
}

/// One query that chooses what any of these does: one up to 2^32 - 1 of them, which it only reads.
///
/// The fault is the first query whose rule is another than the first one's.
pub fn together(alloc: Global, queries: &[Query]) -> Result<Query, TogetherFault>
    requires some { 1 ≤ length queries.now }
    requires few { length queries.now < 2 ^ 32 }
    ensures ok { IfOk result (λ q. Alike q (one_of_all queries.now)) }
    ensures one_rule { OnOk result (first_other_rule queries.now ≡ None) }
    ensures fault { IfErr result (IsCausedBy (IsFirstOther queries.now)) }
{
    let rule = match rule_of_all(queries) {
        Ok(rule) => rule,
        Err(other) => return Err(Fault::At(other)),
    };
    Ok(gathered(alloc, rule, queries)?)
}
