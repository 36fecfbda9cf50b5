//! The rule by which the origins of decisions are followed.

ghost use Rattle.std.specs.Prelude.{◌≡◌};
ghost use Rattle.decision_find.specs.Decides as model;

use flow_model::Rule;

/// The rule by which decisions have their origins: the query's own, or [`Rule::Compute`] where less flows by it.
pub fn deciding_rule(rule: Rule) -> Rule
    ensures { result ≡ model.deciding_rule rule }
{
    match rule {
        Rule::Copy | Rule::Keep | Rule::Compute => Rule::Compute,
        Rule::Index => Rule::Index,
    }
}
