//! Queries.

ghost use Rattle.std.specs.Prelude.{◌≡◌, ◌++◌, IfOk, OnOk, IfSome};
ghost use Rattle.lists.specs.Sets.{Ascends};
ghost use Rattle.flow_model.specs.Orders.{inner_cmp};
ghost use Rattle.flow_model.specs.declared.SinkPoint.TheVariants.{Out};
ghost use Rattle.report_model.specs.Query.{Alike, AreLocated, has_source, has_sink};
ghost use Rattle.query_lang.specs.Choices.{SameChoices};
ghost use Rattle.query_lang.specs.Drafts.{choices_in, query_by};
ghost use Rattle.query_lang.specs.Single.{IsOnlySource, IsOnlySink};

use crate::chosen::{Chosen, Selection};
use crate::points::each_once;
use flow_model::{InnerSink, Rule, SinkByte, SinkPoint, SourceByte};
use std::alloc::{AllocError, Global};
use std::marker::Model;

/// A query: which of the bytes that a run reads taint, by which rule taint propagates, and which of the
/// bytes that it writes and of the points inside it the report lists.
#[derive(Drop)]
pub struct Query {
    rule: Rule,
    sources: Chosen,
    sinks: Chosen,
    points: Vec<InnerSink>,
}

impl Model for Query {
    ghost use Rattle.lists.specs.Sets.{Ascends};
    ghost use Rattle.flow_model.specs.Orders.{inner_cmp};
    ghost use Rattle.report_model.specs.Query.{Query as Meaning, AreLocated};

    ghost Value = { Meaning };

    ghost view = { λ q. record { rule = q.rule; sources = q.sources; sinks = q.sinks; points = q.points.items } };

    ghost invariant = { λ q. Ascends inner_cmp q.points.items × AreLocated q.points.items };
}

impl Query {
    /// The query by this rule of what these choose, of the points each once. The points are at locations.
    pub(crate) fn of(
        alloc: Global,
        rule: Rule,
        sources: Selection,
        sinks: Selection,
        points: Vec<InnerSink>,
    ) -> Result<Query, AllocError>
        requires { AreLocated points.items }
        ensures { IfOk result (λ q. Alike q (query_by rule sources sinks points.items)) }
    {
        Ok(Query {
            rule,
            sources: Chosen::of(alloc, sources)?,
            sinks: Chosen::of(alloc, sinks)?,
            points: each_once(points),
        })
    }

    /// Adds what the query chooses to what is chosen so far.
    pub(crate) fn add_to(
        &self,
        sources: &mut Selection,
        sinks: &mut Selection,
        points: &mut Vec<InnerSink>,
    ) -> Result<(), AllocError>
        ensures sources { OnOk result (SameChoices
            (choices_in sources.new)
            (choices_in sources.old ++ self.now.sources)) }
        ensures sinks { OnOk result (SameChoices
            (choices_in sinks.new)
            (choices_in sinks.old ++ self.now.sinks)) }
        ensures points { OnOk result (points.new.items ≡ points.old.items ++ self.now.points) }
        ensures located { AreLocated self.now.points }
    {
        self.sources.add_to(sources)?;
        self.sinks.add_to(sinks)?;
        points.extend_from_slice(&self.points)
    }

    /// The rule by which taint propagates.
    pub fn rule(&self) -> Rule
        ensures { result ≡ self.now.rule }
    {
        self.rule
    }

    /// Whether the query chooses a byte that a run reads.
    pub fn source_has(&self, byte: SourceByte) -> bool
        ensures { result ≡ has_source self.now byte }
    {
        self.sources.has(byte.channel, byte.offset)
    }

    /// Whether the query chooses a byte that a run writes.
    pub fn sink_has(&self, byte: SinkByte) -> bool
        ensures { result ≡ has_sink self.now (Out byte) }
    {
        self.sinks.has(byte.channel, byte.offset)
    }

    /// The byte that a run reads, where the query chooses one alone by a line of its own.
    pub fn only_source(&self) -> Option<SourceByte>
        ensures { IfSome result (IsOnlySource self.now) }
    {
        let (channel, offset) = self.sources.only()?;
        Some(SourceByte { channel, offset })
    }

    /// The byte that a run writes, or the point inside it, where the query chooses one alone by a line of its own.
    pub fn only_sink(&self) -> Option<SinkPoint>
        ensures { IfSome result (IsOnlySink self.now) }
    {
        match self.points.as_slice() {
            [] => {
                let (channel, offset) = self.sinks.only()?;
                Some(SinkPoint::Out(SinkByte { channel, offset }))
            }
            [point] => {
                if self.sinks.is_nothing() {
                    Some(SinkPoint::At(*point))
                } else {
                    None
                }
            }
            _ => None,
        }
    }

    /// The points inside the run that the query chooses, by time and then location, each once. Each is at a location.
    pub fn points(&self) -> &[InnerSink]
        ensures value { result.now ≡ self.now.points }
        ensures ascending { Ascends inner_cmp self.now.points }
        ensures located { AreLocated self.now.points }
    {
        &self.points
    }
}
