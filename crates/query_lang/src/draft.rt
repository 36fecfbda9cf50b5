//! What the lines so far say.

ghost use Rattle.std.specs.Prelude.{◌≡◌, None, [], IfErr, OnOk};
ghost use Rattle.report_model.specs.Grammar.{read_line};
ghost use Rattle.no_memory.specs.Faults.{IsCausedBy};
ghost use Rattle.query_lang.specs.Drafts.{choices_in, TakesUp, IsFaultIn};

use crate::chosen::Selection;
use crate::fault::QueryFault;
use crate::statement::{Statement, statement_of};
use flow_model::{InnerSink, Rule};
use no_memory::Fault;
use report_model::{FaultInQuery, QueryKind};
use std::alloc::Global;

/// What the lines so far say.
#[derive(Drop)]
pub struct Draft {
    pub rule: Option<Rule>,
    pub sources: Selection,
    pub sinks: Selection,
    pub points: Vec<InnerSink>,
}

impl Draft {
    /// Nothing.
    pub fn new(alloc: Global) -> Self
        ensures rule { result.rule ≡ None }
        ensures sources { choices_in result.sources ≡ [] }
        ensures sinks { choices_in result.sinks ≡ [] }
        ensures points { result.points.items ≡ [] }
    {
        Draft {
            rule: None,
            sources: Selection::new(alloc),
            sinks: Selection::new(alloc),
            points: Vec::new(alloc),
        }
    }

    /// Takes up what the line of this number says.
    pub fn take_up(&mut self, number: u32, line: &[u8]) -> Result<(), QueryFault>
        ensures ok { OnOk result (TakesUp self.old (read_line line.now) self.new) }
        ensures fault { IfErr result (IsCausedBy (IsFaultIn number self.old (read_line line.now))) }
    {
        let statement = statement_of(line).map_err(|kind| Fault::At(FaultInQuery {
            line: number,
            kind,
        }))?;
        match statement {
            None => Ok(()),
            Some(Statement::RuleIs(_)) if self.rule.is_some() => Err(Fault::At(FaultInQuery {
                line: number,
                kind: QueryKind::SecondRule,
            })),
            Some(Statement::RuleIs(rule)) => {
                self.rule = Some(rule);
                Ok(())
            }
            Some(Statement::Source(choice)) => Ok(self.sources.add(choice)?),
            Some(Statement::Sink(choice)) => Ok(self.sinks.add(choice)?),
            Some(Statement::Points(points)) => Ok(points.add_to(&mut self.points)?),
        }
    }
}
