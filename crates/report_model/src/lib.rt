//! Queries and reports as definitions: the query language, the rows of a query over a trace, and the text of a report.
//! These definitions know no log and no program: rows are those of a plain list of steps.
//!
//! What there is to read stands in specs/. Proved (`laws`): the points of queries that texts stand for are at
//! locations; rows ascend, each once, and none is missing; a point has a row, with its location's origins, exactly
//! where the query has it and the run reaches its time; queries that are alike have the same rows; a source byte and a
//! sink stand together in the influence exactly where they do in the rows; the rows of a query are its own of those of
//! any query that covers it, and several queries together cover each; what comes after the last chosen sink changes no
//! row.
#![tactic(auto)]

pub mod laws;

use flow_model::Rule;
use thiserror::Error;

/// The faults of a query's text. In a line the first that holds, in this order; NoRule comes after all
/// lines.
#[derive(Clone, Copy, Debug, PartialEq, Eq, Error)]
pub enum QueryKind {
    /// A byte other than tab and 0x20 to 0x7e, outside a comment.
    #[error("a byte that no line may have")]
    BadByte,
    /// The first word is none of `rule`, `source` and `sink`; or a rule's name is no rule; or the word before the time of a
    /// `sink mem` or `sink reg` line is not `at`.
    #[error("an unknown word")]
    Word,
    /// Too few or too many words.
    #[error("too few or too many words")]
    Count,
    /// A word that stands for a number is none: 1 to 10 decimal digits, at most 4294967295; or a time: 1 to 13 decimal
    /// digits, at most 1099511627776.
    #[error("a word that is no number")]
    Number,
    /// A channel above 15.
    #[error("a channel above 15")]
    Channel,
    /// A range that ends before it begins. Of `sink mem`, no bytes, more than 65536 of them, or some past address
    /// 2^32 - 1; of `sink reg`, register 0 or one above 31.
    #[error("a range or a register out of bounds")]
    Range,
    /// A second `rule` line.
    #[error("a second rule")]
    SecondRule,
    /// No `rule` line.
    #[error("no rule")]
    NoRule,
}

/// Why a text is no query: its first faulty line, counted from 1, and that line's first fault. Line 0 stands for the whole
/// text.
#[derive(Clone, Copy, Debug, Error)]
#[error("line {line}: {kind}")]
pub struct FaultInQuery {
    pub line: u32,
    pub kind: QueryKind,
}

/// Why several queries don't make one: the first one's rule, the first query whose rule is another, counted from 1 and so 2
/// at least, and that rule.
#[derive(Clone, Copy, Debug, Error)]
#[error("query {index} has another rule than the first")]
pub struct OtherRule {
    pub first: Rule,
    pub index: u32,
    pub other: Rule,
}
