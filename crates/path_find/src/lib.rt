//! The path of a source byte to an output byte, or to a point inside the run: its definition, how it is found, and its text.
//!
//! What there is to read stands in specs/: paths over a plain list of steps, which know no log and no program (Paths.antt,
//! PathLaws.antt); the first pair of a report (FirstPair.antt); the text (Text.antt); and the path of a run (Answer.antt). Proved
//! of them (`laws`): a source byte has a path to a location exactly where it is among the location's origins, and exactly there
//! it has the one path that is told; that one is a path, its beginnings are the paths of earlier times, and each of its hops
//! comes from the first location of the flow table that has the byte; a path has at most as many arrivals as there are steps;
//! a path is told exactly where the report lists the source byte in the row of the sink, and the first pair of a report has one.
//!
//! One pass over the run finds the path: each location that the source byte came to is labelled with its latest
//! arrival and the node of the previous one (`trail`). A second pass tells the steps on it. Crates above rest on this:
//! `first_pair` is the definition's; `answer` is the text of the path of a pair, and where the pair is the first of a report, it
//! is `path_report` of the definitions, a function of the state that the run begins in, its log and the query. The same is the
//! path of the pair that a query names (`named_pair`), whatever its report has: `check_and_answer` is `replayer::Job::check`, finds that
//! path in the same replay, and gives its text.
#![tactic(auto)]

mod answers;
mod carriers;
mod finding;
mod following;
pub mod laws;
mod nodes;
mod pairs;
mod passes;
mod sinks;
mod touching;
mod trail;
mod watching;
mod writing;

pub use answers::{answer, check_and_answer};
use flow_model::{Loc, SinkPoint, SourceByte};
pub use pairs::{first_pair, named_pair};

/// Content came to a location in a step: `number` is how many steps were done before that one.
#[derive(Clone, Copy)]
pub struct Arrival {
    pub number: u64,
    pub loc: Loc,
}

/// An output byte or a point inside the run, and a source byte that it came from.
#[derive(Clone, Copy)]
pub struct Pair {
    pub sink: SinkPoint,
    pub source: SourceByte,
}
