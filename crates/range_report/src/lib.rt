//! A report in runs: output bytes one after the other whose source bytes go on alike, with the bytes on both sides; its
//! definition, and its text.
//!
//! What there is to read stands in specs/: the runs of rows (Runs.antt), and their text (Text.antt).
//!
//! Crates above rest on this: `shown` is `ranges_report` of the definitions. Proved (`laws`): the runs have, in order, the
//! rows of output bytes that have a source, each run is as long as can be, and no other runs are so; each row stands in a
//! run, in the line of a point, or in the number of those without; where a line says that the bytes are the same, they are.
#![tactic(auto)]

mod channels;
pub mod laws;
mod lines;
mod moved;
mod report;
mod runs;

pub use report::shown;

/// How the bytes of a run came from its source bytes.
#[derive(Clone, Copy)]
pub enum RunKind {
    /// Each from one source byte, and it is that byte.
    Same,
    /// Each from one source byte, and some aren't that byte.
    Changed,
    /// All from the same source bytes.
    Shared,
}
