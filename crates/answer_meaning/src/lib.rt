//! What the flow table, rows, and the answers of `path`, `show` and `decisions` mean of the values of a run
//! (docs/MEANING.md reads it aloud), and that texts that were cut off are known.
//!
//! What there is to read stands in specs/. proofs/Worked.antt has examples of what the laws don't say, shows of each
//! kind of decision that the laws would be false without it, and has two programs of which the laws of decisions ask
//! nothing that isn't computed. proofs/Matters.antt holds the flow table against values; proofs/WorkedTexts.antt has
//! texts.
//!
//! Proved (`laws`), of steps: each leaves a sound state sound; what flows by `copy` and `keep` is the very byte, and
//! what flows by `compute` and `index` determines the content; of some results fewer origins do; the rules nest.
//!
//! Of rows: calls moved their bytes; by `copy` and `keep` a row has at most one source byte, and the two are equal; by
//! `compute` two runs along one path, with the same bytes at a row's sources and where no one chose a source, have the
//! same byte there; by `index` the places of loads need not be the same.
//!
//! Of a path: it is of locations, and where content only moves each on it holds the byte that was received. Of a
//! report in runs: calls moved all bytes that a line tells, on both sides; what a line with `=` wrote is what was
//! received at its range; where each row has no source, or one whose byte is the row's, no line says that bytes
//! changed.
//!
//! Of decisions, of two runs from one beginning, of which the second is answered the same as long as it asks what the
//! first asked, but for bytes that no decision of the first lists: they do the same at each step as far as both go; by
//! `compute` they end alike; and what differs, differs at a byte that the report lists. So also two recordings over
//! inputs as long.
//!
//! Of texts: no front of a report, an influence, ranges, a path, decisions, calls, a stack or a run's numbers is one.
#![tactic(auto)]

pub mod laws;
