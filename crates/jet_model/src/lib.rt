//! The answer to a query as a definition: the report of a program, a log and a query, and what the files of each
//! command come to.
//!
//! What there is to read stands in specs/. proofs/ has worked examples, which the checker computes.
//!
//! Proved (`laws`): where three files come to a text, it is what the query gives over the run (as a report), whatever the
//! length of an epoch, and short files of a run with few epochs come to what their query gives; the same of several
//! queries, of what is made of a run without a query, of a conversion, and of a recording, which has one answer by the
//! clock's answers; a recording and a conversion are read as the log; the source bytes of a trace are those that its log
//! received.
#![tactic(auto)]

pub mod laws;
