//! What the epochs of a run send each other, as definitions: the streams between two neighbours, the two passes of a
//! node event by event, and all nodes of a run under any schedule. These definitions know no queue and no thread: what
//! a link does in an event is given.
//!
//! What there is to read stands in specs/. Proved (`laws`), under every schedule and with refused memory: what a node
//! sends only grows; done and whole nodes have asked what is needed, carried its origins and have the rows; some node
//! always moves until all are done; the number of events that move is the same, and it is `run_work`.
#![tactic(auto)]

pub mod laws;
