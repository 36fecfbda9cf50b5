//! Logs of runs (docs/FORMATS.md).
//!
//! Crates above rest on this: `read_log` gives the log as which the bytes are read, in either version, or their first
//! fault with its offset (`log_of` of `log_model`); `write_log` is the log's text in version 2; a `Log` has the parts
//! of the log.
#![tactic(auto)]

mod channels;
mod fault;
mod header;
mod lengths;
mod logs;
mod reading;
mod record_parts;
mod records;
mod steps;
mod tags;
mod words;
mod writing;

pub use fault::LogFault;
pub use header::HEADER_LENGTH;
pub use lengths::{end_length, share, text_length};
pub use log_model::{CallRecord, Data, FaultInLog, LogKind, RunEnd};
pub use logs::Log;
pub use reading::read_log;
pub use writing::{can_write, write_log};
