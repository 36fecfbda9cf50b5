//! What follows the beginning of a log.

use log_model::{CallRecord, RunEnd};
use std::marker::Model;

/// The calls of a log after its beginning, and its end.
#[derive(Drop)]
pub struct Tail {
    pub(crate) records: Vec<CallRecord>,
    pub(crate) end: RunEnd,
}

impl Model for Tail {
    ghost use Rattle.run_beginning.specs.Beginnings.{LogTail};

    ghost Value = { LogTail };

    ghost view = { λ t. record { records = t.records.items; end = t.end } };
}
