//! The sinks of a run, each with a label.

ghost use Rattle.std.specs.Prelude.{◌≡◌, map, IfOk};
ghost use Rattle.labelled_sinks.specs.Rows.{SinksStand, row_by};

use crate::at_once::{rows_in_order, rows_of_parts};
use no_memory::NoMemory;
use sink_collect::{SinkSet, SinkSets};
use source_labels::SourceLabels;
use std::alloc::Global;
use std::marker::Model;
use std::thread::Threads;
use taint_shadow::SinkLabel;

/// The sinks of a run, in its order, each with a label of the source bytes that it came from. Contracts see the rows
/// that they come to.
#[derive(Drop)]
pub struct LabelledSinks {
    labels: SourceLabels,
    sinks: Vec<SinkLabel>,
}

impl Model for LabelledSinks {
    ghost use Rattle.std.specs.Prelude.{List, map};
    ghost use Rattle.report_model.specs.Rows.{Row};
    ghost use Rattle.labelled_sinks.specs.Rows.{SinksStand, row_by};

    ghost Value = { List Row };

    ghost view = { λ s. map (row_by s.labels) s.sinks.items };

    ghost invariant = { λ s. SinksStand s.labels s.sinks.items };
}

impl LabelledSinks {
    /// These sinks, whose labels stand. It takes no memory.
    pub fn new(labels: SourceLabels, sinks: Vec<SinkLabel>) -> LabelledSinks
        requires { SinksStand labels sinks.items }
        ensures { result ≡ map (row_by labels) sinks.items }
    {
        LabelledSinks { labels, sinks }
    }

    /// The rows of the sinks, in their order. It fails only where there is no memory.
    pub fn rows(&self, alloc: Global) -> Result<Vec<SinkSet>, NoMemory>
        ensures { IfOk result (λ rows. rows.items ≡ self.now) }
    {
        rows_in_order(alloc, &self.labels, &self.sinks)
    }

    /// The rows of the sinks, in their order, made by at most `workers` threads of `rt` at once. Where a thread can't be
    /// started its part is made by the one that would have started it. It fails only where there is no memory.
    pub fn rows_at_once<R: Threads + Sync>(
        &self,
        rt: &R,
        alloc: Global,
        workers: u32,
    ) -> Result<SinkSets, NoMemory>
        ensures { IfOk result (λ rows. rows ≡ self.now) }
    {
        rows_of_parts(rt, alloc, &self.labels, &self.sinks, workers)
    }
}
