//! What is known of a run's first epoch.

ghost use Rattle.std.specs.Prelude.{◌≡◌};
ghost use Rattle.taint_shadow.specs.Steps.{AreStanding};
ghost use Rattle.source_labels.specs.Words.{label_words};
ghost use Rattle.labelled_sinks.specs.Rows.{SinksStand};

use source_labels::SourceLabels;
use taint_shadow::{Places, SinkLabel};

/// What the analysis of a run's first epoch found: the labels of source bytes that locations have at the epoch's end, and its
/// sinks with theirs, in the order of the run. Before the epoch there was nothing.
#[derive(Drop)]
pub struct FirstEpoch {
    pub(crate) labels: SourceLabels,
    pub(crate) places: Places,
    pub(crate) sinks: Vec<SinkLabel>,
    ghost standing: { AreStanding label_words labels places },
    ghost labelled: { SinksStand labels sinks.items },
}

impl FirstEpoch {
    ghost use Rattle.summary_join.specs.First.{found_of, found_by};

    /// An epoch whose locations have these labels at its end, and these sinks, in the order of the run. It takes no memory.
    pub fn new(labels: SourceLabels, places: Places, sinks: Vec<SinkLabel>) -> FirstEpoch
        requires standing { AreStanding label_words labels places }
        requires labelled { SinksStand labels sinks.items }
        ensures { found_of result ≡ found_by labels places sinks.items }
    {
        FirstEpoch {
            labels,
            places,
            sinks,
        }
    }
}
