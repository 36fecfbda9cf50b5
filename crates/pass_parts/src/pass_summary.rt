//! The summary of a pass's epoch, and whether the pass is whole.

ghost use Rattle.std.specs.Prelude.{◌≡◌, ◌&&◌, is_some};
ghost use Rattle.pass_parts.specs.declared.pass_summary.PassSummary.TheVariants.{Broken};
ghost use Rattle.pass_parts.specs.PassSummaries.{is_whole, summary_in};

use epoch_summary::Summary;

/// The summary of a pass's epoch, and whether the pass is whole.
pub enum PassSummary {
    /// The pass is whole, and has the summary.
    Whole(Summary),
    /// The pass is broken. A summary that it had is used no more.
    Broken(Option<Summary>),
}

// Written out: where a value that has one is let go, a derived drop is proved anew, with all that is below it.
impl Drop for PassSummary {
    /// Lets the summary go, if there was one.
    fn drop(self) {
        let _summary = self.into_summary();
    }
}

impl PassSummary {
    /// A pass with this summary. Without one it is broken.
    pub fn new(summary: Option<Summary>, whole: bool) -> PassSummary
        ensures whole { is_whole result ≡ (whole && is_some summary) }
        ensures summary { summary_in result ≡ summary }
    {
        match summary {
            Some(summary) if whole => PassSummary::Whole(summary),
            summary => PassSummary::Broken(summary),
        }
    }

    /// Whether the pass is whole.
    pub fn is_whole(&self) -> bool
        ensures { result ≡ is_whole self.now }
    {
        match self {
            PassSummary::Whole(_) => true,
            PassSummary::Broken(_) => false,
        }
    }

    /// The pass breaks.
    pub fn give_up(&mut self)
        ensures { self.new ≡ Broken (summary_in self.old) }
    {
        let known = std::mem::replace(self, PassSummary::Broken(None));
        *self = PassSummary::Broken(known.into_summary());
    }

    /// The summary, if there was one.
    pub fn into_summary(self) -> Option<Summary>
        ensures { result ≡ summary_in self }
    {
        match self {
            PassSummary::Whole(summary) => Some(summary),
            PassSummary::Broken(summary) => summary,
        }
    }
}
