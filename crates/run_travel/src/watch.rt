//! Watchpoints.

ghost use Rattle.std.specs.Prelude.{◌≡◌};
ghost use Rattle.run_travel.specs.Stops.{same_watch, looks_at};
ghost use Rattle.run_travel.specs.Looks.{meets_bytes};

use crate::access::Span;
use crate::kind::WatchKind;

/// A watchpoint: some bytes of memory, of which `place` is the address of the first. One of no bytes is met by no step.
/// The end isn't taken modulo 2^32.
#[derive(Clone, Copy)]
pub struct Watch {
    pub kind: WatchKind,
    pub place: u32,
    pub length: u32,
}

impl Watch {
    /// Whether it is of the same kind and the same bytes.
    pub(crate) fn is_same(&self, other: &Watch) -> bool
        ensures { result ≡ same_watch self.now other.now }
    {
        self.kind == other.kind && self.place == other.place && self.length == other.length
    }

    /// Whether it watches one of these bytes.
    #[tactic(auto, using(crate::proofs::Meeting::in_common))]
    #[inline(always)]
    fn looks_at(&self, bytes: Span) -> bool
        ensures { result ≡ looks_at self.now bytes }
    {
        let first = u64::from(self.place.max(bytes.place));
        let past = u64::from(self.place) + u64::from(self.length);
        let past_bytes = u64::from(bytes.place) + u64::from(bytes.size);
        first < past.min(past_bytes)
    }

    /// Whether a step meets it, which writes and reads these bytes.
    #[inline(always)]
    pub(crate) fn is_met(&self, written: Span, read: Span) -> bool
        ensures { result ≡ meets_bytes written read self.now }
    {
        match self.kind {
            WatchKind::Writes => self.looks_at(written),
            WatchKind::Reads => self.looks_at(read),
            WatchKind::Both => self.looks_at(read) || self.looks_at(written),
        }
    }
}
