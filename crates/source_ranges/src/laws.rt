//! Laws of the definitions: each is the contract of a function that does nothing.

ghost use Rattle.source_ranges.specs.RangeLaws.{RangesHoldBytes, RangesAreAlone};

/// The ranges of source bytes hold these bytes, in order. No range is empty, and none begins where the one before it
/// ends. No other ranges are so.
pub fn ranges_are_longest()
    ensures bytes { RangesHoldBytes }
    ensures alone { RangesAreAlone }
{}
