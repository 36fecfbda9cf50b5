//! Laws of the definitions: each is the contract of a function that does nothing.

ghost use Rattle.decision_find.specs.TextLaws.{DecidedAreDecisions, DecidedThereAre, TextsTellDecisions};

/// The decisions of a run that are listed are those, at a moment that is seen, of a location that decides there and has a source
/// byte.
pub fn decided_are_decisions()
    ensures { DecidedAreDecisions }
{}

/// The text of decisions tells exactly these: each place that has a decision has one line, with the source bytes of any of its
/// decisions and no other, and each decision is counted once.
pub fn texts_tell_decisions()
    ensures there { DecidedThereAre }
    ensures text { TextsTellDecisions }
{}
