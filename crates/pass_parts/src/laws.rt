//! Laws of the definitions: each is the contract of a function that does nothing.

ghost use Rattle.pass_parts.specs.PartLaws.{KnownIsSummary, CountsStay, AnswerableByCount};

/// What the passes know of an epoch is its summary.
pub fn known_is_summary()
    ensures { KnownIsSummary }
{}

/// The counts of requests stay when more is asked, and tell when the requests can be answered.
pub fn counts_tell()
    ensures stay { CountsStay }
    ensures answerable { AnswerableByCount }
{}
