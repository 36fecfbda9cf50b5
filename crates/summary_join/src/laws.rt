//! Laws of the definitions: each is the contract of a function that does nothing.

ghost use Rattle.summary_join.specs.PieceLaws.{PiecesAskWhatCrosses, PiecesAskWhatIsNeeded};

/// What the epochs from a cut on are asked for there, by their pieces, are exactly the locations that are needed there.
/// Each stands there once, since that is so of every [`epoch_summary::Asked`].
pub fn pieces_ask_what_is_needed()
    ensures crosses { PiecesAskWhatCrosses }
    ensures needed { PiecesAskWhatIsNeeded }
{}
