//! Laws of the definitions: each is the contract of a function that does nothing.

ghost use Rattle.epoch_model.specs.StretchLaws.{OriginsCompose, PastComposes, StretchesAreTheirSteps, PiecesCompose};
ghost use Rattle.epoch_model.specs.JoinLaws.{AsksWhatIsNeeded, AsksLocations, AsksByCuts, AsksOnce, DefinedAreSummaries, JoinGivesRows};

/// What is known over two stretches of a trace is known over both together.
pub fn stretches_compose()
    ensures origins { OriginsCompose }
    ensures past { PastComposes }
{}

/// What flows over a stretch depends on its steps alone, so each epoch may be looked at as a trace of its
/// own.
pub fn stretches_are_their_steps()
    ensures steps { StretchesAreTheirSteps }
    ensures pieces { PiecesCompose }
{}

/// What epochs ask at a cut are exactly the locations that are needed there, each once.
pub fn epochs_ask_what_is_needed()
    ensures needed { AsksWhatIsNeeded }
    ensures locations { AsksLocations }
    ensures cuts { AsksByCuts }
    ensures once { AsksOnce }
{}

/// For every cutting, the summaries of the epochs, joined by lists, give the rows of the whole trace.
/// There are such summaries: those of the definitions.
pub fn summaries_join()
    ensures rows { JoinGivesRows }
    ensures defined { DefinedAreSummaries }
{}
