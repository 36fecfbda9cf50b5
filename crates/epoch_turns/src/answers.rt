//! What several turns come to.

ghost use Rattle.std.specs.Prelude.{◌≡◌};
ghost use Rattle.epoch_turns.specs.Answers.{together, after_both};

use run_board::Turn;

/// What the turns of several nodes came to, and then that of one more: Done where all are done, Moved where one moved,
/// and else NotYet.
pub(crate) fn together(others: Turn, one: Turn) -> Turn
    ensures { result ≡ together others one }
{
    match others {
        Turn::Done => one,
        Turn::Moved => Turn::Moved,
        Turn::NotYet => match one {
            Turn::Moved => Turn::Moved,
            Turn::NotYet | Turn::Done => Turn::NotYet,
        },
    }
}

/// What two sweeps over the same nodes came to, one after the other.
pub(crate) fn after_both(first: Turn, second: Turn) -> Turn
    ensures { result ≡ after_both first second }
{
    match first {
        Turn::Moved => match second {
            Turn::NotYet => Turn::Moved,
            Turn::Moved | Turn::Done => second,
        },
        Turn::NotYet | Turn::Done => second,
    }
}
