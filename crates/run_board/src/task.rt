//! What a board asks of a task.

ghost use Rattle.std.specs.Prelude.{◌≡◌};
ghost use Rattle.run_board.specs.Turns.{AnswersEnded};
ghost use Rattle.run_board.specs.Tasks.{TaskWords};

/// What a turn came to.
#[derive(Clone, Copy, Debug, PartialEq, Eq, Drop)]
pub enum Turn {
    /// The task did something.
    Moved,
    /// The task could do nothing yet: it waits for another one.
    NotYet,
    /// The task is ended, and wants no more turns.
    Done,
}

/// What has a number, and words by which contracts see it. Nothing here gives a task a turn.
pub trait Numbered: Send + Drop {
    /// The number of a task, which no turn changes; `led_from new old`, that some turns lead from the task `old` to the
    /// task `new`; and whether a task is ended.
    ghost words: { TaskWords Self };

    /// Its number.
    fn number(&self) -> u32
        ensures { result ≡ words.number self.now };
}

/// Work that is done in turns. Contracts see of it from which earlier states it is led, and whether it is ended.
pub trait Task: Numbered {
    /// Gives it one turn. The answer is Done exactly where the task is then ended.
    fn turn(&mut self) -> Turn
        ensures led { Self.words.led_from self.new self.old }
        ensures number { Self.words.number self.new ≡ Self.words.number self.old }
        ensures done { AnswersEnded result (Self.words.ended self.new) };

    /// A task is led from itself.
    ghost reflexive: { (t : Self) → Self.words.led_from t t };

    /// What is led from a task that is led from a third is led from the third.
    ghost transitive: { (a b c : Self) → Self.words.led_from b a → Self.words.led_from c b → Self.words.led_from c a };
}
