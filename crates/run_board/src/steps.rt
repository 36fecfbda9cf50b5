//! The rule of a board's queue, and the steps that workers take there.

ghost use Rattle.std.specs.Prelude.{◌≡◌, ◌≤◌, length};
ghost use Rattle.run_board.specs.Tasks.{IsLed};
ghost use Rattle.run_board.specs.Views.{taken, after_fill, after_pop, after_put_back, after_split, newcomer, joined, spent};
ghost use Rattle.run_board.specs.Rule.{HasRoom, HasRest};

use crate::task::Numbered;
use crate::view::WorkerView;
use crossbeam_queue::protocol::{Join, Lesson, Outcome, Protocol, Split};
use crossbeam_queue::{Pass, RuledArrayQueue};

/// The rule of a board.
pub struct BoardRule;

impl<T: Numbered> Protocol<T, WorkerView<T>> for BoardRule {
    ghost use Rattle.run_board.specs.Views.{opening};
    ghost use Rattle.run_board.specs.Rule.{Holds};

    ghost holds = { Holds T.words };

    ghost first = { opening };
}

/// The queue of a board.
pub type TaskQueue<T> = RuledArrayQueue<T, WorkerView<T>, BoardRule>;

/// A worker's pass to the queue.
pub type WorkerPass<T> = Pass<T, WorkerView<T>>;

/// The push of a task that was handed in.
pub struct Fill;

impl<T: Numbered> Outcome<T, WorkerView<T>> for Fill {
    ghost then = { λ v x w. w ≡ after_fill v x };
}

impl<T: Numbered> Lesson<T, WorkerView<T>> for Fill {
    ghost fact = { HasRoom };
}

/// A pop. Where it finds the queue empty, it teaches which numbers the workers have.
pub struct Take;

impl<T: Numbered> Outcome<T, WorkerView<T>> for Take {
    ghost then = { λ v x w. (w ≡ after_pop v (T.words.number x)) × IsLed T.words v.starts x × (length (taken w) ≤ length v.starts) };
}

impl<T: Numbered> Lesson<T, WorkerView<T>> for Take {
    ghost fact = { HasRest T.words.number };
}

/// The push of a task that has had a turn, and a look at the queue, which changes nothing. It
/// teaches that there is room for the worker's tasks.
pub struct PutBack;

impl<T: Numbered> Outcome<T, WorkerView<T>> for PutBack {
    ghost then = { λ v x w. w ≡ after_put_back v };
}

impl<T: Numbered> Lesson<T, WorkerView<T>> for PutBack {
    ghost fact = { HasRoom };
}

/// One share for a new worker, and a worker joined to another.
pub struct Shares;

impl<T> Split<WorkerView<T>> for Shares {
    ghost left = { λ v. after_split v };

    ghost right = { λ v. newcomer v };
}

impl<T> Join<WorkerView<T>> for Shares {
    ghost both = { λ v w. joined v w };

    ghost spent = { spent };
}
