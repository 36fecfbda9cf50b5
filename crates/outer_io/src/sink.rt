//! A place to write to.

ghost use Rattle.std.specs.Prelude.{◌≤◌, ◌<◌, ◌-◌, ◌^◌, [], ℕ, List, Option, take, length, IfOk, OnErr};
ghost use Rattle.std.specs.Result.{result_ok};
ghost use Rattle.outer_io.specs.Faults.{HasCause};
ghost use Rattle.outer_io.specs.Shown.{SinkShown};
ghost use Rattle.outer_io.specs.Tells.{Tells, Gains};

use crate::store::Failed;

/// A place to write bytes to, such as the standard output.
pub trait Sink {
    /// What the sink shows: what was written so far, and how often it failed.
    ghost shown: { Self → SinkShown };

    /// What a put makes of this sink besides what it makes of every sink: of the piece, the answer and the sink after it.
    /// A form in memory says all by it.
    ghost put_gives: { Self → List ℕ → Option ℕ → Self → Type 0 } = { λ _ _ _ _. Unit {0} };

    /// Writes the first bytes of the piece, and answers how many: 1 to the piece's length. Of an
    /// empty piece it takes nothing and answers 0, and where it fails it took nothing.
    fn put(&mut self, piece: &[u8]) -> Result<usize, Failed>
        ensures cause { HasCause (shown self.old).faults (shown self.new).faults result }
        ensures count { IfOk result (λ n. n ≤ length piece.now) }
        ensures some { IfOk result (λ n. 0 < length piece.now → 0 < n) }
        ensures ok { IfOk result (λ n.
            Tells (shown self.old).written (shown self.new).written (Gains (take n piece.now))) }
        ensures err { OnErr result (Tells (shown self.old).written (shown self.new).written (Gains [])) }
        ensures gives { put_gives self.old piece.now (result_ok result) self.new };

    /// A count of faults is at most 2^64 - 1.
    ghost counted: { (s : Self) → (shown s).faults ≤ 2 ^ 64 - 1 };
}
