//! A wire.

ghost use Rattle.std.specs.Prelude.{◌≤◌, ◌<◌, ◌-◌, ◌^◌, [], ℕ, List, Option, take, length, IfOk, OnErr};
ghost use Rattle.std.specs.Result.{result_ok};
ghost use Rattle.outer_io.specs.Faults.{HasCause};
ghost use Rattle.outer_io.specs.Tells.{Tells, Gains};
ghost use Rattle.outer_wire.specs.Wires.{WireShown, received, sent};

use outer_io::Failed;

/// A place that bytes come from and go to.
///
/// After a call that failed the history is as before it; after any other the count of faults is.
pub trait Wire {
    /// What the wire shows: what came and what went so far, in order, and how often it failed.
    ghost shown: { Self → WireShown };

    /// What a call makes of this wire besides what it makes of every wire: of its arguments, its answer and the wire
    /// after it. A form in memory says all by it.
    ghost receive_gives: { Self → ℕ → Option ℕ → Self → Type 0 } = { λ _ _ _ _. Unit {0} };

    ghost send_gives: { Self → List ℕ → Option ℕ → Self → Type 0 } = { λ _ _ _ _. Unit {0} };

    /// Receives bytes into the front of the buffer, and answers how many: 0 at the wire's end, otherwise 1 to the
    /// buffer's length. Into an empty buffer it answers 0, and nothing passes.
    fn receive(&mut self, into: &mut [u8]) -> Result<usize, Failed>
        ensures cause { HasCause (shown self.old).faults (shown self.new).faults result }
        ensures count { IfOk result (λ n. n ≤ length into.old) }
        ensures ok { IfOk result (λ n.
            Tells (shown self.old).history (shown self.new).history (Gains (received (length into.old) (take n into.new)))) }
        ensures err { OnErr result (Tells (shown self.old).history (shown self.new).history (Gains [])) }
        ensures gives { receive_gives self.old (length into.old) (result_ok result) self.new };

    /// Sends the first bytes of the piece, and answers how many: 1 to the piece's length. Of an empty piece it sends
    /// nothing and answers 0.
    fn send(&mut self, piece: &[u8]) -> Result<usize, Failed>
        ensures cause { HasCause (shown self.old).faults (shown self.new).faults result }
        ensures count { IfOk result (λ n. n ≤ length piece.now) }
        ensures some { IfOk result (λ n. 0 < length piece.now → 0 < n) }
        ensures ok { IfOk result (λ n.
            Tells (shown self.old).history (shown self.new).history (Gains (sent (take n piece.now)))) }
        ensures err { OnErr result (Tells (shown self.old).history (shown self.new).history (Gains [])) }
        ensures gives { send_gives self.old piece.now (result_ok result) self.new };

    /// A count of faults is at most 2^64 - 1.
    ghost counted: { (s : Self) → (shown s).faults ≤ 2 ^ 64 - 1 };
}
