//! Laws of recordings. Each is a function that does nothing: its contract is the law.

ghost use Rattle.std.specs.Prelude.{◌≡◌, ℕ, ◌<◌, ◌^◌, List};
ghost use Rattle.log_model.specs.Logs.{Log};
ghost use Rattle.log_model.specs.Moved.{received};
ghost use Rattle.record_model.specs.Recorded.{Setting, IsRecorded, CanRecord, Recording, IsFrontOf, input_of};

/// A run has a recording, whatever the clock answers, where its program is an image that the window can hold, and its setting
/// is in range.
pub fn a_recording()
    ensures { (s : Setting) (clock : ℕ → ℕ) → CanRecord s → ((k : ℕ) → clock k < 2 ^ 64) → Recording s clock }
{}

/// A run is recorded in one way: its setting and the clock's answers have at most one log.
pub fn one_recording()
    ensures { (s : Setting) (answers : List ℕ) (a b : Log) → IsRecorded s answers a → IsRecorded s answers b → a ≡ b }
{}

/// Inputs are read in order from their beginning: what a recorded run received on a channel is the first of its
/// input, and nothing where there is no such input.
pub fn inputs_are_read_in_order()
    ensures { (s : Setting) (answers : List ℕ) (log : Log) → IsRecorded s answers log
        → (channel : ℕ) → IsFrontOf (received channel log.records) (input_of s.inputs channel) }
{}
