//! Laws of the definitions: each is the contract of a function that does nothing.

ghost use Rattle.isa.specs.ZeroRegister.{StepKeepsX0, AnswerKeepsX0};

/// Register x0 stays 0, over a step that retires and over the answer to a call.
pub fn x0_stays_zero()
    ensures step { StepKeepsX0 }
    ensures answer { AnswerKeepsX0 }
{}
