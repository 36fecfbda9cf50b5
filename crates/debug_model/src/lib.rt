//! What a debugger of recorded runs writes, as a definition: a function of the job, of the time at which it begins, and
//! of the bytes that it reads, in the GDB Remote Serial Protocol (GDB manual, appendix E "Remote Protocol").
//!
//! What there is to read stands in specs/, from `dialogue` (Dialogues.antt) down: where a session stands
//! (Sessions.antt), what each packet is answered, and the session after it (Answers.antt), where moves come to
//! (Arrivals.antt), why a run stopped (StopTexts.antt), registers and memory (States.antt), the constant description of
//! the registers (Description.antt), and commands in words (Commands.antt). proofs/Worked.antt has worked examples,
//! which the checker computes.
//!
//! Proved (`laws`): what is written for a beginning of the bytes is the beginning of what is written for all, and it is
//! heard as its answers; registers and memory are those of the run at the session's time; moves pass over no stop, and
//! are taken back; between the ends of a move back the watched bytes stay the same, but for the step that was taken
//! back; the step that is told of a byte moved it; and whatever was heard, each time is told as it was.
//!
//! Crates above rest on this: `description` is the constant text, and `Command` what a command in words asks;
//! proofs/Hearing.antt says what is told of what is heard piece by piece.
#![tactic(auto)]

mod command;
pub mod laws;
mod target;
mod texts;

pub use command::Command;
pub use texts::description;
