//! One who answers.

ghost use Rattle.std.specs.Prelude.{◌≡◌, [], false, IfOk};
ghost use Rattle.outer_wire.specs.Talks.{Answers, Hears};

use no_memory::NoMemory;

/// One who answers what comes, a byte at a time, until it ends the talk.
pub trait Answerer {
    /// What is said in answer to all bytes that come from now on, and whether these end the talk.
    ghost answers: { Self → Answers };

    /// Nothing is said in answer to nothing, and nothing doesn't end the talk.
    fn form(&self)
        ensures silent { (answers self.now).says [] ≡ [] }
        ensures goes_on { (answers self.now).ends [] ≡ false };

    /// Hears one byte more, appends what is said in answer to it, and tells whether the talk has ended. It gives up with
    /// NoMemory alone.
    fn hear(&mut self, byte: u8, out: &mut Vec<u8>) -> Result<bool, NoMemory>
        ensures { IfOk result (λ over.
            Hears (answers self.old) (answers self.new) byte over out.old.items out.new.items) };
}
