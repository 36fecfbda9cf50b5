//! Laws of the definitions: each is the contract of a function that does nothing.

ghost use Rattle.elf_model.specs.StartLaws.{StartHasX0Zero};

/// A run begins with 0 in register x0.
pub fn x0_starts_zero()
    ensures { StartHasX0Zero }
{}
