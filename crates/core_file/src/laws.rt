//! Laws of the definitions: each is the contract of a function that does nothing.

ghost use Rattle.core_file.specs.CoreLaws.{HasWindow, HasRegisters, EndsWithRun, IsElfCore, BeginsWithMark, MarkIsLong, IsNoProgram, IsNoLog, IsNoPage};

/// A core file has the window and the registers of the moment of its time, the moment that queries, paths and the
/// calls in progress speak of.
pub fn core_is_of_its_moment()
    ensures window { HasWindow }
    ensures registers { HasRegisters }
{}

/// Past the run's steps a time counts as their number.
pub fn core_ends_with_its_run()
    ensures { EndsWithRun }
{}

/// By the fields of the ELF header, and by its program headers, a core file is one.
pub fn core_is_elf()
    ensures { IsElfCore }
{}

/// All core files begin alike, and no program, no log and no page begins so.
pub fn mark_is_of_cores_alone()
    ensures begins { BeginsWithMark }
    ensures long { MarkIsLong }
    ensures program { IsNoProgram }
    ensures log { IsNoLog }
    ensures page { IsNoPage }
{}
