//! Laws of the definitions: each is the contract of a function that does nothing, but for the laws that it rests on.

ghost use Rattle.debug_model.specs.ByteLaws.{StepOfByteIsTold};
ghost use Rattle.debug_model.specs.CommandLaws.{WordsAreRead, TimesAreRead, EachTimeIsReached, RunStaysAsItWas};
ghost use Rattle.debug_model.specs.DialogueLaws.{BeginningIsBeginning, NothingIsBehindTheEnd};
ghost use Rattle.debug_model.specs.FrameLaws.{AnswersAreWritten, DialogueIsHeard};
ghost use Rattle.debug_model.specs.StateLaws.{StateIsOfRun, EachIsAmongAll, RegistersAreRead, MemoryIsBytes};
ghost use Rattle.debug_model.specs.TravelLaws.{StaysWithin, NothingIsPassedForward, NothingIsPassedBack, OnIsTakenBack, StepIsTakenBack, StepBackIsMadeAgain};
ghost use Rattle.debug_model.specs.WriteLaws.{NothingIsWrittenBetween, NothingIsWrittenBefore, TheStepWroteIt};

/// What is written for a beginning of the bytes that are read is the beginning of what is written for all of them; and
/// behind the packet that ends the session nothing is.
pub fn dialogues_grow()
    ensures beginning { BeginningIsBeginning }
    ensures end { NothingIsBehindTheEnd }
{
    remote_frames::laws::beginning_is_heard();
}

/// The packets of answers have none of `#`, `$`, `}` and `*` inside, and 16384 bytes at most; and what is written is
/// heard as them, in order.
pub fn answers_are_heard()
    ensures written { AnswersAreWritten }
    ensures heard { DialogueIsHeard }
{
    remote_frames::laws::frame_is_heard();
}

/// Registers and memory are told of the moment after so many steps of the run of the program under the log. Among all
/// registers each is told as alone, and its text is read as its value. Of memory as many bytes are told as stand in the
/// window, 8000 at most, and they are those at their addresses.
pub fn the_state_is_told()
    ensures run { StateIsOfRun }
    ensures among { EachIsAmongAll }
    ensures registers { RegistersAreRead }
    ensures memory { MemoryIsBytes }
{}

/// Whatever is heard, a session stands at a time of its run: at most the number of the run's steps.
pub fn a_session_stays_within_its_run()
    ensures { StaysWithin }
{
    run_travel::laws::nothing_is_passed_over();
}

/// Between the ends of a move no time is a stop: a move forward comes to the first, or to the end of the run, and a
/// move back to the last, or to the beginning.
pub fn nothing_is_passed_over()
    ensures forward { NothingIsPassedForward }
    ensures back { NothingIsPassedBack }
{
    run_travel::laws::nothing_is_passed_over();
}

/// With breakpoints alone, a move on that began where the pc has one, and made a step, is taken back by a move back.
pub fn a_move_on_is_taken_back()
    ensures { OnIsTakenBack }
{
    run_travel::laws::a_move_on_is_taken_back();
}

/// A step back after a step, and a step after a step back, tell the registers and the memory of before, but at the ends
/// of the run.
pub fn a_step_is_taken_back()
    ensures on { StepIsTakenBack }
    ensures back { StepBackIsMadeAgain }
{
    run_travel::laws::one_step_is_made();
}

/// A packet that asks for a command in words is read as it, and `goto T` goes to each time of the run.
pub fn commands_are_read()
    ensures words { WordsAreRead }
    ensures times { TimesAreRead }
    ensures reached { EachTimeIsReached }
{}

/// A recording stays as it was: whatever was heard, `goto T` finds the registers and the memory that it would have
/// found before.
pub fn a_run_stays_as_it_was()
    ensures { RunStaysAsItWas }
{}

/// Who wrote: between the time to which a move back came, and the time from which it came, the bytes of a watchpoint
/// that looks for writes stay the same, but for the step that was taken back. Where the move is told the beginning,
/// they are the same at all times before; and else, where it is the one point that is set and for writes alone, the step
/// that was taken back wrote one of them.
pub fn who_wrote()
    ensures between { NothingIsWrittenBetween }
    ensures before { NothingIsWrittenBefore }
    ensures step { TheStepWroteIt }
{
    run_travel::laws::a_watchpoint_is_met_by_a_byte_of_both();
    run_travel::laws::nothing_is_passed_over();
}

/// The step that `read` or `wrote` tells of a byte moved it. Where none is told, the run moved no more bytes that way
/// on the channel.
pub fn the_step_of_a_byte_is_told()
    ensures { StepOfByteIsTold }
{
    run_output::laws::lines_tile_channels();
}
