//! Laws of the definitions. Each is a function that does nothing: its contract is the law.

ghost use Rattle.order_gateway.specs.Laws.{GuestHasWords, GuestIsImage, WindowHoldsGuest, TextIsQuery, AlikeHaveSameNumbers};
ghost use Rattle.order_gateway.specs.Laws.{LongLogIsRefused, ManyEpochsAreRefused, LinesAreGiven};
ghost use Rattle.order_gateway.specs.Laws.{HasAnswer, HasOneAnswer, AnswerIsLines, LinesAreAnswer};

/// A word stands for each instruction of the guest, its file is a program file, and a window of the workload's pages can
/// hold its image.
pub fn guest_is_image()
    ensures words { GuestHasWords }
    ensures image { GuestIsImage }
    ensures window { WindowHoldsGuest }
{}

/// The text of the workload's query stands for it.
pub fn text_is_query()
    ensures { TextIsQuery }
{}

/// Queries that have one rule and the same points, and choose the same bytes, have the same numbers, over each trace and
/// for all cuts.
pub fn alike_have_same_numbers()
    ensures { AlikeHaveSameNumbers }
{}

/// A log whose text is too long comes to that limit, else too many epochs to theirs, and else the log to the lines.
pub fn logs_come_to_lines()
    ensures long { LongLogIsRefused }
    ensures many { ManyEpochsAreRefused }
    ensures lines { LinesAreGiven }
{}

/// A seed, a number of steps up to 2^40 and a length of epochs have one answer: there is one, and at most one.
pub fn one_bench_answer()
    ensures some { HasAnswer }
    ensures one { HasOneAnswer }
{}

/// A text is the answer where it is the lines of the workload's run, and the run is within the limits; else there is none.
pub fn bench_answer_is_lines()
    ensures answer { AnswerIsLines }
    ensures lines { LinesAreAnswer }
{}
