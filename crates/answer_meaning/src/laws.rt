//! Laws of the definitions: each is the contract of a function that does nothing.

ghost use Rattle.std.specs.Prelude.{List, ℕ};
ghost use Rattle.isa.specs.Machine.{State};
ghost use Rattle.log_model.specs.Logs.{Log};
ghost use Rattle.flow_model.specs.declared.SourceByte.{SourceByte};
ghost use Rattle.report_model.specs.Rows.{Row};
ghost use Rattle.report_model.specs.Text.{report_text};
ghost use Rattle.report_model.specs.Influence.{influence_text};
ghost use Rattle.range_report.specs.Text.{ranges_report};
ghost use Rattle.path_find.specs.declared.writing.End.{End};
ghost use Rattle.path_find.specs.declared.writing.Stop.{Stop};
ghost use Rattle.path_find.specs.Text.{path_text};
ghost use Rattle.decision_find.specs.Text.{decisions_text};
ghost use Rattle.run_output.specs.Calls.{calls_text};
ghost use Rattle.run_output.specs.Stack.{pcs_text};
ghost use Rattle.run_output.specs.Stacks.{stacks_text};
ghost use Rattle.run_output.specs.Summary.{summary_text};
ghost use Rattle.answer_meaning.specs.PrefixFree.{ArePrefixFree};
ghost use Rattle.flow_model.specs.declared.Rule.TheVariants.{Copy, Keep, Compute, Index};
ghost use Rattle.answer_meaning.specs.StepLaws.{StaysSound, MovesAreSingle, MovesKeepContent, DeterminedBy, ReceivedIsThere, FlowsWithin};
ghost use Rattle.answer_meaning.specs.FewerLaws.{FewerDetermine};
ghost use Rattle.answer_meaning.specs.RunLaws.{FitsMakesRun, CopiedContents, CopiedRows, DeterminedContents, DeterminedRows, SamePathSameTrace, OriginsWithin};
ghost use Rattle.answer_meaning.specs.MovedLaws.{RowsAreOfMovedBytes};
ghost use Rattle.answer_meaning.specs.RangeMeaning.{CopiedAreUnchanged, MovesAreUnchanged, LinesAreMoved, SameIsSame};
ghost use Rattle.answer_meaning.specs.PathMeaning.{StepsFit, PathIsOfLocations, PathHoldsByte, ToldPathHoldsByte};
ghost use Rattle.answer_meaning.specs.DecisionLaws.{StepsAreSame, ContentsAreSame, PathIsSame, ReceivedIsSame, RowsAreSame, LengthsAreSame, EndsAreSame, NoInfluence};
ghost use Rattle.answer_meaning.specs.Recordings.{RecordingsAreAlike};

/// A step leaves a sound state sound: 32 registers of words, of which the first is 0, and a window of bytes.
pub fn steps_stay_sound()
    ensures { StaysSound }
{}

/// What flows by copy, and by keep, is the very byte: at most one location flows into another, and the content after
/// the step is that location's before it.
pub fn copy_moves()
    ensures single { MovesAreSingle }
    ensures step { MovesKeepContent }
{}

/// What flows by compute determines the content after the step, unless the step receives it, among steps with one
/// effective address. What flows by index determines it among those too that load from other addresses.
pub fn flow_determines()
    ensures compute { DeterminedBy Compute }
    ensures index { DeterminedBy Index }
    ensures received { ReceivedIsThere }
{}

/// The rules nest: what flows by copy flows by keep, what flows by keep flows by compute, and what flows by compute
/// flows by index, in each step. So it is with the origins of each location, at each time and in each trace.
pub fn rules_nest()
    ensures copied { FlowsWithin Copy Keep }
    ensures kept { FlowsWithin Keep Compute }
    ensures computed { FlowsWithin Compute Index }
    ensures copied_origins { OriginsWithin Copy Keep }
    ensures kept_origins { OriginsWithin Keep Compute }
    ensures computed_origins { OriginsWithin Compute Index }
{}

/// A log that fits a program of bytes makes a run that these laws speak of.
pub fn fits_makes_run()
    ensures { FitsMakesRun }
{}

/// Rows are of moved bytes, by every rule: the calls of the run wrote a row's output byte, and received each of its
/// sources.
pub fn rows_are_of_moved_bytes()
    ensures { RowsAreOfMovedBytes }
{}

/// Copied bytes are the bytes: under copy, and under keep, each location has at most one origin at each time, and where
/// it has one, its content is the byte received there. So has each row: an output byte that has a source is the byte
/// received there.
pub fn copied_bytes_are_received()
    ensures contents { CopiedContents }
    ensures rows { CopiedRows }
{}

/// Compute loses no explicit flow: where two runs of one beginning take one path, and received the same at all sources of
/// a row and at the bytes that no one chose, they have the same byte there.
pub fn compute_loses_no_flow()
    ensures contents { DeterminedContents Compute }
    ensures rows { DeterminedRows Compute }
    ensures trace { SamePathSameTrace }
{}

/// Index loses no flow by the addresses of loads: the same holds of runs whose loads go to other addresses.
pub fn index_loses_no_flow()
    ensures contents { DeterminedContents Index }
    ensures rows { DeterminedRows Index }
{}

/// Fewer origins than compute lists determine a lane of some results: lanes above have no part in a sum, a product or a
/// shift to the left, and lanes below none in a shift to the right or an unsigned quotient.
pub fn fewer_origins_determine()
    ensures { FewerDetermine }
{}

/// Where each row has no source, or one that its byte is, no run of the report is told as changed; so it is under copy
/// and under keep.
pub fn copied_runs_are_unchanged()
    ensures rows { CopiedAreUnchanged }
    ensures moves { MovesAreUnchanged }
{
    range_report::laws::runs_are_longest();
    copied_bytes_are_received();
}

/// Of a run of the machine, calls moved all bytes that a line tells, on both sides. So where a line says that they are the
/// same, they are.
pub fn same_bytes_are_same()
    ensures moved { LinesAreMoved }
    ensures same { SameIsSame }
{
    range_report::laws::runs_are_longest();
    range_report::laws::same_holds_its_range();
    source_ranges::laws::ranges_are_longest();
    rows_are_of_moved_bytes();
}

/// The instruction of each step of a run has a word. So each arrival of a path to a location is at a location.
pub fn paths_are_of_locations()
    ensures fit { StepsFit }
    ensures located { PathIsOfLocations }
{
    path_find::laws::paths_are_located();
}

/// Under copy, and under keep, each location of a path holds, after the step in which the content arrived there, the
/// very byte that the run received; and so does the path's end, at its time. So it is of each path that is told.
pub fn paths_hold_the_byte()
    ensures path { PathHoldsByte }
    ensures told { ToldPathHoldsByte }
{
    copied_bytes_are_received();
    path_find::laws::one_path_is_a_path();
    paths_are_of_locations();
}

/// Where no decision of a run comes from bytes that differ in another, the other does the same as far as both go; the
/// contents that come from nothing that differs are the same, and so are the rows.
pub fn undecided_runs_are_one()
    ensures steps { StepsAreSame Compute }
    ensures contents { ContentsAreSame Compute }
    ensures path { PathIsSame Compute }
    ensures received { ReceivedIsSame Compute }
    ensures rows { RowsAreSame Compute }
{}

/// The same by the rule index, whose decisions have no addresses of loads.
pub fn undecided_runs_are_one_by_index()
    ensures steps { StepsAreSame Index }
    ensures contents { ContentsAreSame Index }
    ensures path { PathIsSame Index }
    ensures received { ReceivedIsSame Index }
    ensures rows { RowsAreSame Index }
{}

/// By compute such runs end alike.
pub fn undecided_runs_end_alike()
    ensures lengths { LengthsAreSame }
    ensures ends { EndsAreSame }
{}

/// Two runs of one program, of which no decision comes from bytes that differ, are the same but for rows that list them.
pub fn what_decides_nothing_has_no_influence()
    ensures { NoInfluence }
{}

/// So are two recordings of one program over inputs that differ at such bytes, where the clock answers the same as far as both
/// ask it.
pub fn recordings_are_alike()
    ensures { RecordingsAreAlike }
{}

/// Less than the whole of a report is no report, whatever the files; so it is of the influence of source bytes, a report in
/// ranges, a path, decisions, calls, the calls in progress, those at any number of times, and a run's numbers.
pub fn no_front_is_a_text()
    ensures report { ArePrefixFree report_text }
    ensures influence { ArePrefixFree influence_text }
    ensures ranges { ArePrefixFree (λ (x : Log × List Row). ranges_report x.0 x.1) }
    ensures path { ArePrefixFree (λ (x : SourceByte × End × List Stop). path_text x.0 x.1 x.2) }
    ensures decisions { ArePrefixFree decisions_text }
    ensures calls { ArePrefixFree calls_text }
    ensures stack { ArePrefixFree pcs_text }
    ensures stacks { ArePrefixFree (λ (x : State × Log × List ℕ). stacks_text x.0 x.1 x.2) }
    ensures numbers { ArePrefixFree summary_text }
{}
