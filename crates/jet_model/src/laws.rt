//! Laws of what files come to. Each is a function that does nothing: its contract is the law.

ghost use Rattle.std.specs.Prelude.{◌≡◌, ◌<◌, ◌≤◌, ◌^◌, ℕ, List, Option, None, Result, Ok, length};
ghost use Rattle.std.specs.List.{filter};
ghost use Rattle.isa.specs.Machine.{State};
ghost use Rattle.flow_model.specs.declared.Rule.{Rule};
ghost use Rattle.log_model.specs.declared.Version.TheVariants.{Two};
ghost use Rattle.log_model.specs.Logs.{Log, IsLog, log_text, steps};
ghost use Rattle.log_model.specs.Reading.{log_of};
ghost use Rattle.report_model.specs.Query.{Query, has_source};
ghost use Rattle.report_model.specs.Influence.{chosen_sources};
ghost use Rattle.replay_model.specs.Run.{trace};
ghost use Rattle.replay_model.specs.Comparison.{divergence};
ghost use Rattle.record_model.specs.Recorded.{Setting, IsRecorded};
ghost use Rattle.jet_refusal.specs.declared.refusal.Refusal.{Refusal};
ghost use Rattle.jet_model.specs.Contents.{Contents, Names};
ghost use Rattle.jet_model.specs.Sources.{received_sources};
ghost use Rattle.jet_model.specs.Lengths.{epoch_length, cuts_by};
ghost use Rattle.jet_model.specs.Answer.{epochs_check, told_check};
ghost use Rattle.jet_model.specs.Answer.{Limits, query_answer, queries_answer, run_answer, convert_answer, IsRecordAnswer, HoldsBytes, AreInRange, RecordAnswer};
ghost use Rattle.jet_model.specs.Headline.{IsGivenByQuery, AreReportsOf, IsGivenBy, IsConversionOf, IsRecordingOf};
ghost use Rattle.jet_model.specs.Headline.{IsShort, AreShort, AreAllShort, HasFewIfTold};

/// Where the words tell no length, a run has no more epochs than workers, and few lengths. So a run is refused for its epochs
/// only where it has too many of the length that is told.
pub fn untold_epochs_are_few()
    ensures few { (rule : Rule) (workers steps : ℕ) → 1 ≤ workers → length (cuts_by None rule workers steps) ≤ workers }
    ensures check { (told : Option ℕ) (workers : ℕ) (log : Log) → workers ≤ 64
        → epochs_check (epoch_length told workers (steps log)) log ≡ told_check told log }
{}

/// Where three files come to a text, it is what the query gives over the run, as a report or an influence, whatever the
/// length of an epoch: the log fits the program, and the query can be read.
pub fn answer_is_given()
    ensures { (given : Query → State → Log → List ℕ) (told : Option ℕ) (file : Contents) (names : Names) (text : List ℕ)
        → query_answer given told file names ≡ Ok text → IsGivenByQuery given file names text }
{}

/// Three files come to what the query gives, where none has more than 2^26 bytes, and the run no more than 4096 epochs
/// of a length that is told.
pub fn given_is_answer()
    ensures { (given : Query → State → Log → List ℕ) (told : Option ℕ) (file : Contents) (names : Names) (text : List ℕ)
        → AreShort file names → (g : IsGivenByQuery given file names text) → HasFewIfTold told g.log
        → query_answer given told file names ≡ Ok text }
{}

/// Where a program, a log and several queries come to a text, it is their reports, one after another, whatever the
/// length of an epoch.
pub fn reports_are_given()
    ensures { (told : Option ℕ) (file : Contents) (program log : List ℕ) (names : List (List ℕ)) (text : List ℕ)
        → queries_answer told file program log names ≡ Ok text → AreReportsOf file program log names text }
{}

/// A program, a log and several queries come to their reports, where no file has more than 2^26 bytes, and the run no
/// more than 4096 epochs of a length that is told.
pub fn given_are_reports()
    ensures { (told : Option ℕ) (file : Contents) (program log : List ℕ) (names : List (List ℕ)) (text : List ℕ)
        → IsShort (file program) → IsShort (file log) → AreAllShort file names
        → (g : AreReportsOf file program log names text) → HasFewIfTold told g.log
        → queries_answer told file program log names ≡ Ok text }
{}

/// Where a program and a log come to a text, it is what is made of the run: the log fits the program.
pub fn run_answer_is_given()
    ensures { (file : Contents) (program log : List ℕ) (given : State → Log → List ℕ) (text : List ℕ)
        → run_answer file program log given ≡ Ok text → IsGivenBy file program log given text }
{}

/// A program and a fitting log come to the text that is made of the run, where neither file has more than 2^26 bytes.
pub fn given_is_run_answer()
    ensures { (file : Contents) (program log : List ℕ) (given : State → Log → List ℕ) (text : List ℕ)
        → IsShort (file program) → IsShort (file log) → IsGivenBy file program log given text
        → run_answer file program log given ≡ Ok text }
{}

/// Where a program and a log come to a new text of the log, it is that in version 2, and it is read as the same log.
pub fn convert_answer_is_conversion()
    ensures { (file : Contents) (program log text : List ℕ)
        → convert_answer file program log ≡ Ok text → IsConversionOf file program log text }
{}

/// A program and a fitting log come to the log in version 2, where neither it nor a file has more than 2^26 bytes.
pub fn given_is_convert_answer()
    ensures { (file : Contents) (program log text : List ℕ)
        → IsShort (file program) → IsShort (file log) → length text ≤ 2 ^ 26
        → IsGivenBy file program log (λ start. log_text Two) text → convert_answer file program log ≡ Ok text }
{}

/// A fitting log in version 2, where it has at most 2^26 bytes, is read as the same log.
pub fn given_is_conversion()
    ensures { (file : Contents) (program log text : List ℕ)
        → IsGivenBy file program log (λ start. log_text Two) text → length text ≤ 2 ^ 26
        → IsConversionOf file program log text }
{}

/// Where a program, inputs and the clock's answers come to a text, it is the log of the program's run, and is read as it.
pub fn record_answer_is_recording()
    ensures { (file : Contents) (program : List ℕ) (inputs : List (List ℕ)) (limits : Limits) (answers : List ℕ)
        (text : List ℕ)
        → IsRecordAnswer file program inputs limits answers (Ok text)
        → IsRecordingOf file program inputs limits answers text }
{}

/// A program, inputs and the clock's answers come to the log of the run, where no file has more than 2^26 bytes.
pub fn recording_is_record_answer()
    ensures { (file : Contents) (program : List ℕ) (inputs : List (List ℕ)) (limits : Limits) (answers : List ℕ)
        (text : List ℕ)
        → IsShort (file program) → AreAllShort file inputs
        → IsRecordingOf file program inputs limits answers text
        → IsRecordAnswer file program inputs limits answers (Ok text) }
{}

/// A log that is recorded is read from its text in version 2, where that has at most 2^26 bytes. So that a recording is read
/// follows from its length.
pub fn recorded_is_read()
    ensures { (setting : Setting) (answers : List ℕ) (log : Log) → IsRecorded setting answers log
        → length (log_text Two log) ≤ 2 ^ 26 → log_of (log_text Two log) ≡ Ok log }
{}

/// Where nothing differs, the source bytes that a query chooses of a trace are those that it chooses of what the log received
/// on each channel.
pub fn sources_are_received()
    ensures { (q : Query) (start : State) (log : Log) → IsLog log → divergence start log ≡ None
        → chosen_sources q (trace start log) ≡ filter (has_source q) (received_sources log) }
{}

/// A program, at most 16 inputs and limits in range come to an answer, whatever the clock answers.
pub fn a_record_answer()
    ensures { (file : Contents) (program : List ℕ) (inputs : List (List ℕ)) (limits : Limits) (clock : ℕ → ℕ)
        → HoldsBytes file → length inputs ≤ 16 → AreInRange limits → ((k : ℕ) → clock k < 2 ^ 64)
        → RecordAnswer file program inputs limits clock }
{}

/// A program, inputs and the clock's answers come to at most one answer. (Other answers are values of functions.)
pub fn one_record_answer()
    ensures { (file : Contents) (program : List ℕ) (inputs : List (List ℕ)) (limits : Limits) (answers : List ℕ)
        (a b : Result (List ℕ) Refusal)
        → IsRecordAnswer file program inputs limits answers a → IsRecordAnswer file program inputs limits answers b
        → a ≡ b }
{}
