//! Laws of replays. Each is a function that does nothing: its contract is the law.

ghost use Rattle.std.specs.Prelude.{◌≡◌, ◌≤◌, ◌^◌, ◌↔◌, length, Some, None};
ghost use Rattle.isa.specs.Machine.{State};
ghost use Rattle.log_model.specs.declared.Version.TheVariants.{Two};
ghost use Rattle.log_model.specs.Logs.{Log, IsLog, CanHold, log_text};
ghost use Rattle.replay_model.specs.declared.Divergence.{Divergence as Difference};
ghost use Rattle.replay_model.specs.Run.{trace};
ghost use Rattle.replay_model.specs.Comparison.{divergence};
ghost use Rattle.replay_model.specs.Firsts.{AgreesToTheEnd, IsFirstDifference};
ghost use Rattle.replay_model.specs.Offsets.{OffsetsCount, AreWritesApart};
ghost use Rattle.replay_model.specs.Received.{ReadsAreReceived};

/// There is no divergence exactly where nothing differs at any moment up to the time of the end.
pub fn none_where_all_agrees()
    ensures { (start : State) (log : Log) → (divergence start log ≡ None) ↔ AgreesToTheEnd start log }
{}

/// There is a divergence exactly where something differs up to the time of the end, and it is the first
/// that does.
pub fn divergence_is_first()
    ensures { (start : State) (log : Log) (d : Difference) → (divergence start log ≡ Some d)
        ↔ IsFirstDifference start log d }
{}

/// What a divergence tells differs.
pub fn divergence_differs()
    ensures { (start : State) (log : Log) (d : Difference) → divergence start log ≡ Some d → d.kept ≡ d.seen → ⊥ }
{}

/// Where nothing differs, the offset of a read or a write that moves bytes is how many bytes the steps
/// before it read, or wrote, on its channel.
pub fn offsets_count()
    ensures { (start : State) (log : Log) → IsLog log → divergence start log ≡ None
        → OffsetsCount (trace start log) log.records }
{}

/// No two writes of a run have an output byte in common.
pub fn writes_apart()
    ensures { (start : State) (log : Log) → AreWritesApart (trace start log) }
{}

/// Where nothing differs, a source byte is read by some step exactly where its offset is below the number of bytes that
/// the log received on its channel.
pub fn reads_are_received()
    ensures { (start : State) (log : Log) → IsLog log → divergence start log ≡ None
        → ReadsAreReceived (trace start log) log.records }
{}

/// Where nothing differs, version 2 can hold a log whose text in it is at most 2^27 bytes long.
pub fn fitting_is_held()
    ensures { (start : State) (log : Log) → IsLog log → divergence start log ≡ None
        → length (log_text Two log) ≤ 2 ^ 27 → CanHold Two log }
{}
