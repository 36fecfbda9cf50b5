//! A log compared with the run of its program, a step or a stretch at a time.

ghost use Rattle.std.specs.Prelude.{◌≡◌, ◌≤◌, max, IfOk, OnOk, None, false};
ghost use Rattle.log_model.specs.Logs.{end_at};
ghost use Rattle.replay_model.specs.Comparison.{expected};
ghost use Rattle.replay_model.specs.Comparison as model;
ghost use Rattle.rv_machine.specs.Hart.{IsStep};
ghost use Rattle.replay_run.specs.Expects.{expected_of, event_time};
ghost use Rattle.replay_run.specs.Runs.{hart_of, with_hart};
ghost use Rattle.replayer.specs.Differences.{IsFirst};
ghost use Rattle.replayer.specs.Comparisons.{IsFormed, compares};
ghost use Rattle.replayer.specs.CheckedSteps.{IsStepChecked, IsPlainStepChecked, TookNoRecord};
ghost use Rattle.replayer.specs.Watching.{IsTold, ArePassed, AreWatched, IsStepTold, IsEndChecked};

use crate::compare::{compare, event_in_place_of_a_step, is_limit, is_trap, kept_code, seen_code};
use crate::cursor::PlainStep;
use crate::difference::{Difference, compare_words};
use crate::watcher::{Position, Watcher};
use replay_model::{Divergence, Field};
use replay_run::{Expected, Run};
use rv_machine::Stepped;

/// How the check of one step went, where nothing differs.
#[derive(Clone, Copy)]
pub(crate) enum Checked {
    /// The step was made.
    Advanced,
    /// The log's end is reached.
    Ended,
}

/// Makes one step of the machine, and compares it with what the log has next. A call then waits.
fn step(run: &mut Run<'_>, expected: &Expected<'_>, inputs: u32) -> Result<Stepped, Difference>
    requires goes_on { run.old.waits ≡ false }
    requires form { IsFormed (expected_of expected.now) }
    ensures first { IsFirst (compares run.old.moment.state inputs (expected_of expected.now)) result }
    ensures step { IfOk result (λ stepped. IsStep run.old.moment.state stepped (hart_of run.new)) }
    ensures rest { run.new ≡ with_hart run.old (hart_of run.new) }
{
    let stepped = run.step();
    compare_words(Field::Event, kept_code(expected), seen_code(&stepped))?;
    compare(run.machine(), expected, &stepped, inputs)?;
    Ok(stepped)
}

/// Makes a step where the log has a plain one next, and tells the watcher of it: whatever else happens is a difference of
/// events.
fn check_plain_step<W: Watcher>(run: &mut Run<'_>, watcher: &mut W) -> Result<(), Divergence>
    requires goes_on { run.old.waits ≡ false }
    requires plain { expected run.old.moment.time run.old.moment.left run.old.log.end ≡ model.PlainStep }
    ensures checked { IsPlainStepChecked run.old result run.new }
    ensures told { OnOk result (IsTold W.seen run.old 1 watcher.old watcher.new) }
{
    run.form();
    let time = run.time();
    match run.step_inlined() {
        Stepped::Plain { instr, place } => {
            run.advance();
            watcher.plain(time, PlainStep { instr, place }, &Position { run });
            Ok(())
        }
        stepped => Err(event_in_place_of_a_step(&stepped).at_step(time)),
    }
}

/// Makes plain steps in a row, up to a time before which the log has no call and no end, while it is enough that the watcher is
/// told of them as a follower. It may make none, as before a step that the log doesn't have so.
fn make_quiet_steps<W: Watcher>(run: &mut Run<'_>, watcher: &mut W, until: u64)
    requires goes_on { run.old.waits ≡ false }
    requires until { until ≤ event_time run.old.moment.left run.old.log.end }
    ensures watched { ArePassed W.seen run.old watcher.old run.new watcher.new }
    ensures still { TookNoRecord run.old run.new }
    ensures within { run.new.moment.time ≤ max until run.old.moment.time }
{
    run.form();
    let time = run.time();
    let until = until.min(watcher.quiet_until());
    if time < until {
        run.run_plain(until - time, watcher);
    }
}

/// Makes the plain steps that the log has before its next call, before its end and before a time, and tells the watcher of
/// them.
fn check_plain_steps<W: Watcher>(
    run: &mut Run<'_>,
    watcher: &mut W,
    until: u64,
) -> Result<(), Divergence>
    requires goes_on { run.old.waits ≡ false }
    ensures watched { AreWatched W.seen run.old watcher.old result run.new watcher.new }
    ensures goes_on { OnOk result (run.new.waits ≡ false) }
    ensures within { OnOk result (run.new.moment.time ≤ max until run.old.moment.time) }
{
    let until = run.event_time().min(until);
    while run.time() < until {
        make_quiet_steps(run, watcher, until);
        if run.time() >= until {
            return Ok(());
        }
        check_plain_step(run, watcher)?;
    }
    Ok(())
}

/// Makes the next step, if the log has it so, and tells the watcher of it. It says where the log differs, or that its end is
/// reached: there the exit call is the last step, and a trap is none.
fn check_step<W: Watcher>(run: &mut Run<'_>, watcher: &mut W) -> Result<Checked, Divergence>
    requires goes_on { run.old.waits ≡ false }
    requires not_over { run.old.moment.time ≤ end_at run.old.log.end }
    ensures checked { IsStepChecked run.old result run.new }
    ensures told { IsStepTold W.seen run.old watcher.old result watcher.new }
{
    run.form();
    let expected = run.expected();
    let time = run.time();
    if is_limit(&expected) {
        return Ok(Checked::Ended);
    }
    let inputs = run.log().inputs();
    let stepped = match step(run, &expected, inputs) {
        Ok(stepped) => stepped,
        Err(difference) => return Err(difference.at_step(time)),
    };
    if is_trap(&expected) {
        return Ok(Checked::Ended);
    }
    let step = run.finish(stepped);
    watcher.step(&step, &Position { run });
    match expected {
        Expected::End(_) => Ok(Checked::Ended),
        _ => Ok(Checked::Advanced),
    }
}

/// Checks steps up to a time, at most that of the log's end, and tells the watcher of them; or says where the log differs
/// before.
pub(crate) fn check_to<W: Watcher>(
    run: &mut Run<'_>,
    watcher: &mut W,
    until: u64,
) -> Result<(), Divergence>
    requires goes_on { run.old.waits ≡ false }
    requires within { until ≤ end_at run.old.log.end }
    ensures watched { AreWatched W.seen run.old watcher.old result run.new watcher.new }
    ensures goes_on { OnOk result (run.new.waits ≡ false) }
    ensures there { OnOk result (run.new.moment.time ≡ max until run.old.moment.time) }
{
    while run.time() < until {
        check_plain_steps(run, watcher, until)?;
        if run.time() < until {
            match check_step(run, watcher) {
                Ok(Checked::Advanced) => {}
                Ok(Checked::Ended) => unreachable!(),
                Err(divergence) => return Err(divergence),
            }
        }
    }
    Ok(())
}

/// Checks what the log has at the time of its end, where the run stands, and tells the watcher of the exit call, if the run
/// ends by one.
pub(crate) fn check_end<W: Watcher>(run: &mut Run<'_>, watcher: &mut W) -> Result<(), Divergence>
    requires goes_on { run.old.waits ≡ false }
    requires there { run.old.moment.time ≡ end_at run.old.log.end }
    ensures { IsEndChecked W.seen run.old watcher.old result watcher.new }
{
    match check_step(run, watcher) {
        Ok(Checked::Advanced) => unreachable!(),
        Ok(Checked::Ended) => Ok(()),
        Err(divergence) => Err(divergence),
    }
}
