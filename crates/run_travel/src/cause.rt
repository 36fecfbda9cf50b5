//! Why a move stopped.

ghost use Rattle.std.specs.Prelude.{◌≡◌};
ghost use Rattle.run_travel.specs.Moves.{cause_at_end, cause_of};

use crate::watch::Watch;
use log_model::RunEnd;

/// Why a move stopped.
#[derive(Clone, Copy)]
pub enum Cause {
    /// A breakpoint or the aim of the move was reached, or one step was taken back.
    Arrived,
    /// The step that was made last, or taken back last, meets this watchpoint: of several the one that was set first.
    Watched(Watch),
    /// No step is left of a run that exited or was cut off, or none was left before the move.
    End,
    /// The move came to the trap in which the run ended. The number is the trap's kind.
    Trapped(u32),
    /// Nothing is left to be taken back: the move stood at the beginning, or there is no stop before.
    Beginning,
}

/// Why a move stopped that came to the end of its run.
pub(crate) fn cause_at_end(end: RunEnd) -> Cause
    ensures { result ≡ cause_at_end end }
{
    match end {
        RunEnd::Exit { .. } => Cause::End,
        RunEnd::Trap { kind, .. } => Cause::Trapped(kind),
        RunEnd::Limit { .. } => Cause::End,
    }
}

/// Why a move stopped at a step that meets this watchpoint, if any; `otherwise` where it meets none.
pub(crate) fn cause_of(met: Option<Watch>, otherwise: Cause) -> Cause
    ensures { result ≡ cause_of met otherwise }
{
    match met {
        Some(watch) => Cause::Watched(watch),
        None => otherwise,
    }
}
