//! A check that goes ahead of the analyses of the epochs.

ghost use Rattle.std.specs.Prelude.{◌≡◌, ◌≤◌, IfOk, IfErr};
ghost use Rattle.log_model.specs.Logs.{end_at};
ghost use Rattle.no_memory.specs.Faults.{IsCausedBy};
ghost use Rattle.replay_run.specs.Counters.{CountRecords};
ghost use Rattle.replayer.specs.InParts.{Differs, resumed};
ghost use Rattle.checked_epochs.specs.Beginnings.{HasComeTo};
ghost use Rattle.checked_epochs.specs.Aheads.{IsAhead, IsNext, stand_of};

use epoch_cut::EpochTicket;
use no_memory::Fault;
use replay_log::Log;
use replayer::{Checker, CursorState, Divergence, Nobody};
use std::alloc::Global;

/// An epoch, and the state that the check had where the epoch begins.
#[derive(Drop)]
pub struct Beginning {
    pub ticket: EpochTicket,
    pub state: CursorState,
}

/// How far a check has come ahead of the analyses.
#[derive(Drop)]
pub struct Ahead {
    /// Where it stands: where the next epoch begins, or before.
    pub state: CursorState,
    /// The time at which the next epoch begins.
    pub next: u64,
    /// The epochs that aren't begun, but for the run's last: the next of them stands at the end.
    pub left: Vec<EpochTicket>,
    /// The run's last epoch.
    pub last: EpochTicket,
}

/// The epoch that a check begins next.
#[derive(Drop)]
pub enum Next {
    /// One before the last, and the check that goes on from where it begins.
    Inner { beginning: Beginning, ahead: Ahead },
    /// The run's last epoch.
    Last(Beginning),
}

/// Goes on from a state to a time. It says where the log differs from the run; else it gives up with NoMemory alone.
fn come_to<'a>(
    alloc: Global,
    log: &'a Log,
    state: CursorState,
    until: u64,
) -> Result<Checker<'a>, Fault<Divergence>>
    requires counted { CountRecords log.now state.counters }
    requires later { state.counters.time ≤ until }
    requires within { until ≤ end_at log.now.end }
    ensures come { IfOk result (HasComeTo (resumed log.now state) until) }
    ensures fault { IfErr result (IsCausedBy (Differs (resumed log.now state))) }
{
    let checker = Checker::resume(alloc, log, state)?;
    match checker.go_to(until, &mut Nobody) {
        Ok(checker) => Ok(checker),
        Err(divergence) => Err(Fault::At(divergence)),
    }
}

/// Goes on to where the next epoch begins, and begins it. It says where the log differs from the run; else it gives up with
/// NoMemory alone.
pub fn begin_next(alloc: Global, log: &Log, ahead: Ahead) -> Result<Next, Fault<Divergence>>
    requires { IsAhead log.now ahead }
    ensures next { IfOk result (IsNext log.now ahead) }
    ensures fault { IfErr result (IsCausedBy (Differs (stand_of log.now ahead))) }
{
    let Ahead {
        state,
        next,
        mut left,
        last,
    } = ahead;
    let checker = come_to(alloc, log, state, next)?;
    let Some(ticket) = left.pop() else {
        let state = checker.into_state();
        return Ok(Next::Last(Beginning {
            ticket: last,
            state,
        }));
    };
    let next = ticket.past_last();
    let state = checker.state(alloc)?;
    let beginning = Beginning { ticket, state };
    let ahead = Ahead {
        state: checker.into_state(),
        next,
        left,
        last,
    };
    Ok(Next::Inner { beginning, ahead })
}
