//! The analysis of an epoch from where it begins.

ghost use Rattle.std.specs.Prelude.{◌≡◌, IfOk, OnOk, IfErr};
ghost use Rattle.no_memory.specs.Faults.{IsCausedBy};
ghost use Rattle.replay_run.specs.Counters.{CountRecords};
ghost use Rattle.replayer.specs.InParts.{Differs};
ghost use Rattle.checked_epochs.specs.Beginnings.{AgreesToEnd, IsBegun, IsLastBegun, IsFoundOf, run_of};

use crate::ahead::Beginning;
use epoch_cut::EpochTicket;
use epoch_summary::Summary;
use no_memory::{Fault, NoMemory};
use outer_io::Gate;
use query_lang::Query;
use replay_log::Log;
use replayer::{Checker, Divergence};
use std::alloc::Global;

/// Enters the gate for an epoch whose analysis begins. It gives the epoch, and the check that goes on from where the epoch begins,
/// or gives up with NoMemory alone.
pub fn enter<'a, G: Gate>(
    alloc: Global,
    gate: &G,
    log: &'a Log,
    beginning: Beginning,
) -> Result<(EpochTicket, Checker<'a>), NoMemory>
    requires { CountRecords log.now beginning.state.counters }
    ensures ticket { IfOk result (λ r. r.0 ≡ beginning.ticket) }
    ensures run { IfOk result (λ r. r.1 ≡ run_of log.now beginning) }
{
    let Beginning { ticket, state } = beginning;
    gate.enter(ticket.number());
    Ok((ticket, Checker::resume(alloc, log, state)?))
}

/// The summary of an epoch before the last, which enters the gate as its analysis begins. It says where the log differs from the
/// run; else it gives up with NoMemory alone.
pub fn analyse_ahead<G: Gate>(
    alloc: Global,
    gate: &G,
    log: &Log,
    query: &Query,
    beginning: Beginning,
) -> Result<Summary, Fault<Divergence>>
    requires { IsBegun log.now beginning }
    ensures found { IfOk result (IsFoundOf query.now log.now beginning) }
    ensures fault { IfErr result (IsCausedBy (Differs (run_of log.now beginning))) }
{
    let (ticket, checker) = enter(alloc, gate, log, beginning)?;
    local_taint::analyse_ahead(alloc, ticket, checker, query)
}

/// The summary of the run's last epoch, which enters the gate as its analysis begins. It says where the log differs from the
/// run; else it gives up with NoMemory alone.
pub fn analyse_last<G: Gate>(
    alloc: Global,
    gate: &G,
    log: &Log,
    query: &Query,
    beginning: Beginning,
) -> Result<Summary, Fault<Divergence>>
    requires { IsLastBegun log.now beginning }
    ensures found { IfOk result (IsFoundOf query.now log.now beginning) }
    ensures agrees { OnOk result (AgreesToEnd (run_of log.now beginning)) }
    ensures fault { IfErr result (IsCausedBy (Differs (run_of log.now beginning))) }
{
    let (ticket, checker) = enter(alloc, gate, log, beginning)?;
    local_taint::analyse_last(alloc, ticket, checker, query)
}
