//! The analysis of the run's first epoch, before which there was nothing.

ghost use Rattle.std.specs.Prelude.{◌≡◌, IfOk, OnOk, IfErr};
ghost use Rattle.no_memory.specs.Faults.{IsCausedBy};
ghost use Rattle.replayer.specs.InParts.{Differs};
ghost use Rattle.checked_epochs.specs.Beginnings.{AgreesToEnd, IsBegun, IsLastBegun, run_of};
ghost use Rattle.checked_epochs.specs.Found.{IsFirstOf};

use crate::ahead::Beginning;
use crate::analysing::enter;
use no_memory::Fault;
use outer_io::Gate;
use query_lang::Query;
use replay_log::Log;
use replayer::Divergence;
use std::alloc::Global;
use summary_join::FirstEpoch;

/// What is found of the run's first epoch, which isn't its last, and enters the gate as its analysis begins. It says where the
/// log differs from the run; else it gives up with NoMemory alone.
pub fn analyse_first<G: Gate>(
    alloc: Global,
    gate: &G,
    log: &Log,
    query: &Query,
    beginning: Beginning,
) -> Result<FirstEpoch, Fault<Divergence>>
    requires begun { IsBegun log.now beginning }
    requires first { beginning.ticket.first ≡ 0 }
    ensures found { IfOk result (IsFirstOf query.now log.now beginning) }
    ensures fault { IfErr result (IsCausedBy (Differs (run_of log.now beginning))) }
{
    let (ticket, checker) = enter(alloc, gate, log, beginning)?;
    let tracked = seq_taint::check_beginning(alloc, checker, ticket.past_last(), query)?;
    Ok(FirstEpoch::new(tracked.labels, tracked.places, tracked.sinks))
}

/// What is found of the only epoch of a run, which enters the gate as its analysis begins. It says where the log differs from the
/// run; else it gives up with NoMemory alone.
pub fn analyse_only<G: Gate>(
    alloc: Global,
    gate: &G,
    log: &Log,
    query: &Query,
    beginning: Beginning,
) -> Result<FirstEpoch, Fault<Divergence>>
    requires begun { IsLastBegun log.now beginning }
    requires first { beginning.ticket.first ≡ 0 }
    ensures found { IfOk result (IsFirstOf query.now log.now beginning) }
    ensures agrees { OnOk result (AgreesToEnd (run_of log.now beginning)) }
    ensures fault { IfErr result (IsCausedBy (Differs (run_of log.now beginning))) }
{
    let (_, checker) = enter(alloc, gate, log, beginning)?;
    let tracked = seq_taint::check_all(alloc, checker, query)?;
    Ok(FirstEpoch::new(tracked.labels, tracked.places, tracked.sinks))
}
