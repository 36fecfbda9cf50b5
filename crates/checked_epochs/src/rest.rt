//! The epochs that are left, each analysed while the check goes on through the later ones.

ghost use Rattle.std.specs.Prelude.{IfOk, OnOk, IfErr};
ghost use Rattle.std.specs.Thread.{IsSync};
ghost use Rattle.no_memory.specs.Faults.{IsCausedBy};
ghost use Rattle.replayer.specs.InParts.{Differs};
ghost use Rattle.checked_epochs.specs.Beginnings.{AgreesToEnd, IsBegun, IsFoundOf, run_of};
ghost use Rattle.checked_epochs.specs.Aheads.{AreOfLeft, IsAhead, stand_of};

use crate::ahead::{Ahead, Next, begin_next};
use crate::analysing::{analyse_ahead, analyse_last};
use epoch_summary::Summary;
use no_memory::Fault;
use outer_io::Gate;
use query_lang::Query;
use replay_log::Log;
use replayer::Divergence;
use std::alloc::Global;
use std::thread;
use std::thread::Threads;

/// The summaries of all epochs that are left, that of the run's last one first. Each epoch is analysed in a thread of its own,
/// where one can be made, while the check goes on to the next one, and enters the gate as its analysis begins. It says where the
/// log differs from the run; else it gives up with NoMemory alone.
#[cycle(rest)]
pub fn analyse_rest<G: Gate, R: Threads + Sync>(
    rt: &R,
    alloc: Global,
    gate: &G,
    log: &Log,
    query: &Query,
    ahead: Ahead,
) -> Result<Vec<Summary>, Fault<Divergence>>
    requires { IsAhead log.now ahead }
    ensures found { IfOk result (λ all. AreOfLeft query.now log.now ahead all.items) }
    ensures agrees { OnOk result (AgreesToEnd (stand_of log.now ahead)) }
    ensures fault { IfErr result (IsCausedBy (Differs (stand_of log.now ahead))) }
{
    match begin_next(alloc, log, ahead)? {
        Next::Last(beginning) => {
            let mut all = Vec::new(alloc);
            all.push(analyse_last(alloc, gate, log, query, beginning)?)?;
            Ok(all)
        }
        Next::Inner { beginning, ahead } => {
            let analysis = move || -> Result<Summary, Fault<Divergence>>
                requires { IsBegun log.now beginning }
                ensures found { IfOk result (IsFoundOf query.entry.now log.entry.now beginning) }
                ensures fault { IfErr result (IsCausedBy (Differs (run_of log.entry.now beginning))) }
            { analyse_ahead(alloc, gate, log, query, beginning) };
            let onward = move || -> Result<Vec<Summary>, Fault<Divergence>>
                requires { IsSync R.row × IsAhead log.now ahead }
                ensures found { IfOk result (λ all. AreOfLeft query.entry.now log.entry.now ahead all.items) }
                ensures agrees { OnOk result (AgreesToEnd (stand_of log.entry.now ahead)) }
                ensures fault { IfErr result (IsCausedBy (Differs (stand_of log.entry.now ahead))) }
            { analyse_rest(rt, alloc, gate, log, query, ahead) };
            let (found, rest) = thread::join(rt, analysis, onward);
            let mut all = rest?;
            all.push(found?)?;
            Ok(all)
        }
    }
}
