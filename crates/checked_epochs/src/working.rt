//! A log checked, and the epochs of its run analysed meanwhile.

ghost use Rattle.std.specs.Prelude.{◌≡◌, [], ◌∷◌, ◌++◌, reverse, IfOk, OnOk, IfErr};
ghost use Rattle.std.specs.Thread.{IsSync};
ghost use Rattle.log_model.specs.Logs.{steps};
ghost use Rattle.no_memory.specs.Faults.{IsCausedBy};
ghost use Rattle.epoch_model.specs.Cutting.{IsCutting, epochs};
ghost use Rattle.epoch_cut.specs.Numbered.{numbered};
ghost use Rattle.replayer.specs.Checks.{IsChecked, IsMisfit};
ghost use Rattle.replayer.specs.InParts.{Differs, IsOpened};
ghost use Rattle.replayer.specs.Jobs.{trace_of};
ghost use Rattle.summary_join.specs.First.{found_of};
ghost use Rattle.checked_epochs.specs.Beginnings.{AgreesToEnd, IsBegun, IsOfSome, run_of};
ghost use Rattle.checked_epochs.specs.Aheads.{AreOfLeft, IsAhead, left_of, stand_of};
ghost use Rattle.checked_epochs.specs.Found.{AreAllAhead, AreAllFound, IsFirstOf};

use crate::ahead::{Ahead, Next, begin_next};
use crate::first::{analyse_first, analyse_only};
use crate::rest::analyse_rest;
use elf_image::{Image, Program};
use epoch_cut::Cuts;
use epoch_summary::Summary;
use no_memory::{Fault, NoMemory};
use outer_io::Gate;
use query_lang::Query;
use replay_log::Log;
use replayer::{CheckFault, Checker, Divergence, Job, Misfit};
use std::alloc::Global;
use std::thread;
use std::thread::Threads;
use summary_join::FirstEpoch;

/// A check that stands at the beginning of a run that is cut, before all its epochs. It gives up with NoMemory alone.
fn ahead_of(alloc: Global, checker: Checker<'_>, cuts: Cuts) -> Result<Ahead, NoMemory>
    requires of_some { IsOfSome checker }
    requires begins { checker.moment.time ≡ 0 }
    requires cutting { IsCutting (steps checker.log) cuts }
    ensures stand { IfOk result (λ a. stand_of checker.entry.log a ≡ checker.entry) }
    ensures ahead { IfOk result (IsAhead checker.entry.log) }
    ensures next { IfOk result (λ a. a.next ≡ 0) }
    ensures epochs { IfOk result (λ a. left_of a ++ a.last ∷ [] ≡ numbered 0 (epochs 0 cuts)) }
{
    // The contract of this says that there is an epoch.
    let _count = cuts.count();
    let mut left = cuts.tickets(alloc)?;
    let Some(last) = left.pop() else {
        unreachable!()
    };
    left.reverse();
    let state = checker.into_state();
    Ok(Ahead {
        state,
        next: 0,
        left,
        last,
    })
}

/// A check that stands at the beginning of the run of a program, before all epochs of the run. Its fault is that of
/// [`Checker::open`].
fn open(
    alloc: Global,
    program: &[u8],
    image: &Image,
    log: &Log,
    cuts: Cuts,
) -> Result<Ahead, CheckFault>
    requires cutting { IsCutting (steps log.now) cuts }
    ensures opened { IfOk result (λ a. IsOpened program.now image.now log.now (stand_of log.now a)) }
    ensures ahead { IfOk result (IsAhead log.now) }
    ensures next { IfOk result (λ a. a.next ≡ 0) }
    ensures epochs { IfOk result (λ a. left_of a ++ a.last ∷ [] ≡ numbered 0 (epochs 0 cuts)) }
    ensures fault { IfErr result (IsCausedBy (IsMisfit program.now image.now log.now)) }
{
    let checker = Checker::open(alloc, program, image, log)?;
    let ahead = ahead_of(alloc, checker, cuts)?;
    Ok(ahead)
}

/// What is found of the run's first epoch, and the summaries of the later ones, that of the last first, where none is begun yet.
/// Each epoch is analysed in a thread of its own, where one can be made, while the check goes on to the next one, and enters the
/// gate as its analysis begins. It says where the log differs from the run; else it gives up with NoMemory alone.
fn analyse_epochs<G: Gate, R: Threads + Sync>(
    rt: &R,
    alloc: Global,
    gate: &G,
    log: &Log,
    query: &Query,
    ahead: Ahead,
) -> Result<(FirstEpoch, Vec<Summary>), Fault<Divergence>>
    requires ahead { IsAhead log.now ahead }
    requires next { ahead.next ≡ 0 }
    ensures found { IfOk result (λ r.
        AreAllAhead query.now (stand_of log.now ahead) (left_of ahead ++ ahead.last ∷ []) (found_of r.0) (reverse r.1.items)) }
    ensures agrees { OnOk result (AgreesToEnd (stand_of log.now ahead)) }
    ensures fault { IfErr result (IsCausedBy (Differs (stand_of log.now ahead))) }
{
    match begin_next(alloc, log, ahead)? {
        Next::Last(beginning) => {
            let first = analyse_only(alloc, gate, log, query, beginning)?;
            Ok((first, Vec::new(alloc)))
        }
        Next::Inner { beginning, ahead } => {
            let analysis = move || -> Result<FirstEpoch, Fault<Divergence>>
                requires { IsBegun log.now beginning × (beginning.ticket.first ≡ 0) }
                ensures found { IfOk result (IsFirstOf query.entry.now log.entry.now beginning) }
                ensures fault { IfErr result (IsCausedBy (Differs (run_of log.entry.now beginning))) }
            { analyse_first(alloc, gate, log, query, beginning) };
            let onward = move || -> Result<Vec<Summary>, Fault<Divergence>>
                requires { IsSync R.row × IsAhead log.now ahead }
                ensures found { IfOk result (λ all. AreOfLeft query.entry.now log.entry.now ahead all.items) }
                ensures agrees { OnOk result (AgreesToEnd (stand_of log.entry.now ahead)) }
                ensures fault { IfErr result (IsCausedBy (Differs (stand_of log.entry.now ahead))) }
            { analyse_rest(rt, alloc, gate, log, query, ahead) };
            let (first, later) = thread::join(rt, analysis, onward);
            let later = later?;
            Ok((first?, later))
        }
    }
}

/// Checks that a log fits a program, and gives the job of its run, what is found of the run's first epoch, and the summaries of the
/// later ones, in order. The epochs are analysed each in a thread of its own while the check goes on. Each enters the gate as its
/// analysis begins.
///
/// The fault is that of [`Job::check`]: the first misfit that holds, or out of memory.
pub fn check_and_analyse<G: Gate, R: Threads + Sync>(
    rt: &R,
    alloc: Global,
    gate: &G,
    program: Program,
    log: Log,
    query: &Query,
    cuts: Cuts,
) -> Result<(Job, FirstEpoch, Vec<Summary>), CheckFault>
    requires cutting { IsCutting (steps log) cuts }
    ensures checked { IfOk result (λ r. IsChecked program.bytes.items program.image log r.0) }
    ensures found { IfOk result (λ r. AreAllFound query.now (trace_of r.0) cuts (found_of r.1) r.2.items) }
    ensures fault { IfErr result (IsCausedBy (IsMisfit program.bytes.items program.image log)) }
{
    let Program { bytes, image } = program;
    let ahead = open(alloc, &bytes, &image, &log, cuts)?;
    match analyse_epochs(rt, alloc, gate, &log, query, ahead) {
        Ok((first, mut found)) => {
            found.reverse();
            Ok((Job::whole(image, log), first, found))
        }
        Err(Fault::At(divergence)) => Err(Fault::At(Misfit::Diverged(divergence))),
        Err(Fault::NoMemory(no_memory)) => Err(Fault::NoMemory(no_memory)),
    }
}
