//! The analysis of one epoch while it is checked.

ghost use Rattle.std.specs.Prelude.{◌≡◌, ◌≤◌, None, List, IfOk, IfErr, OnOk};
ghost use Rattle.log_model.specs.Logs.{end_at, steps};
ghost use Rattle.no_memory.specs.Faults.{IsCausedBy};
ghost use Rattle.flow_model.specs.declared.StepSeen.{StepSeen as AnyStep};
ghost use Rattle.replay_model.specs.Comparison.{divergence};
ghost use Rattle.replayer.specs.InParts.{AgreesSoFar, Differs};
ghost use Rattle.replayer.specs.Jobs.{Job as JobAt};
ghost use Rattle.source_labels.specs.Words.{node_words};
ghost use Rattle.taint_tracking.specs.Watched.{IsOfSteps};
ghost use Rattle.local_taint.specs.Ahead.{IsFoundAhead, IsSummaryOfTracked};

use crate::analysis::summarize;
use epoch_cut::EpochTicket;
use epoch_summary::{Nodes, Summary};
use no_memory::{Fault, NoMemory};
use query_lang::Query;
use replayer::{
    Checker, Divergence, Follower, Instr, InstructionAddress, Load, PlainStep, Position, StepSeen,
    Store, Watcher,
};
use std::alloc::Global;
use std::marker::Model;
use taint_tracking::Watching;

/// An epoch that is tracked while it is checked. Contracts see the number of its first step, and the tracking.
#[derive(Drop)]
struct EpochWatching<'q> {
    first: u64,
    watching: Watching<'q, Nodes>,
}

impl<'q> Model for EpochWatching<'q> {
    ghost use Rattle.local_taint.specs.Ahead.{EpochTracking};

    ghost Value = { EpochTracking };

    ghost view = { λ w. record { first = w.first; tracking = w.watching } };
}

impl<'q> EpochWatching<'q> {
    /// Before the first step of an epoch, which has the number `first`. It gives up with NoMemory alone.
    fn begin(alloc: Global, query: &'q Query, first: u64) -> Result<EpochWatching<'q>, NoMemory>
        ensures first { IfOk result (λ w. w.first ≡ first) }
        ensures begun { IfOk result (λ w.
            (trace : List AnyStep) → IsOfSteps node_words query.now trace first first w.tracking) }
    {
        let watching = Watching::of_epoch(alloc, Nodes::new(alloc), query, first)?;
        Ok(EpochWatching { first, watching })
    }
}

impl<'q> Follower for EpochWatching<'q> {
    ghost use Rattle.local_taint.specs.Ahead.{follows};

    ghost told = { follows };

    ghost wants = { λ _ _. Unit {0} };

    #[inline(always)]
    fn wants_step(&self, _at: &InstructionAddress) -> bool {
        true
    }

    #[inline(always)]
    fn passes_by(&self, registers: u32) -> bool {
        self.watching.passes_by(registers)
    }

    #[inline(always)]
    fn follow(&mut self, instr: &Instr) {
        self.watching.follow(instr);
    }

    #[inline(always)]
    fn follow_load(&mut self, load: Load, place: u32) {
        self.watching.follow_load(load, place);
    }

    #[inline(always)]
    fn follow_store(&mut self, store: Store, place: u32) {
        self.watching.follow_store(store, place);
    }
}

impl<'q> Watcher for EpochWatching<'q> {
    ghost use mathlib.Core.Path.{◌∙◌};
    ghost use Rattle.replayer.specs.Jobs.{trace_of};
    ghost use Rattle.local_taint.specs.Ahead.{tracks, quiet_time};

    ghost seen = { tracks };

    ghost quiet = { quiet_time };

    ghost enough = { λ _ _ _ _ told was job until t after small soon before fits made seen. (
      (λ q first begun. told.0.tracks until t soon before fits (trace_of job) made.step q first (seen.0 q first begun), told.1 ∙ seen.1),
      told.0.quiet until small soon,
    ) };

    #[inline(always)]
    fn quiet_until(&self) -> u64 {
        self.watching.quiet_until()
    }

    #[inline(always)]
    fn plain(&mut self, time: u64, step: PlainStep, _at: &Position<'_, '_>) {
        let PlainStep { instr, place } = step;
        self.watching.track(&StepSeen {
            number: time,
            instr,
            place,
            call: None,
        });
    }

    #[inline(always)]
    fn step(&mut self, step: &StepSeen, _at: &Position<'_, '_>) {
        self.watching.track(step);
    }
}

/// The summary of the epoch of this number, of which all steps were tracked. It gives up with NoMemory alone: where memory ran
/// out meanwhile.
fn summarized(number: u32, watching: EpochWatching<'_>) -> Result<Summary, NoMemory>
    ensures { IfOk result (IsSummaryOfTracked watching.entry number) }
{
    let tracked = watching.watching.finish()?;
    Ok(summarize(number, tracked))
}

/// The summary of the ticket's epoch, which is checked meanwhile, and isn't the run's last. It says where the log differs from
/// the run; else it gives up with NoMemory alone.
pub fn analyse_ahead(
    alloc: Global,
    ticket: EpochTicket,
    checker: Checker<'_>,
    query: &Query,
) -> Result<Summary, Fault<Divergence>>
    requires begins { checker.moment.time ≡ ticket.first }
    requires later { ticket.first ≤ ticket.past_last }
    requires ends { ticket.past_last ≤ end_at checker.log.end }
    ensures found { IfOk result (IsFoundAhead query.now checker.entry ticket) }
    ensures fault { IfErr result (IsCausedBy (Differs checker.entry)) }
{
    let mut watching = EpochWatching::begin(alloc, query, ticket.first())?;
    match checker.go_to(ticket.past_last(), &mut watching) {
        Ok(_) => {
            let summary = summarized(ticket.number(), watching)?;
            Ok(summary)
        }
        Err(divergence) => Err(Fault::At(divergence)),
    }
}

/// The summary of the ticket's epoch, the run's last, which is checked meanwhile up to the log's end. It says where the log
/// differs from the run; else it gives up with NoMemory alone.
pub fn analyse_last(
    alloc: Global,
    ticket: EpochTicket,
    checker: Checker<'_>,
    query: &Query,
) -> Result<Summary, Fault<Divergence>>
    requires begins { checker.moment.time ≡ ticket.first }
    requires before_end { checker.moment.time ≤ end_at checker.log.end }
    requires ends { ticket.past_last ≡ steps checker.log }
    ensures found { IfOk result (IsFoundAhead query.now checker.entry ticket) }
    ensures agrees { OnOk result ((job : JobAt)
        → AgreesSoFar job checker.entry → divergence job.start job.log ≡ None) }
    ensures fault { IfErr result (IsCausedBy (Differs checker.entry)) }
{
    let mut watching = EpochWatching::begin(alloc, query, ticket.first())?;
    match checker.finish(&mut watching) {
        Ok(()) => {
            let summary = summarized(ticket.number(), watching)?;
            Ok(summary)
        }
        Err(divergence) => Err(Fault::At(divergence)),
    }
}
