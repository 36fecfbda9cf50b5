//! The analysis of an epoch, as a task of the board.

ghost use Rattle.std.specs.Prelude.{◌≡◌, true, IfOk};
ghost use Rattle.replayer.specs.Jobs.{trace_of};
ghost use Rattle.epoch_analysis.specs.Epochs.{BeginsAt, IsFound};
ghost use Rattle.epoch_analysis.specs.Analyses.{fresh};

use checkpoints::Checkpoints;
use epoch_cut::EpochTicket;
use epoch_summary::Summary;
use local_taint::analyse;
use no_memory::NoMemory;
use outer_io::Gate;
use query_lang::Query;
use run_board::{Numbered, Task, Turn};
use std::alloc::Global;
use std::marker::Model;

/// The summary of the ticket's epoch, from its checkpoint on. It gives up with NoMemory alone.
pub fn found(
    alloc: Global,
    checkpoints: &Checkpoints<'_>,
    query: &Query,
    ticket: EpochTicket,
) -> Result<Summary, NoMemory>
    requires { BeginsAt checkpoints.now ticket }
    ensures { IfOk result (IsFound query.now (trace_of checkpoints.now.job) ticket) }
{
    let cursor = checkpoints.start(alloc, ticket.number())?;
    let summary = analyse(alloc, ticket, cursor, query)?;
    Ok(summary)
}

/// The analysis of an epoch, which has one turn. Contracts see the epoch, what it is analysed for, and whether it was.
#[derive(Drop)]
pub struct Analysis<'a, G> {
    alloc: Global,
    checkpoints: &'a Checkpoints<'a>,
    query: &'a Query,
    gate: &'a G,
    // The epoch, as its ticket has it.
    number: u32,
    first: u64,
    past_last: u64,
    // Until it is analysed.
    ticket: Option<EpochTicket>,
    // From then on.
    found: Option<Result<Summary, NoMemory>>,
}

impl<'a, G> Model for Analysis<'a, G> {
    ghost use Rattle.std.specs.Prelude.{◌≡◌, None, true, IfOk, IfSome, is_some};
    ghost use Rattle.replayer.specs.Jobs.{trace_of};
    ghost use Rattle.epoch_analysis.specs.Epochs.{BeginsAt, IsFound};
    ghost use Rattle.epoch_analysis.specs.Analyses.{AnalysisView};

    ghost Value = { AnalysisView };

    ghost view = { λ a. record {
      points = a.checkpoints.now;
      query = a.query.now;
      epoch = record { number = a.number; first = a.first; past_last = a.past_last };
      ended = is_some a.found;
    } };

    ghost invariant = { λ a. IfSome a.ticket (λ t. (t ≡ record { number = a.number; first = a.first; past_last = a.past_last })
        × BeginsAt a.checkpoints.now t)
        × (a.ticket ≡ None → is_some a.found ≡ true)
        × IfSome a.found (λ found. IfOk found (IsFound a.query.now (trace_of a.checkpoints.now.job)
        (record { number = a.number; first = a.first; past_last = a.past_last }))) };
}

impl<'a, G> Analysis<'a, G> {
    /// The analysis of the ticket's epoch, which hasn't begun.
    pub(crate) fn new(
        alloc: Global,
        checkpoints: &'a Checkpoints<'a>,
        query: &'a Query,
        gate: &'a G,
        ticket: EpochTicket,
    ) -> Analysis<'a, G>
        requires { BeginsAt checkpoints.now ticket }
        ensures { result ≡ fresh checkpoints.now query.now ticket }
    {
        Analysis {
            alloc,
            checkpoints,
            query,
            gate,
            number: ticket.number(),
            first: ticket.first(),
            past_last: ticket.past_last(),
            ticket: Some(ticket),
            found: None,
        }
    }

    /// What the analysis found, where it has ended. It gives up with NoMemory alone.
    pub(crate) fn into_found(self) -> Result<Summary, NoMemory>
        requires { self.ended ≡ true }
        ensures { IfOk result (IsFound self.entry.query (trace_of self.entry.points.job) self.entry.epoch) }
    {
        let Analysis { found, .. } = self;
        match found {
            Some(found) => found,
            None => unreachable!(),
        }
    }
}

impl<'a, G: Gate> Numbered for Analysis<'a, G> {
    ghost use Rattle.epoch_analysis.specs.Analyses.{IsSameAnalysis, HasEnded, number_of};

    ghost words = { record {
      number = number_of;
      led_from = IsSameAnalysis;
      ended = HasEnded;
    } };

    fn number(&self) -> u32 {
        self.number
    }
}

impl<'a, G: Gate> Task for Analysis<'a, G> {
    ghost use Rattle.std.specs.Prelude.{◌≡◌};
    ghost use Rattle.run_board.specs.Turns.{AnswersEnded};
    ghost use Rattle.epoch_analysis.specs.Analyses.{IsSameAnalysis, HasEnded, number_of, same_refl, same_trans};

    /// It enters the gate, and its epoch is analysed. One that has ended does nothing.
    fn turn(&mut self) -> Turn
        ensures led { IsSameAnalysis self.new self.old }
        ensures number { number_of self.new ≡ number_of self.old }
        ensures done { AnswersEnded result (HasEnded self.new) }
    {
        if let Some(ticket) = self.ticket.take() {
            self.gate.enter(self.number);
            self.found = Some(found(self.alloc, self.checkpoints, self.query, ticket));
        }
        Turn::Done
    }

    ghost reflexive = { same_refl };

    ghost transitive = { same_trans };
}
