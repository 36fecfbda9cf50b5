//! A text that is told, and how it is put in pieces.

ghost use Rattle.std.specs.Prelude.{◌≡◌};
ghost use Rattle.outer_io.specs.Pieces.{Puts};
ghost use Rattle.jet_commands.specs.Texts.{text_of, numbered_rows, reports_text};

use epoch_engine::{Engine, put_text_at_once};
use outer_io::{InPieces, Pieces};
use sink_collect::{Influence, Report, put_influence, put_numbered};
use std::marker::Model;

/// A text, or that of which a text is made while it is written.
#[derive(Drop)]
pub enum Answer {
    /// A text.
    Whole(Vec<u8>),
    /// The rows of a query, for its report.
    Rows(Report),
    /// The same turned round, for the influence of a query's source bytes.
    Turned(Influence),
    /// The rows of several queries, for their reports in this order.
    Several(Vec<Report>),
}

/// An answer as it is told: an engine makes the lines of its reports, by at most so many workers at once. Contracts see it as its
/// text.
#[derive(Drop)]
pub struct Telling<'a, E: Engine> {
    engine: &'a E,
    answer: &'a Answer,
    workers: u32,
}

impl<'a, E: Engine> Model for Telling<'a, E> {
    ghost use Rattle.std.specs.Prelude.{ℕ, List};
    ghost use Rattle.jet_commands.specs.Texts.{text_of};

    ghost Value = { List ℕ };

    ghost view = { λ telling. text_of telling.answer.now };

    ghost invariant = { λ telling. E.ready telling.engine.now };
}

impl<'a, E: Engine> Telling<'a, E> {
    /// The answer, told by this engine.
    pub fn new(engine: &'a E, answer: &'a Answer, workers: u32) -> Telling<'a, E>
        requires ready { E.ready engine.now }
        ensures { result ≡ text_of answer.now }
    {
        Telling {
            engine,
            answer,
            workers,
        }
    }
}

/// Puts `query I` and a report.
fn put_report<E: Engine, P: Pieces>(
    engine: &E,
    place: &mut P,
    number: u64,
    report: &Report,
    workers: u32,
) -> Result<(), P::Fault>
    requires ready { E.ready engine.now }
    ensures { Puts P.putting place.old (numbered_rows number report.now) place.new result }
{
    put_numbered(place, b"query ", number)?;
    put_text_at_once(engine, place, report, workers)
}

/// Puts several reports, counted from 1.
fn put_reports<E: Engine, P: Pieces>(
    engine: &E,
    place: &mut P,
    reports: &[Report],
    workers: u32,
) -> Result<(), P::Fault>
    requires ready { E.ready engine.now }
    ensures { Puts P.putting place.old (reports_text 1 reports.now) place.new result }
{
    let mut number = 0;
    for report in reports {
        number += 1;
        put_report(engine, place, number, report, workers)?;
    }
    Ok(())
}

impl<E: Engine> InPieces for Telling<'_, E> {
    ghost text = { λ telling. telling };

    fn put_to<P: Pieces>(&self, place: &mut P) -> Result<(), P::Fault> {
        match self.answer {
            Answer::Whole(text) => place.put(text),
            Answer::Rows(report) => put_text_at_once(self.engine, place, report, self.workers),
            Answer::Turned(influence) => put_influence(place, influence),
            Answer::Several(reports) => put_reports(self.engine, place, reports, self.workers),
        }
    }
}
