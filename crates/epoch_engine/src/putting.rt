//! The text of a report, made by several workers at once.

ghost use Rattle.std.specs.Prelude.{◌≡◌};
ghost use Rattle.std.specs.List.{flat_map};
ghost use Rattle.outer_io.specs.Pieces.{Puts};
ghost use Rattle.report_model.specs.Text.{report_text, row_text};

use crate::engine::Engine;
use outer_io::Pieces;
use sink_collect::{Report, SinkSet, put_numbered, put_rows, put_text, rows_of_round};

/// Puts texts, one after another.
fn put_texts<P: Pieces>(place: &mut P, texts: &[Vec<u8>]) -> Result<(), P::Fault>
    ensures { Puts P.putting place.old (flat_map (λ text. text.items) texts.now) place.new result }
{
    for text in texts {
        place.put(text)?;
    }
    Ok(())
}

/// Puts the lines of a round, which so many workers make at once; where there is no memory for that, they are made one after
/// another.
fn put_round<E: Engine, P: Pieces>(
    engine: &E,
    place: &mut P,
    round: &[SinkSet],
    workers: u32,
) -> Result<(), P::Fault>
    requires ready { E.ready engine.now }
    ensures { Puts P.putting place.old (flat_map row_text round.now) place.new result }
{
    if round.len() < 2 {
        return put_rows(place, round);
    }
    match engine.texts(round, workers) {
        Ok(texts) => put_texts(place, &texts),
        Err(_) => put_rows(place, round),
    }
}

/// Puts the lines of rows, one round of them after another.
fn put_rounds<E: Engine, P: Pieces>(
    engine: &E,
    place: &mut P,
    rows: &[SinkSet],
    workers: u32,
) -> Result<(), P::Fault>
    requires ready { E.ready engine.now }
    ensures { Puts P.putting place.old (flat_map row_text rows.now) place.new result }
{
    let mut left = rows;
    while !left.is_empty() {
        let (round, rest) = left.split_at(rows_of_round(left, workers));
        put_round(engine, place, round, workers)?;
        left = rest;
    }
    Ok(())
}

/// Puts the text of a report: a line for each row, and then `end N`. Its lines are made by at most so many workers at once; where
/// there is no memory for that, they are made one after another.
pub fn put_text_at_once<E: Engine, P: Pieces>(
    engine: &E,
    place: &mut P,
    report: &Report,
    workers: u32,
) -> Result<(), P::Fault>
    requires ready { E.ready engine.now }
    ensures { Puts P.putting place.old (report_text report.now) place.new result }
{
    if workers < 2 {
        return put_text(place, report);
    }
    put_rounds(engine, place, report.rows(), workers)?;
    put_numbered(place, b"end ", report.lines())
}
