//! A report: the sets of a replay in the order of their output bytes and points.

ghost use Rattle.std.specs.Prelude.{◌≡◌, List, length, IfOk, IsPermutation, OnOk};
ghost use Rattle.lists.specs.Sets.{set_of};
ghost use Rattle.report_model.specs.Rows.{Row, row_cmp};
ghost use Rattle.report_model.specs.Together.{only};
ghost use Rattle.sink_collect.specs.Distinct.{AreDistinct};
ghost use Rattle.sink_collect.specs.Pairs.{pairs, capped};

use crate::choosing::{chosen_part, is_chosen};
use crate::sets::{SinkSet, SinkSets};
use crate::streams::by_stream;
use no_memory::NoMemory;
use query_lang::Query;
use std::alloc::Global;
use std::marker::Model;

/// The rows of a report: those of output bytes, by channel and then offset, and then those of points, by time and
/// then location.
#[derive(Drop)]
pub struct Report {
    rows: Vec<SinkSet>,
}

impl Model for Report {
    ghost use Rattle.std.specs.Prelude.{List};
    ghost use Rattle.report_model.specs.Rows.{Row};

    ghost Value = { List Row };

    ghost view = { λ r. r.rows.items };
}

impl Report {
    /// The rows.
    pub fn rows(&self) -> &[SinkSet]
        ensures { result.now ≡ self.now }
    {
        self.rows.as_slice()
    }

    /// How many rows there are: the lines of the report's text but for the last.
    pub fn lines(&self) -> u64
        ensures { result ≡ length self.now }
    {
        self.rows.len() as u64
    }

    /// How many source bytes the rows list in all, or 2^64 - 1 where they are more.
    pub fn pairs(&self) -> u64
        ensures { result ≡ capped (pairs self.now) }
    {
        let mut count = 0u64;
        for row in self.rows.as_slice() {
            count = count.saturating_add(row.sources().count());
        }
        count
    }

    /// The rows of what a query chooses, each with those of its source bytes that the query chooses. It fails only
    /// where there is no memory.
    pub fn only(&self, alloc: Global, query: &Query) -> Result<Report, NoMemory>
        ensures { IfOk result (λ report. report ≡ only query.now self.now) }
    {
        let mut rows = Vec::new(alloc);
        for row in self.rows.as_slice() {
            if is_chosen(query, row.sink()) {
                rows.push(chosen_part(alloc, query, row)?)?;
            }
        }
        Ok(Report { rows })
    }
}

/// The report of these sets: sorted by output byte or point, of which none may stand twice. It fails only where
/// there is no memory.
pub fn gather(alloc: Global, sets: SinkSets) -> Result<Report, NoMemory>
    requires { AreDistinct sets }
    ensures { IfOk result (λ report. report ≡ set_of row_cmp sets) }
{
    let mut rows = by_stream(alloc, sets)?;
    sort(alloc, &mut rows)?;
    Ok(Report { rows })
}

/// Sorts sets, which are those of a report in some order, by their output bytes and points.
fn sort(alloc: Global, sets: &mut [SinkSet]) -> Result<(), NoMemory>
    ensures { OnOk result
        ((all : List Row) → AreDistinct all → IsPermutation all sets.old → sets.new ≡ set_of row_cmp all) }
{
    sets.sort_by_key(alloc, |set| set.sink())?;
    Ok(())
}
