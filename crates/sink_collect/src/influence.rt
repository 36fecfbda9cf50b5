//! The influence of source bytes: a report's rows turned round.

ghost use Rattle.std.specs.Prelude.{◌≡◌, [], ◌∷◌, ◌++◌, length, map, All, IfOk, OnOk};
ghost use Rattle.std.specs.List.{flat_map};
ghost use Rattle.std.specs.List.Sorted.{IsNonDecreasing};
ghost use Rattle.lists.specs.Sets.{Ascends};
ghost use Rattle.flow_model.specs.Orders.{source_cmp};
ghost use Rattle.report_model.specs.Influence.{turned};
ghost use Rattle.source_ranges.specs.Kept.{IsRange};
ghost use Rattle.source_ranges.specs.Ranges.{bytes_of};
ghost use Rattle.sink_collect.specs.Places.{start_of};
ghost use Rattle.sink_collect.specs.Reaching.{reaches_in, stretches, with_row, with_sink};

use crate::pieces::pieces_of;
use crate::places::{count_before, place_of};
use crate::report::Report;
use crate::sets::SinkSet;
use flow_model::SinkPoint;
use no_memory::NoMemory;
use source_ranges::{SourceRange, SourceSet};
use std::alloc::Global;
use std::marker::Model;

/// Source bytes of one range, with the output bytes and the points that each of them came to, ascending.
#[derive(Drop)]
pub struct RangeReach {
    range: SourceRange,
    sinks: Vec<SinkPoint>,
}

impl Model for RangeReach {
    ghost use Rattle.sink_collect.specs.Reaching.{Stretch};

    ghost Value = { Stretch };

    ghost view = { λ r. record { range = r.range; sinks = r.sinks.items } };
}

impl RangeReach {
    /// That of source bytes that came nowhere. It takes no memory.
    fn new(alloc: Global, range: SourceRange) -> RangeReach
        ensures { result ≡ record { range = range; sinks = [] } }
    {
        RangeReach {
            range,
            sinks: Vec::new(alloc),
        }
    }

    /// Adds an output byte or a point, the last so far.
    fn push(&mut self, sink: SinkPoint) -> Result<(), NoMemory>
        ensures { OnOk result (self.new ≡ record {
          range = self.old.range;
          sinks = self.old.sinks ++ sink ∷ [];
        }) }
    {
        self.sinks.push(sink)?;
        Ok(())
    }

    /// The source bytes.
    pub fn range(&self) -> SourceRange
        ensures { result ≡ self.now.range }
    {
        self.range
    }

    /// What each of them came to.
    pub fn sinks(&self) -> &[SinkPoint]
        ensures { result.now ≡ self.now.sinks }
    {
        self.sinks.as_slice()
    }
}

/// Source bytes, by channel and then offset, each with the output bytes and the points that it came to. It takes the
/// room of ranges, each of bytes that came to the same.
#[derive(Drop)]
pub struct Influence {
    reaches: Vec<RangeReach>,
    count: u64,
}

impl Model for Influence {
    ghost use Rattle.std.specs.Prelude.{List};
    ghost use Rattle.std.specs.List.{flat_map};
    ghost use Rattle.report_model.specs.Influence.{Reach};
    ghost use Rattle.sink_collect.specs.Reaching.{reaches_in, AreCounted};

    ghost Value = { List Reach };

    ghost view = { λ i. flat_map reaches_in i.reaches.items };

    ghost invariant = { λ i. AreCounted i.reaches.items i.count };
}

impl Influence {
    /// The source bytes in ranges, each range with what its bytes came to.
    pub fn ranges(&self) -> &[RangeReach]
        ensures value { flat_map reaches_in result.now ≡ self.now }
        ensures fits { All (λ r. IsRange r.range) result.now }
    {
        self.reaches.as_slice()
    }

    /// How many source bytes there are: the lines of the influence's text but for the last.
    pub fn lines(&self) -> u64
        ensures { result ≡ length self.now }
    {
        self.count
    }
}

/// A report's rows turned round, for these source bytes: each with the output bytes and the points of those rows that
/// list it, and with none where no row does. It fails only where there is no memory.
///
/// The ranges of the source bytes are cut wherever a row begins or ends to list them, so that each piece is listed
/// whole or not at all. Then it takes one pass over the rows, and for each range of a row two searches for its pieces.
pub fn turn_round(
    alloc: Global,
    report: &Report,
    sources: &SourceSet,
) -> Result<Influence, NoMemory>
    ensures { IfOk result (λ influence. influence ≡ turned report.now sources.now) }
{
    sources.form();
    let pieces = pieces_of(alloc, report.rows(), sources)?;
    let starts = starts_of(alloc, &pieces)?;
    let mut reaches = unreached(alloc, &pieces)?;
    for row in report.rows() {
        add_row(&mut reaches, &starts, row)?;
    }
    let count = count_of(&pieces);
    Ok(Influence { reaches, count })
}

/// How many source bytes ranges have that lie one after another.
fn count_of(ranges: &[SourceRange]) -> u64
    requires fits { All IsRange ranges.now }
    requires ascending { Ascends source_cmp (flat_map bytes_of ranges.now) }
    ensures { result ≡ length (flat_map bytes_of ranges.now) }
{
    let mut count = 0;
    for range in ranges {
        let _past = place_of(range.channel, range.past); // at least the count, which therefore fits
        count += range.past - range.from;
    }
    count
}

/// Where each range begins.
fn starts_of(alloc: Global, ranges: &[SourceRange]) -> Result<Vec<u64>, NoMemory>
    requires { All IsRange ranges.now }
    ensures { IfOk result (λ starts. starts.items ≡ map start_of ranges.now) }
{
    let mut starts = Vec::with_capacity(alloc, ranges.len())?;
    for range in ranges {
        starts.push(place_of(range.channel, range.from))?;
    }
    Ok(starts)
}

/// Ranges of source bytes, each with nothing that its bytes came to.
fn unreached(alloc: Global, ranges: &[SourceRange]) -> Result<Vec<RangeReach>, NoMemory>
    ensures { IfOk result (λ reaches. reaches.items ≡ stretches [] ranges.now) }
{
    let mut reaches = Vec::with_capacity(alloc, ranges.len())?;
    for range in ranges {
        reaches.push(RangeReach::new(alloc, *range))?;
    }
    Ok(reaches)
}

/// Adds a row's output byte or point to each range whose first byte the row lists.
fn add_row(reaches: &mut [RangeReach], starts: &[u64], row: &SinkSet) -> Result<(), NoMemory>
    requires starts { map (λ r. start_of r.range) reaches.old ≡ starts.now }
    requires ascending { IsNonDecreasing starts.now }
    requires fits { All (λ r. IsRange r.range) reaches.old }
    ensures { OnOk result (reaches.new ≡ map (with_row row.now) reaches.old) }
{
    for range in row.sources().ranges() {
        add_range(reaches, starts, *range, row.sink())?;
    }
    Ok(())
}

/// Adds an output byte or a point to each range whose first byte is one of another range's.
fn add_range(
    reaches: &mut [RangeReach],
    starts: &[u64],
    range: SourceRange,
    sink: SinkPoint,
) -> Result<(), NoMemory>
    requires range { IsRange range }
    requires starts { map (λ r. start_of r.range) reaches.old ≡ starts.now }
    requires ascending { IsNonDecreasing starts.now }
    requires fits { All (λ r. IsRange r.range) reaches.old }
    ensures { OnOk result (reaches.new ≡ map (with_sink sink (bytes_of range)) reaches.old) }
{
    let first = count_before(starts, place_of(range.channel, range.from));
    let past = count_before(starts, place_of(range.channel, range.past));
    for place in first..past {
        reaches[place].push(sink)?;
    }
    Ok(())
}
