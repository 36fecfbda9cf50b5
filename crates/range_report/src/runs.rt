//! Runs of rows, in short.

ghost use Rattle.std.specs.Prelude.{◌≡◌, ◌+◌, ◌<◌, ◌≤◌, ◌^◌, true, false, [], ◌∷◌, length, MatchOption};
ghost use Rattle.flow_model.specs.declared.SinkPoint.TheVariants.{Out};
ghost use Rattle.source_ranges.specs.Ranges.{byte_on};
ghost use Rattle.range_report.specs.Runs.{is_next_sink, is_next_source};
ghost use Rattle.range_report.specs.Text.{first_of};
ghost use Rattle.range_report.specs.OpenRuns.{row, rows_of, IsOpen, GoesOn, IsOriginOf};
ghost use Rattle.range_report.specs.Steps.{IsOpenIfAny, IsStep};

use flow_model::{SinkByte, SourceByte};
use source_ranges::SourceSet;

/// Rows of neighbouring output bytes, each from one source byte: the first from this one, and so on.
#[derive(Clone, Copy)]
pub struct MovedRun {
    pub first: SinkByte,
    pub source: SourceByte,
    pub length: u64,
}

/// Rows of output bytes that go on as one run.
#[derive(Clone, Copy)]
pub enum RowRun<'a> {
    /// One row.
    One {
        byte: SinkByte,
        sources: &'a SourceSet,
    },
    /// Two rows or more, each from one source byte.
    Moved(MovedRun),
    /// Two rows or more, each from these source bytes.
    Shared {
        first: SinkByte,
        sources: &'a SourceSet,
        length: u64,
    },
}

/// Where the bytes of a run came from.
#[derive(Clone, Copy)]
pub enum Origin<'a> {
    /// Each from one source byte.
    Moved(MovedRun),
    /// Each from these source bytes.
    Shared(&'a SourceSet),
}

/// The offset that is so far above another.
pub fn above(offset: u32, by: u64) -> u64
    requires { by ≤ 2 ^ 32 }
    ensures value { result ≡ offset + by }
    ensures few { result ≤ 2 ^ 33 }
{
    u64::from(offset) + by
}

/// Whether an output byte is the next of the one that is so far above the first.
fn sink_follows(byte: SinkByte, first: SinkByte, by: u64) -> bool
    requires { by ≤ 2 ^ 32 }
    ensures next { result ≡ is_next_sink
        (Out (record { channel = first.channel; offset = first.offset + by })) (Out byte) }
    ensures few { result ≡ true → by + 1 < 2 ^ 32 }
{
    byte.channel == first.channel && u64::from(byte.offset) == above(first.offset, by) + 1
}

/// Whether source bytes are one alone, the next of the one that is so far above the first.
fn source_follows(sources: &SourceSet, first: SourceByte, by: u64) -> bool
    requires { by ≤ 2 ^ 32 }
    ensures { result ≡
        is_next_source (byte_on first.channel (first.offset + by) ∷ []) sources.now }
{
    match sources.single() {
        Some(source) => {
            source.channel == first.channel
                && u64::from(source.offset) == above(first.offset, by) + 1
        }
        None => false,
    }
}

/// The one source byte of the first of two rows, where that of the second is the next.
fn moved_source(own: &SourceSet, sources: &SourceSet) -> Option<SourceByte>
    ensures { MatchOption result (is_next_source own.now sources.now ≡ false)
        (λ source. (own.now ≡ source ∷ []) × (is_next_source own.now sources.now ≡ true)) }
{
    let source = own.single()?;
    source_follows(sources, source, 0).then_some(source)
}

/// Two rows as a run, where they are one.
fn run_of_two<'a>(
    first: SinkByte,
    own: &'a SourceSet,
    byte: SinkByte,
    sources: &'a SourceSet,
) -> Option<RowRun<'a>>
    ensures { GoesOn (RowRun.One first own.entry) (row byte sources.now) result }
{
    if !sink_follows(byte, first, 0) {
        return None;
    }
    if let Some(source) = moved_source(own, sources) {
        return Some(RowRun::Moved(MovedRun {
            first,
            source,
            length: 2,
        }));
    }
    if !own.equals(sources) {
        return None;
    }
    Some(RowRun::Shared {
        first,
        sources: own,
        length: 2,
    })
}

impl<'a> RowRun<'a> {
    /// The run with one more row, where that goes on from it.
    pub fn with(self, byte: SinkByte, sources: &'a SourceSet) -> Option<RowRun<'a>>
        requires { IsOpen self }
        ensures { GoesOn self.entry (row byte sources.now) result }
    {
        match self {
            RowRun::One {
                byte: first,
                sources: own,
            } => run_of_two(first, own, byte, sources),
            RowRun::Moved(run) => moved_with(run, byte, sources),
            RowRun::Shared {
                first,
                sources: own,
                length,
            } => shared_with(first, own, length, byte, sources),
        }
    }

    /// The first output byte.
    pub fn first(&self) -> SinkByte
        requires { IsOpen self.now }
        ensures { result ≡ first_of (rows_of self.now) }
    {
        match self {
            RowRun::One { byte, .. } => *byte,
            RowRun::Moved(run) => run.first,
            RowRun::Shared { first, .. } => *first,
        }
    }

    /// How many output bytes it has.
    pub fn length(&self) -> u64
        requires { IsOpen self.now }
        ensures length { result ≡ length (rows_of self.now) }
        ensures few { result ≤ 2 ^ 32 }
    {
        match self {
            RowRun::One { .. } => 1,
            RowRun::Moved(run) => run.length,
            RowRun::Shared { length, .. } => *length,
        }
    }

    /// Where its bytes came from.
    pub fn origin(&self) -> Origin<'a>
        requires { IsOpen self.now }
        ensures { IsOriginOf (rows_of self.now) result }
    {
        match self {
            RowRun::One { byte, sources } => origin_of_one(*byte, sources),
            RowRun::Moved(run) => Origin::Moved(*run),
            RowRun::Shared { sources, .. } => Origin::Shared(sources),
        }
    }
}

/// Where the byte of one row came from.
fn origin_of_one(byte: SinkByte, sources: &SourceSet) -> Origin<'_>
    ensures { IsOriginOf (row byte sources.now ∷ []) result }
{
    match sources.single() {
        Some(source) => Origin::Moved(MovedRun {
            first: byte,
            source,
            length: 1,
        }),
        None => Origin::Shared(sources),
    }
}

/// A moved run with one more row, where that goes on from it.
fn moved_with<'a>(run: MovedRun, byte: SinkByte, sources: &'a SourceSet) -> Option<RowRun<'a>>
    requires { IsOpen (RowRun.Moved run) }
    ensures { GoesOn (RowRun.Moved run) (row byte sources.now) result }
{
    let by = run.length - 1;
    if !sink_follows(byte, run.first, by) || !source_follows(sources, run.source, by) {
        return None;
    }
    Some(RowRun::Moved(MovedRun {
        length: run.length + 1,
        ..run
    }))
}

/// A run of these source bytes with one more row, where that goes on from it.
fn shared_with<'a>(
    first: SinkByte,
    own: &'a SourceSet,
    length: u64,
    byte: SinkByte,
    sources: &'a SourceSet,
) -> Option<RowRun<'a>>
    requires { IsOpen (RowRun.Shared first own length) }
    ensures { GoesOn (RowRun.Shared first own.entry length) (row byte sources.now) result }
{
    if !sink_follows(byte, first, length - 1) || !own.equals(sources) {
        return None;
    }
    Some(RowRun::Shared {
        first,
        sources: own,
        length: length + 1,
    })
}

/// One row on: the run that it ends, if it ends one, and the one that is open now.
#[derive(Clone, Copy)]
pub struct Step<'a> {
    pub done: Option<RowRun<'a>>,
    pub next: RowRun<'a>,
}

/// The run that is open, if one is, with one more row; or that run, done, and the row as one.
pub fn go_on<'a>(last: Option<RowRun<'a>>, byte: SinkByte, sources: &'a SourceSet) -> Step<'a>
    requires { IsOpenIfAny last }
    ensures { IsStep last.entry (row byte sources.now) result }
{
    let one = RowRun::One { byte, sources };
    let Some(run) = last else {
        return Step {
            done: None,
            next: one,
        };
    };
    match run.with(byte, sources) {
        Some(more) => Step {
            done: None,
            next: more,
        },
        None => Step {
            done: last,
            next: one,
        },
    }
}
