//! The sets of a run, one stream after another.

ghost use Rattle.std.specs.Prelude.{◌≡◌, ◌<◌, ◌++◌, [], length, IfOk, OnOk, IsPermutation};
ghost use Rattle.std.specs.List.{flat_map};

use crate::sets::{SinkSet, SinkSets};
use flow_model::SinkPoint;
use no_memory::NoMemory;
use std::alloc::Global;

/// The stream of points. Those of output bytes come first, and have the numbers of their channels.
const POINTS: usize = 256;

/// How many streams there are.
const STREAMS: usize = 257;

/// The stream of a set. Streams are numbered in the order of a report.
fn stream_of(set: &SinkSet) -> usize
    ensures { result < 257 }
{
    match set.sink() {
        SinkPoint::Out(byte) => usize::from(byte.channel),
        SinkPoint::At(_) => POINTS,
    }
}

/// The sets in an order that is nearly sorted: those of the first stream, and then those of the next one. A run writes
/// the bytes of each channel in their order, whatever it writes to others in between. It fails only where there is no
/// memory.
pub(crate) fn by_stream(alloc: Global, sets: SinkSets) -> Result<Vec<SinkSet>, NoMemory>
    ensures { IfOk result (λ all. IsPermutation sets all.items) }
{
    let counts = counts_of(&sets);
    let all = counts
        .iter()
        .fold(0usize, |all, count| all.saturating_add(*count));
    if counts.contains(&all) {
        return sets.into_vec();
    }
    let mut streams = rooms_of(alloc, &counts, all)?;
    let (first, more) = sets.into_parts();
    distribute(&mut streams, first)?;
    for part in more {
        distribute(&mut streams, part)?;
    }
    joined(alloc, streams)
}

/// How many sets each stream has.
fn counts_of(sets: &SinkSets) -> [usize; STREAMS] {
    let mut counts = [0; STREAMS];
    count(&mut counts, &sets.first);
    for part in sets.more.as_slice() {
        count(&mut counts, part);
    }
    counts
}

/// Counts sets by their streams.
fn count(counts: &mut [usize; STREAMS], sets: &[SinkSet]) {
    for set in sets {
        let stream = stream_of(set);
        counts[stream] = counts[stream].saturating_add(1);
    }
}

/// Puts each of these sets behind those of its stream. It fails only where there is no memory.
fn distribute(streams: &mut Vec<Vec<SinkSet>>, sets: Vec<SinkSet>) -> Result<(), NoMemory>
    requires { length streams.old.items ≡ 257 }
    ensures streams { OnOk result (length streams.new.items ≡ 257) }
    ensures same { OnOk result (IsPermutation (flat_map (λ stream. stream.items) streams.old.items ++ sets.items)
        (flat_map (λ stream. stream.items) streams.new.items)) }
{
    for set in sets {
        streams[stream_of(&set)].push(set)?;
    }
    Ok(())
}

/// An empty vector for each stream, with room for its sets; that of the first stream that has any has room for all
/// sets. It fails only where there is no memory.
fn rooms_of(
    alloc: Global,
    counts: &[usize; STREAMS],
    all: usize,
) -> Result<Vec<Vec<SinkSet>>, NoMemory>
    ensures streams { IfOk result (λ rooms. length rooms.items ≡ 257) }
    ensures empty { IfOk result (λ rooms. flat_map (λ stream. stream.items) rooms.items ≡ []) }
{
    let first = counts.iter().position(|count| *count > 0);
    let mut rooms = Vec::with_capacity(alloc, STREAMS)?;
    for (stream, count) in counts.iter().enumerate() {
        let room = if first == Some(stream) { all } else { *count };
        rooms.push(Vec::with_capacity(alloc, room)?)?;
    }
    Ok(rooms)
}

/// The sets of all streams, one stream after another, in the vector of the first stream that has any. It fails only
/// where there is no memory.
fn joined(alloc: Global, streams: Vec<Vec<SinkSet>>) -> Result<Vec<SinkSet>, NoMemory>
    ensures { IfOk result (λ all. all.items ≡ flat_map (λ stream. stream.items) streams.items) }
{
    let mut all = Vec::new(alloc);
    for mut stream in streams {
        if all.is_empty() {
            all = stream;
        } else {
            all.append(&mut stream)?;
        }
    }
    Ok(all)
}
