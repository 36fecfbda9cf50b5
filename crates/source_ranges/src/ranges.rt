//! The ranges of source bytes in a slice.

ghost use Rattle.std.specs.Prelude.{◌≡◌, ◌+◌, ◌-◌, ◌<◌, ◌≤◌, ◌^◌, [], ◌∷◌, ◌++◌, length, drop, All, IfOk, IfSome, MatchOption, OnOk};
ghost use Rattle.source_ranges.specs.Kept.{IsRange};
ghost use Rattle.source_ranges.specs.Ranges.{ranges_of as ranges};

use crate::SourceRange;
use flow_model::SourceByte;
use no_memory::NoMemory;
use std::alloc::Global;

/// One above the offset of the last byte of the range that begins with `first` and goes on with bytes of `more`.
fn end_of_range(first: SourceByte, more: &[SourceByte]) -> u64
    ensures low { first.offset + 1 ≤ result }
    ensures high { result ≤ first.offset + 1 + length more.now }
    ensures few { result ≤ 2 ^ 32 }
    ensures range { ranges (first ∷ more.now) ≡
        record { channel = first.channel; from = first.offset; past = result }
        ∷ ranges (drop (result - (first.offset + 1)) more.now) }
{
    let mut past = u64::from(first.offset) + 1;
    for byte in more {
        if byte.channel != first.channel || u64::from(byte.offset) != past {
            return past;
        }
        past += 1;
    }
    past
}

/// The first range of source bytes, as long as can be, and the bytes after it; `None` where there are no bytes.
pub fn split_first_range(sources: &[SourceByte]) -> Option<(SourceRange, &[SourceByte])>
    ensures ranges { MatchOption result (sources.now ≡ [])
        (λ parts. ranges sources.now ≡ parts.0 ∷ ranges parts.1.now) }
    ensures range { IfSome result (λ parts. IsRange parts.0) }
    ensures shorter { IfSome result (λ parts. length parts.1.now < length sources.now) }
{
    let (first, more) = sources.split_first()?;
    let from = u64::from(first.offset);
    let past = end_of_range(*first, more);
    let range = SourceRange {
        channel: first.channel,
        from,
        past,
    };
    Some((range, &more[(past - from - 1) as usize..]))
}

/// Appends the ranges of source bytes, each as long as can be. It fails only where there is no memory.
pub(crate) fn push_ranges(
    found: &mut Vec<SourceRange>,
    sources: &[SourceByte],
) -> Result<(), NoMemory>
    requires { All IsRange found.old.items }
    ensures ranges { OnOk result (found.new.items ≡ found.old.items ++ ranges sources.now) }
    ensures fits { OnOk result (All IsRange found.new.items) }
{
    let mut left = sources;
    while let Some((range, rest)) = split_first_range(left) {
        found.push(range)?;
        left = rest;
    }
    Ok(())
}

/// Source bytes as ranges, each as long as can be. It fails only where there is no memory.
pub fn ranges_of(alloc: Global, sources: &[SourceByte]) -> Result<Vec<SourceRange>, NoMemory>
    ensures { IfOk result (λ found. found.items ≡ ranges sources.now) }
{
    let mut found = Vec::new(alloc);
    push_ranges(&mut found, sources)?;
    Ok(found)
}
