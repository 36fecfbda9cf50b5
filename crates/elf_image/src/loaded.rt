//! The image of a program file: its segments, as they are loaded.

ghost use Rattle.std.specs.Prelude.{◌≡◌};
ghost use Rattle.elf_image.specs.Layout.{IsLaidOut, based};
ghost use Rattle.elf_model.specs.Image.{lowest};

use std::marker::Model;

const PAGE_SIZE: u32 = 4096;

/// A loaded segment: bytes of the file, and zeros after them up to its size (gABI, "Program
/// Loading").
#[derive(Drop)]
pub struct Segment {
    place: u32,
    bytes: Vec<u8>,
    size: u32,
}

impl Model for Segment {
    ghost use Rattle.elf_model.specs.Image.{LoadedSegment};

    ghost Value = { LoadedSegment };

    ghost view = { λ s. record { place = s.place; bytes = s.bytes.items; size = s.size } };
}

impl Segment {
    pub(crate) fn new(place: u32, bytes: Vec<u8>, size: u32) -> Self
        ensures { result ≡ record { place = place; bytes = bytes.items; size = size } }
    {
        Segment { place, bytes, size }
    }

    /// The address of the first byte, `p_vaddr`.
    pub fn place(&self) -> u32
        ensures { result ≡ self.now.place }
    {
        self.place
    }

    /// The bytes that the file has for the segment, `p_filesz` of them.
    pub fn bytes(&self) -> &[u8]
        ensures { result.now ≡ self.now.bytes }
    {
        self.bytes.as_slice()
    }

    /// The size in memory, `p_memsz`.
    pub fn size(&self) -> u32
        ensures { result ≡ self.now.size }
    {
        self.size
    }
}

/// The image of a program file. Its segments ascend and don't overlap.
#[derive(Drop)]
pub struct Image {
    base: u32,
    entry: u32,
    segments: Vec<Segment>,
}

impl Model for Image {
    ghost use Rattle.elf_model.specs.Image.{Image as ImageOf};

    ghost Value = { ImageOf };

    ghost use Rattle.elf_image.specs.Layout.{IsLaidOut};

    ghost view = { λ i. record { base = i.base; entry = i.entry; segments = i.segments.items } };

    ghost invariant = { λ i. IsLaidOut record { base = i.base; entry = i.entry; segments = i.segments.items } };
}

/// The address of the first segment, which is the lowest.
fn lowest(segments: &[Segment]) -> u32
    ensures { result ≡ lowest segments.now }
{
    match segments {
        [] => 0,
        [first, ..] => first.place,
    }
}

impl Image {
    pub(crate) fn new(entry: u32, segments: Vec<Segment>) -> Self
        requires { IsLaidOut (based entry segments.items) }
        ensures { result ≡ based entry segments.items }
    {
        let base = lowest(&segments) / PAGE_SIZE * PAGE_SIZE;
        Image {
            base,
            entry,
            segments,
        }
    }

    /// The lowest address of a segment, rounded down to a multiple of 4096.
    pub fn base(&self) -> u32
        ensures { result ≡ self.now.base }
    {
        self.base
    }

    /// The address of the first instruction, `e_entry`.
    pub fn entry(&self) -> u32
        ensures { result ≡ self.now.entry }
    {
        self.entry
    }

    /// The loaded segments, in ascending order.
    pub fn segments(&self) -> &[Segment]
        ensures value { result.now ≡ self.now.segments }
        ensures laid_out { IsLaidOut self.now }
    {
        self.segments.as_slice()
    }
}
