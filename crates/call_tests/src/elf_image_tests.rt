//! Files that are loaded or refused, with what the gABI says of each.

use crate::asserts::{Runtime, assert_same};
use elf_image::{Image, ImageKind, load};
use no_memory::Fault;
use std::process::Abort;

/// A file of one segment at 0x10000, which copies four bytes from channel 0 to channel 1: 13 words
/// of ELF header, 8 of program header, 12 of instructions.
static COPY_FOUR: [u32; 33] = [
    0x464c457f, 0x00010101, 0, 0, 0x00f30002, 1, 0x10000, 52, 0, 0, 0x00200034, 1, 0, 1, 84,
    0x10000, 0x10000, 48, 48, 7, 4, 0x000105b7, 0x10058593, 0x00000513, 0x00400613, 0x03f00893,
    0x00000073, 0x00100513, 0x04000893, 0x00000073, 0x00000513, 0x05d00893, 0x00000073,
];

// The places of fields, in words.
const TYPE_AND_MACHINE: usize = 4;

const VERSION: usize = 5;

const ENTRY: usize = 6;

const PHOFF: usize = 7;

const SIZES: usize = 10;

const PHNUM: usize = 11;

const P_TYPE: usize = 13;

const P_OFFSET: usize = 14;

const P_VADDR: usize = 15;

const P_FILESZ: usize = 17;

const P_MEMSZ: usize = 18;

/// The file with some words changed, and words put in before the instructions.
fn changed(rt: &impl Runtime, changes: &[(usize, u32)], entries: &[u32]) -> Vec<u8> {
    let alloc = rt.alloc();
    let mut words = Vec::from_slice(alloc, &COPY_FOUR[..21]).expect(rt, "memory");
    words.extend_from_slice(entries).expect(rt, "memory");
    words
        .extend_from_slice(&COPY_FOUR[21..])
        .expect(rt, "memory");
    for &(at, word) in changes {
        if let Some(field) = words.get_mut(at) {
            *field = word;
        }
    }
    let mut file = Vec::new(alloc);
    for word in &words {
        file.extend_from_slice(&word.to_le_bytes())
            .expect(rt, "memory");
    }
    file
}

/// The first fault of a file, if it isn't loaded.
fn fault_of(rt: &impl Runtime, file: &[u8]) -> Option<ImageKind> {
    match load(rt.alloc(), file) {
        Ok(_) => None,
        Err(Fault::At(kind)) => Some(kind),
        Err(Fault::NoMemory(_)) => rt.abort(),
    }
}

/// The changed file has this fault, or is loaded.
fn assert_fault(
    rt: &impl Runtime,
    changes: &[(usize, u32)],
    entries: &[u32],
    want: Option<ImageKind>,
) {
    let file = changed(rt, changes, entries);
    assert_same(rt, fault_of(rt, &file), want);
}

/// The image has one segment, at this place, of the file's bytes after its headers.
fn assert_segment(rt: &impl Abort, image: &Image, place: u32, size: u32, file: &[u8]) {
    assert_same(rt, image.segments().len(), 1);
    let Some(segment) = image.segments().first() else {
        rt.abort()
    };
    assert_same(rt, segment.place(), place);
    assert_same(rt, segment.size(), size);
    assert!(rt; file.get(84..) == Some(segment.bytes()));
}

#[test]
fn a_sound_file_is_loaded(rt: HostRuntime) {
    let file = changed(&rt, &[(P_VADDR, 0x20ff0), (ENTRY, 0x20ff4)], &[]);
    let image = load(rt.alloc(), &file).expect(&rt, "an image");
    assert_same(&rt, image.base(), 0x20000);
    assert_same(&rt, image.entry(), 0x20ff4);
    assert_same(&rt, file.len(), 132);
    assert_segment(&rt, &image, 0x20ff0, 48, &file);
}

#[test]
fn each_prefix_has_its_fault(rt: HostRuntime) {
    let file = changed(&rt, &[], &[]);
    assert!(rt; file.len() == 132);
    for length in 0..133 {
        let want = match length {
            0..52 => Some(ImageKind::Short),
            52..84 => Some(ImageKind::Header),
            84..132 => Some(ImageKind::Segment),
            _ => None,
        };
        assert_eq!(rt; fault_of(&rt, &file[..length]), want, "at {length}");
    }
}

#[test]
fn each_changed_word_has_its_fault(rt: HostRuntime) {
    let cases = [
        (0, 0x464c4500, Some(ImageKind::Magic)),
        (1, 0x00010102, Some(ImageKind::Class)),
        (1, 0x00010201, Some(ImageKind::Class)),
        (1, 0x00020101, Some(ImageKind::Class)),
        (TYPE_AND_MACHINE, 0x00f30003, Some(ImageKind::Kind)),
        (TYPE_AND_MACHINE, 0x003e0002, Some(ImageKind::Machine)),
        (VERSION, 2, Some(ImageKind::Header)),
        (SIZES, 0x00200035, Some(ImageKind::Header)),
        (SIZES, 0x00280034, Some(ImageKind::Header)),
        (PHOFF, 0xffffffff, Some(ImageKind::Header)),
        (PHNUM, 0xffff, Some(ImageKind::Header)),
        (PHNUM, 0, Some(ImageKind::NoSegment)),
        (P_TYPE, 2, Some(ImageKind::Dynamic)),
        (P_TYPE, 3, Some(ImageKind::Dynamic)),
        (P_TYPE, 4, Some(ImageKind::NoSegment)),
        (P_OFFSET, 0xffffffff, Some(ImageKind::Segment)),
        (P_VADDR, 0xfffffff0, Some(ImageKind::Segment)),
        (P_FILESZ, 49, Some(ImageKind::Segment)),
        (P_MEMSZ, 47, Some(ImageKind::Segment)),
        (P_MEMSZ, 8192, None),
        (ENTRY, 0x10002, Some(ImageKind::Entry)),
        (ENTRY, 0x10030, Some(ImageKind::Entry)),
    ];
    for (at, word, want) in cases {
        assert_fault(&rt, &[(at, word)], &[], want);
    }
}

#[test]
fn a_second_entry_counts_as_the_first(rt: HostRuntime) {
    let cases = [
        (48, [0x70000003, 0, 0, 0, 0, 0, 0, 0], None),
        (48, [2, 0, 0, 0, 0, 0, 0, 0], Some(ImageKind::Dynamic)),
        (47, [2, 0, 0, 0, 0, 0, 0, 0], Some(ImageKind::Dynamic)),
        (47, [0, 0, 0, 0, 0, 0, 0, 0], Some(ImageKind::Segment)),
        (48, [1, 0, 0, 0, 0, 0, 0, 0], None),
        (48, [1, 0, 0x10030, 0, 4, 4, 0, 0], None),
        (48, [1, 0, 0x1002f, 0, 4, 4, 0, 0], Some(ImageKind::Segment)),
        (48, [1, 0xffffffff, 0x20000, 0, 0, 4, 0, 0], None),
    ];
    for (size, second, want) in cases {
        let changes = [(PHNUM, 2), (P_OFFSET, 116), (P_MEMSZ, size)];
        assert_fault(&rt, &changes, &second, want);
    }
}

/// A file of a segment of 70,000 bytes, each of which is loaded.
#[test]
fn a_long_file_is_loaded(rt: HostRuntime) {
    let mut file = changed(&rt, &[(P_FILESZ, 70_000), (P_MEMSZ, 70_000)], &[]);
    for i in file.len()..84 + 70_000 {
        file.push((i % 251) as u8).expect(&rt, "memory");
    }
    assert_same(&rt, file.len(), 70_084);
    let image = load(rt.alloc(), &file).expect(&rt, "an image");
    assert_segment(&rt, &image, 0x10000, 70_000, &file);
}
