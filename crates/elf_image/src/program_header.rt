//! One entry of the program header table (gABI, "Program Header").

ghost use Rattle.std.specs.Prelude.{◌≡◌, ◌+◌, ◌*◌, ◌<◌, ◌≤◌, length};
ghost use Rattle.std.specs.Iterator.{YieldsFirst, item_count};
ghost use Rattle.elf_model.specs.Image.{is_dynamic, is_loaded, is_segment_wrong, holds_address, e_phoff, e_phnum, program_header, program_headers};

use crate::fields::word_at;
use std::marker::Model;

const PT_LOAD: u32 = 1;

const PT_DYNAMIC: u32 = 2;

const PT_INTERP: u32 = 3;

/// The fields that loading looks at, under their names in the gABI.
#[derive(Drop)]
pub struct ProgramHeader {
    pub p_type: u32,
    pub p_offset: u32,
    pub p_vaddr: u32,
    pub p_filesz: u32,
    pub p_memsz: u32,
}

impl Model for ProgramHeader {
    ghost use Rattle.elf_model.specs.Image.{ProgramHeader as Header};

    ghost Value = { Header };

    ghost view = { λ h. record { p_type = h.p_type; p_offset = h.p_offset; p_vaddr = h.p_vaddr; p_filesz = h.p_filesz; p_memsz = h.p_memsz } };
}

impl ProgramHeader {
    /// An entry by its number, in a table at this offset of the file.
    fn read(file: &[u8], table: usize, number: u16) -> Self
        requires place { table ≡ e_phoff file.now }
        requires inside { table + 32 * (number + 1) ≤ length file.now }
        ensures { result ≡ program_header file.now number }
    {
        let at = table + 32 * usize::from(number);
        ProgramHeader {
            p_type: word_at(file, at),
            p_offset: word_at(file, at + 4),
            p_vaddr: word_at(file, at + 8),
            p_filesz: word_at(file, at + 16),
            p_memsz: word_at(file, at + 20),
        }
    }

    pub fn is_dynamic(&self) -> bool
        ensures { result ≡ is_dynamic self.now }
    {
        self.p_type == PT_DYNAMIC || self.p_type == PT_INTERP
    }

    pub fn is_loaded(&self) -> bool
        ensures { result ≡ is_loaded self.now }
    {
        self.p_type == PT_LOAD && !(self.p_filesz == 0 && self.p_memsz == 0)
    }

    /// The address just above the segment, at most 2^33.
    pub fn end(&self) -> u64
        ensures { result ≡ self.now.p_vaddr + self.now.p_memsz }
    {
        u64::from(self.p_vaddr) + u64::from(self.p_memsz)
    }

    pub fn holds_address(&self, address: u32) -> bool
        ensures { result ≡ holds_address address self.now }
    {
        self.p_vaddr <= address && u64::from(address) < self.end()
    }

    /// Whether the segment is past its own size, the file of this length or the address space, or
    /// begins below the end of the one before it.
    pub fn is_wrong(&self, file_length: usize, end_before: u64) -> bool
        ensures { result ≡ is_segment_wrong file_length end_before self.now }
    {
        let file_end = u64::from(self.p_offset) + u64::from(self.p_filesz);
        self.p_memsz < self.p_filesz
            || (self.p_filesz > 0 && (file_length as u64) < file_end)
            || self.end() > 1 << 32
            || u64::from(self.p_vaddr) < end_before
    }
}

/// The entries of a program header table that are left, in order.
#[derive(Drop)]
pub struct ProgramHeaders<'a> {
    file: &'a [u8],
    table: usize,
    next: u16,
    count: u16,
}

impl<'a> Model for ProgramHeaders<'a> {
    ghost use Rattle.std.specs.Prelude.{◌≡◌, ◌+◌, ◌-◌, ◌*◌, ◌<◌, ◌≤◌, List, length, map};
    ghost use Rattle.std.specs.List.{range_with_len};
    ghost use Rattle.elf_model.specs.Image.{ProgramHeader as Header, program_header, e_phoff};

    ghost Value = { List Header };

    ghost view = { λ p. map (program_header p.file.now) (range_with_len p.next (p.count - p.next)) };

    ghost invariant = { λ p. (p.table ≡ e_phoff p.file.now) × (0 < p.count → p.table + 32 * p.count ≤ length p.file.now) × (p.next ≤ p.count) };
}

impl<'a> ProgramHeaders<'a> {
    /// The whole table, which lies in the file from `e_phoff` on.
    pub fn new(file: &'a [u8], table: usize, count: u16) -> Self
        requires place { table ≡ e_phoff file.now }
        requires count { count ≡ e_phnum file.now }
        requires inside { 0 < count → table + 32 * count ≤ length file.now }
        ensures { result ≡ program_headers file.entry.now }
    {
        ProgramHeaders {
            file,
            table,
            next: 0,
            count,
        }
    }
}

impl<'a> Iterator for ProgramHeaders<'a> {
    type Item = ProgramHeader;

    ghost next_gives = { YieldsFirst (λ rest. rest) };

    ghost remaining = { item_count (λ rest. rest) };

    fn next(&mut self) -> Option<ProgramHeader> {
        if self.next == self.count {
            return None;
        }
        let header = ProgramHeader::read(self.file, self.table, self.next);
        self.next += 1;
        Some(header)
    }
}
