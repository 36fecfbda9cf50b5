//! A file that is read as an ELF file (gABI, "ELF Header").

ghost use Rattle.std.specs.Prelude.{◌≡◌, ◌≤◌, ◌==◌, length, map, take, drop, false, IfOk, IfErr, OnOk, Some, None};
ghost use Rattle.std.specs.List.{list_any};
ghost use Rattle.elf_model.specs.Image.{e_entry, holds_address, is_any_segment_wrong, is_dynamic, is_table_wrong, loaded_headers, program_headers, segment};
ghost use Rattle.lists.specs.FirstTrue.{first_true};
ghost use Rattle.elf_image.specs.Faults.{header_faults, is_header_wrong, table_faults};
ghost use Rattle.elf_image.specs.Layout.{IsInFile};

use crate::fields::{half_at, word_at};
use crate::loaded::Segment;
use crate::program_header::{ProgramHeader, ProgramHeaders};
use elf_model::ImageKind;
use std::alloc::{AllocError, Global};
use std::marker::Model;

// Where the fields of an ELF header stand.
const E_TYPE: usize = 16;

const E_MACHINE: usize = 18;

const E_VERSION: usize = 20;

const E_ENTRY: usize = 24;

const E_PHOFF: usize = 28;

const E_EHSIZE: usize = 40;

const E_PHENTSIZE: usize = 42;

const E_PHNUM: usize = 44;

/// The size of an ELF header.
const HEADER_SIZE: u16 = 52;
/// The size of an entry of the program header table.
const ENTRY_SIZE: u16 = 32;

const MAGIC: [u8; 4] = [0x7f, b'E', b'L', b'F'];
/// ELFCLASS32, ELFDATA2LSB and EV_CURRENT.
const CLASS: [u8; 3] = [1, 1, 1];

const ET_EXEC: u16 = 2;

const EM_RISCV: u16 = 243;

const EV_CURRENT: u32 = 1;

/// A file whose program header table, if it has entries, lies in it. It is seen as its bytes.
#[derive(Drop)]
pub struct ElfFile<'a> {
    bytes: &'a [u8],
}

impl<'a> Model for ElfFile<'a> {
    ghost use Rattle.std.specs.Prelude.{◌≡◌, ℕ, ◌≤◌, List, length, false};
    ghost use Rattle.elf_model.specs.Image.{is_table_wrong};

    ghost Value = { List ℕ };

    ghost view = { λ f. f.bytes.now };

    ghost invariant = { λ f. (52 ≤ length f.bytes.now) × (is_table_wrong f.bytes.now ≡ false) };
}

/// Whether the entries aren't of 32 bytes or don't all lie in the file; never where there are none.
fn is_table_wrong(bytes: &[u8]) -> bool
    requires { 52 ≤ length bytes.now }
    ensures { result ≡ is_table_wrong bytes.now }
{
    let count = half_at(bytes, E_PHNUM);
    if count == 0 {
        return false;
    }
    let size = usize::from(ENTRY_SIZE) * usize::from(count);
    half_at(bytes, E_PHENTSIZE) != ENTRY_SIZE
        || bytes.len() < word_at(bytes, E_PHOFF) as usize + size
}

/// Whether the version, a size or the table is wrong.
fn is_header_wrong(bytes: &[u8]) -> bool
    requires { 52 ≤ length bytes.now }
    ensures { result ≡ is_header_wrong bytes.now }
{
    word_at(bytes, E_VERSION) != EV_CURRENT
        || half_at(bytes, E_EHSIZE) != HEADER_SIZE
        || is_table_wrong(bytes)
}

impl<'a> ElfFile<'a> {
    /// The file with these bytes, or the first fault of its ELF header.
    pub fn open(bytes: &'a [u8]) -> Result<Self, ImageKind>
        ensures ok { IfOk result (λ f. (f ≡ bytes.entry.now) × (first_true (header_faults bytes.entry.now) ≡ None)) }
        ensures err { IfErr result (λ e. first_true (header_faults bytes.entry.now) ≡ Some e) }
    {
        if bytes.len() < usize::from(HEADER_SIZE) {
            return Err(ImageKind::Short);
        }
        if &bytes[..4] != MAGIC.as_slice() {
            return Err(ImageKind::Magic);
        }
        if &bytes[4..7] != CLASS.as_slice() {
            return Err(ImageKind::Class);
        }
        if half_at(bytes, E_TYPE) != ET_EXEC {
            return Err(ImageKind::Kind);
        }
        if half_at(bytes, E_MACHINE) != EM_RISCV {
            return Err(ImageKind::Machine);
        }
        if is_header_wrong(bytes) {
            return Err(ImageKind::Header);
        }
        Ok(ElfFile { bytes })
    }

    /// The address of the first instruction.
    pub fn entry(&self) -> u32
        ensures { result ≡ e_entry self.now }
    {
        word_at(self.bytes, E_ENTRY)
    }

    fn program_headers(&self) -> ProgramHeaders<'a>
        ensures { result ≡ program_headers self.now }
    {
        let table = word_at(self.bytes, E_PHOFF) as usize;
        ProgramHeaders::new(self.bytes, table, half_at(self.bytes, E_PHNUM))
    }
}

impl<'a> ElfFile<'a> {
    /// The first fault of the program header table.
    pub fn check_table(&self) -> Result<(), ImageKind>
        ensures ok { OnOk result (first_true (table_faults self.now) ≡ None) }
        ensures err { IfErr result (λ e. first_true (table_faults self.now) ≡ Some e) }
    {
        if self.is_dynamic() {
            return Err(ImageKind::Dynamic);
        }
        if self.has_wrong_segment() {
            return Err(ImageKind::Segment);
        }
        if self.has_no_segment() {
            return Err(ImageKind::NoSegment);
        }
        if self.entry() % 4 != 0 || !self.holds_entry() {
            return Err(ImageKind::Entry);
        }
        Ok(())
    }

    fn is_dynamic(&self) -> bool
        ensures { result ≡ list_any is_dynamic (program_headers self.now) }
    {
        self.program_headers().any(|header| header.is_dynamic())
    }

    fn has_wrong_segment(&self) -> bool
        ensures { result ≡ is_any_segment_wrong (length self.now) 0 (loaded_headers self.now) }
    {
        let mut end_before = 0;
        for header in self.program_headers() {
            if header.is_loaded() {
                if header.is_wrong(self.bytes.len(), end_before) {
                    return true;
                }
                end_before = header.end();
            }
        }
        false
    }

    fn has_no_segment(&self) -> bool
        ensures { result ≡ (length (loaded_headers self.now) == 0) }
    {
        !self.program_headers().any(|header| header.is_loaded())
    }

    /// Whether the entry point lies in a loaded segment.
    fn holds_entry(&self) -> bool
        ensures { result ≡ list_any (holds_address (e_entry self.now)) (loaded_headers self.now) }
    {
        let entry = self.entry();
        self.program_headers()
            .filter(|header| header.is_loaded())
            .any(|header| header.holds_address(entry))
    }
}

impl<'a> ElfFile<'a> {
    /// The loaded segments, each with its own copy of its bytes.
    pub fn segments(&self, alloc: Global) -> Result<Vec<Segment>, AllocError>
        requires { is_any_segment_wrong (length self.now) 0 (loaded_headers self.now) ≡ false }
        ensures { IfOk result (λ v. v.items ≡ map (segment self.now) (loaded_headers self.now)) }
    {
        let mut segments = Vec::new(alloc);
        for header in self.program_headers() {
            if header.is_loaded() {
                segments.push(self.segment(alloc, &header)?)?;
            }
        }
        Ok(segments)
    }

    fn segment(&self, alloc: Global, header: &ProgramHeader) -> Result<Segment, AllocError>
        requires { IsInFile (length self.now) header.now }
        ensures { IfOk result (λ s. s ≡ segment self.now header.now) }
    {
        let bytes = Vec::from_slice(alloc, self.file_bytes(header))?;
        Ok(Segment::new(header.p_vaddr, bytes, header.p_memsz))
    }

    /// The bytes of the file for an entry. Where it has none, `p_offset` isn't looked at.
    fn file_bytes(&self, header: &ProgramHeader) -> &'a [u8]
        requires { IsInFile (length self.now) header.now }
        ensures { result.now ≡ take header.now.p_filesz (drop header.now.p_offset self.now) }
    {
        if header.p_filesz == 0 {
            return &[];
        }
        let start = header.p_offset as usize;
        &self.bytes[start..start + header.p_filesz as usize]
    }
}
