//! The labels of the bytes of memory: regions of pages of lines of cells. A line is made as a byte in it is labelled;
//! until then each of its bytes has the label of what it had at the start.

ghost use Rattle.std.specs.Prelude.{◌≡◌, ◌<◌, ◌≤◌, ◌+◌, ◌*◌, ◌-◌, ◌/◌, ◌%◌, ◌^◌, ℕ, length, slice_index_or, IsTrue, IfSome, OnOk};
ghost use Rattle.flow_model.specs.declared.Loc.TheVariants.{Mem};
ghost use Rattle.isa.specs.Machine.{wrap};
ghost use Rattle.taint_shadow.specs.Labels.{start_label, nothing_label};
ghost use Rattle.taint_shadow.specs.Lanes.{lane_at, alike};
ghost use Rattle.taint_shadow.specs.Memory.{items_at, path_to, cells_of, cells_by, cell_or, in_memory, PutsBytes, set_if, with_cells, IsLineKept, PutsLanes, MakesLine};

use crate::labels::Label;
use crate::lanes::Lanes;
use flow_model::Loc;
use no_memory::NoMemory;
use std::alloc::Global;

/// The cells of a line.
const CELLS: usize = 64;

/// The lines of a page.
const LINES: usize = 256;

/// The pages of a region.
const PAGES: usize = 256;

/// Regions of pages of lines of cells.
pub(crate) type Regions = Vec<Vec<Vec<Vec<Label>>>>;

/// The numbers of a byte's region, of its page there, of its line there, and of its cell there.
#[derive(Clone, Copy)]
struct Path {
    region: usize,
    page: usize,
    line: usize,
    cell: usize,
}

/// Where the cell of a byte is.
#[inline(always)]
fn path_of(place: u32) -> Path
    ensures { result ≡ path_to place }
{
    let place = place as usize;
    let line = place / CELLS;
    let page = line / LINES;
    Path {
        region: page / PAGES,
        page: page % PAGES,
        line: line % LINES,
        cell: place % CELLS,
    }
}

/// A table of this number. One that isn't there is as if it were empty.
#[inline(always)]
fn table<T: Drop>(tables: &[Vec<T>], number: usize) -> &[T]
    ensures { result.now ≡ items_at tables.now number }
{
    if number < tables.len() {
        tables[number].as_slice()
    } else {
        &[]
    }
}

/// The cells of a byte's line.
#[inline(always)]
fn line_of(regions: &[Vec<Vec<Vec<Label>>>], place: u32) -> &[Label]
    ensures { result.now ≡ cells_of regions.now place }
{
    let path = path_of(place);
    let pages = table(regions, path.region);
    let lines = table(pages, path.page);
    table(lines, path.line)
}

/// The label of a byte, by the cells of its line.
#[inline(always)]
fn label_in(cells: &[Label], place: u32) -> Label
    ensures { result ≡ cell_or cells.now place }
{
    let cell = place as usize % CELLS;
    if cell < cells.len() {
        cells[cell]
    } else {
        Label::start(Loc::Mem { place })
    }
}

/// The label of a byte.
#[inline(always)]
pub(crate) fn label_at(regions: &[Vec<Vec<Vec<Label>>>], place: u32) -> Label
    ensures { result ≡ in_memory regions.now place }
{
    label_in(line_of(regions, place), place)
}

/// The labels of the four bytes from a place on, round the end of memory.
#[inline(always)]
pub(crate) fn word_at(regions: &[Vec<Vec<Vec<Label>>>], place: u32) -> Lanes
    ensures { (i : ℕ) → i < 4 → lane_at result i ≡ in_memory regions.now (wrap (place + i)) }
{
    if place as usize % CELLS + 4 <= CELLS {
        word_in(line_of(regions, place), place)
    } else {
        bytes_at(regions, place)
    }
}

/// The labels of the four bytes from a place on, where they lie in one line that was made.
#[inline(always)]
pub(crate) fn made_word(regions: &[Vec<Vec<Vec<Label>>>], place: u32) -> Option<Lanes>
    ensures { IfSome result (λ x. (i : ℕ) → i < 4 → lane_at x i ≡ in_memory regions.now (wrap (place + i))) }
{
    let past = place as usize % CELLS + 4;
    if past <= CELLS && past <= line_of(regions, place).len() {
        Some(word_at(regions, place))
    } else {
        None
    }
}

/// Whether the four bytes from a place on are known to have no label: they lie in one line that was made.
#[inline(always)]
pub(crate) fn is_clean_word(regions: &[Vec<Vec<Vec<Label>>>], place: u32) -> bool
    ensures { IsTrue result → (i : ℕ) → i < 4 → in_memory regions.now (wrap (place + i)) ≡ nothing_label }
{
    match made_word(regions, place) {
        Some(lanes) => lanes.are_clean(),
        None => false,
    }
}

/// The labels of the four bytes of a word that lies in one line.
#[inline(always)]
fn word_in(cells: &[Label], place: u32) -> Lanes
    requires { place % 64 + 4 ≤ 64 }
    ensures { (i : ℕ) → i < 4 → lane_at result i ≡ cell_or cells.now (place + i) }
{
    let cell = place as usize % CELLS;
    if cell + 4 <= cells.len() {
        Lanes {
            first: cells[cell],
            second: cells[cell + 1],
            third: cells[cell + 2],
            fourth: cells[cell + 3],
        }
    } else {
        Lanes {
            first: label_in(cells, place),
            second: label_in(cells, place + 1),
            third: label_in(cells, place + 2),
            fourth: label_in(cells, place + 3),
        }
    }
}

/// The labels of four bytes, one by one.
fn bytes_at(regions: &[Vec<Vec<Vec<Label>>>], place: u32) -> Lanes
    ensures { (i : ℕ) → i < 4 → lane_at result i ≡ in_memory regions.now (wrap (place + i)) }
{
    Lanes {
        first: label_at(regions, place),
        second: label_at(regions, place.wrapping_add(1)),
        third: label_at(regions, place.wrapping_add(2)),
        fourth: label_at(regions, place.wrapping_add(3)),
    }
}

/// Makes empty tables, until there are at least so many.
fn grow<T: Drop>(alloc: Global, tables: &mut Vec<Vec<T>>, size: usize) -> Result<(), NoMemory>
    ensures room { OnOk result (size ≤ length tables.new.items) }
    ensures same { OnOk result ((i : ℕ) → items_at tables.new.items i ≡ items_at tables.old.items i) }
{
    for _ in tables.len()..size {
        tables.push(Vec::new(alloc))?;
    }
    Ok(())
}

/// Fills a line, whose first byte is at `first`, up with what its bytes had at the start.
fn fill(cells: &mut Vec<Label>, first: u32) -> Result<(), NoMemory>
    requires { first % 64 ≡ 0 }
    ensures room { OnOk result (64 ≤ length cells.new.items) }
    ensures same { OnOk result (IsLineKept first cells.old.items cells.new.items) }
{
    cells.reserve(CELLS)?;
    for cell in cells.len()..CELLS {
        cells.push(Label::start(Loc::Mem {
            place: first + cell as u32,
        }))?;
    }
    Ok(())
}

/// Makes the line of a path, whose first byte is at `first`.
fn make_line(alloc: Global, regions: &mut Regions, path: Path, first: u32) -> Result<(), NoMemory>
    requires path { (path.region < 1024) × (path.page < 256) × (path.line < 256) }
    requires first { first % 64 ≡ 0 }
    ensures { OnOk result (MakesLine regions.old.items path.region path.page path.line first regions.new.items) }
{
    grow(alloc, regions, path.region + 1)?;
    let pages = &mut regions[path.region];
    grow(alloc, pages, path.page + 1)?;
    let lines = &mut pages[path.page];
    grow(alloc, lines, path.line + 1)?;
    fill(&mut lines[path.line], first)
}

/// Labels a cell, if that counts.
#[inline(always)]
fn put_cell(cells: &mut Vec<Label>, cell: usize, counts: bool, label: Label)
    requires { IsTrue counts → cell < length cells.old.items }
    ensures cells { cells.new.items ≡ set_if counts cells.old.items cell label }
    ensures size { length cells.new.items ≡ length cells.old.items }
{
    if counts {
        cells[cell] = label;
    }
}

/// Labels the lowest `size` of four bytes that have cells in one line.
#[inline(always)]
fn put_cells(cells: &mut Vec<Label>, cell: usize, size: u8, lanes: Lanes)
    requires size { 1 ≤ size }
    requires line { cell < 64 }
    requires room { cell + size ≤ length cells.old.items }
    ensures { cells.new.items ≡ with_cells cells.old.items cell size lanes }
{
    put_cell(cells, cell, true, lanes.first);
    put_cell(cells, cell + 1, 1 < size, lanes.second);
    put_cell(cells, cell + 2, 2 < size, lanes.third);
    put_cell(cells, cell + 3, 3 < size, lanes.fourth);
}

/// The same, in the line where the cells are.
#[inline(always)]
fn put_in_line(regions: &mut Regions, path: Path, size: u8, lanes: Lanes)
    requires size { 1 ≤ size }
    requires cell { path.cell < 64 }
    requires room { path.cell + size ≤ length (cells_by regions.old.items path) }
    ensures { PutsLanes regions.old.items path size lanes regions.new.items }
{
    let pages = &mut regions[path.region];
    let lines = &mut pages[path.page];
    put_cells(&mut lines[path.line], path.cell, size, lanes);
}

/// Labels the lowest `size` of four bytes of one line that was made.
#[inline(always)]
fn put_word(regions: &mut Regions, place: u32, size: u8, lanes: Lanes)
    requires size { (1 ≤ size) × (size ≤ 4) }
    requires line { place % 64 + size ≤ 64 }
    requires room { place % 64 + size ≤ length (cells_of regions.old.items place) }
    ensures { PutsBytes regions.old.items place size lanes regions.new.items }
{
    put_in_line(regions, path_of(place), size, lanes);
}

/// Labels a byte.
fn put_byte(alloc: Global, regions: &mut Regions, place: u32, label: Label) -> Result<(), NoMemory>
    ensures { OnOk result (PutsBytes regions.old.items place 1 (alike label) regions.new.items) }
{
    if place as usize % CELLS < line_of(regions.as_slice(), place).len() {
        put_word(regions, place, 1, Lanes::alike(label));
        return Ok(());
    }
    make_line(alloc, regions, path_of(place), place - place % CELLS as u32)?;
    put_word(regions, place, 1, Lanes::alike(label));
    Ok(())
}

/// Labels the bytes from a place on, round the end of memory, one by one.
fn put_bytes(
    alloc: Global,
    regions: &mut Regions,
    place: u32,
    size: u8,
    lanes: Lanes,
) -> Result<(), NoMemory>
    requires { (1 ≤ size) × (size ≤ 4) }
    ensures { OnOk result (PutsBytes regions.old.items place size lanes regions.new.items) }
{
    for i in 0..size {
        put_byte(alloc, regions, place.wrapping_add(i as u32), lanes.at(i))?;
    }
    Ok(())
}

/// Labels the bytes from a place on, round the end of memory.
#[inline(always)]
pub(crate) fn put(
    alloc: Global,
    regions: &mut Regions,
    place: u32,
    size: u8,
    lanes: Lanes,
) -> Result<(), NoMemory>
    requires { (1 ≤ size) × (size ≤ 4) }
    ensures { OnOk result (PutsBytes regions.old.items place size lanes regions.new.items) }
{
    let past = place as usize % CELLS + size as usize;
    if past <= CELLS && past <= line_of(regions.as_slice(), place).len() {
        put_word(regions, place, size, lanes);
        return Ok(());
    }
    put_bytes(alloc, regions, place, size, lanes)
}
