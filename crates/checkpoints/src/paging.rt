//! A window's pages, kept and put together again.

ghost use Rattle.std.specs.Prelude.{◌≡◌, ℕ, ◌+◌, ◌<◌, List, length, get_or, IfOk};
ghost use Rattle.std.specs.List.{All};
ghost use Rattle.checkpoints.specs.Pages.{differs, IsHeld, ArePagesOf, IsExtended, page_before};
ghost use Rattle.checkpoints.specs.Touched.{IsHeldUntouched, AreOthersHeld, IsOneKept, AreChangedKept};

use crate::pages::Pages;
use crate::touched::Touched;
use no_memory::NoMemory;
use std::alloc::Global;

/// How many bytes a page has.
pub const PAGE_SIZE: usize = 4096;

/// The number of a page. Where it has the bytes of the page that was at its place before, it is that page's number.
fn keep(
    alloc: Global,
    pages: &mut Pages,
    before: &[u32],
    place: usize,
    page: &[u8],
) -> Result<u32, NoMemory>
    requires held { All (λ number. number < length pages.old) before.now }
    requires some { 0 < length page.now }
    ensures held { IfOk result (λ number. IsHeld pages.new number page.now) }
    ensures extended { IsExtended pages.old pages.new }
    ensures count { IfOk result (λ _.
        length pages.new ≡ length pages.old + differs (page_before pages.old before.now place) page.now) }
{
    if place < before.len() {
        let number = before[place];
        if pages.page(number) == page {
            return Ok(number);
        }
    }
    pages.push(alloc, page)
}

/// The number of the page at a place. Where it can't have been written since, it is that of the page there before, and
/// no byte is looked at.
fn number_at(
    alloc: Global,
    pages: &mut Pages,
    before: &[u32],
    place: usize,
    is_touched: bool,
    page: &[u8],
) -> Result<u32, NoMemory>
    requires held { All (λ number. number < length pages.old) before.now }
    requires some { 0 < length page.now }
    ensures below { IfOk result (λ number. number < length pages.new) }
    ensures held { IfOk result (λ number.
        IsHeldUntouched is_touched pages.old before.now place page.now → IsHeld pages.new number page.now) }
    ensures extended { IsExtended pages.old pages.new }
    ensures count { IfOk result (λ _. IsOneKept is_touched pages.old before.now place pages.new page.now) }
{
    if !is_touched && place < before.len() {
        return Ok(before[place]);
    }
    keep(alloc, pages, before, place, page)
}

/// The numbers of a window's pages. A page that is as it was at its place in the window before keeps its number, and
/// only the others are kept anew. Only pages that may have been written since are compared. It gives up with NoMemory
/// alone.
pub fn split(
    alloc: Global,
    pages: &mut Pages,
    before: &[u32],
    touched: &Touched,
    bytes: &[u8],
) -> Result<Vec<u32>, NoMemory>
    requires held { All (λ number. number < length pages.old) before.now }
    ensures below { IfOk result (λ numbers. All (λ number. number < length pages.new) numbers.items) }
    ensures paged { IfOk result (λ numbers.
        AreOthersHeld touched.now.flags pages.old before.now bytes.now → ArePagesOf pages.new numbers.items bytes.now) }
    ensures extended { IsExtended pages.old pages.new }
    ensures count { IfOk result (λ _. AreChangedKept touched.now.flags pages.old before.now pages.new bytes.now) }
{
    let count = bytes.len().div_ceil(PAGE_SIZE);
    let mut numbers = Vec::with_capacity(alloc, count)?;
    for place in 0..count {
        let first = place * PAGE_SIZE;
        let past = bytes.len().min(first + PAGE_SIZE);
        let page = &bytes[first..past];
        let number = number_at(alloc, pages, before, place, touched.is_touched(place), page)?;
        numbers.push(number)?;
    }
    Ok(numbers)
}

/// The window that has the pages of these numbers. It gives up with NoMemory alone.
pub fn join(alloc: Global, pages: &Pages, numbers: &[u32]) -> Result<Vec<u8>, NoMemory>
    requires { All (λ number. number < length pages.now) numbers.now }
    ensures { IfOk result (λ bytes.
        (window : List ℕ) → ArePagesOf pages.now numbers.now window → bytes.items ≡ window) }
{
    let mut bytes = Vec::with_capacity(alloc, numbers.len().saturating_mul(PAGE_SIZE))?;
    for &number in numbers {
        bytes.extend_from_slice(pages.page(number))?;
    }
    Ok(bytes)
}
