//! Pages by number.

ghost use Rattle.std.specs.Prelude.{◌≡◌, ◌<◌, [], ◌∷◌, ◌++◌, length, get_or, IfOk, OnErr};

use no_memory::{Limit, NoMemory};
use std::alloc::Global;
use std::marker::Model;

/// Pages of memory, numbered from 0 in the order in which they came.
#[derive(Drop)]
pub struct Pages {
    pages: Vec<Vec<u8>>,
}

impl Model for Pages {
    ghost use Rattle.std.specs.Prelude.{ℕ, List, map};

    ghost Value = { List (List ℕ) };

    ghost view = { λ p. map (λ page. page.items) p.pages.items };
}

impl Pages {
    /// No pages.
    pub fn new(alloc: Global) -> Pages
        ensures { result ≡ [] }
    {
        Pages {
            pages: Vec::new(alloc),
        }
    }

    /// How many pages there are.
    pub fn count(&self) -> u64
        ensures { result ≡ length self.now }
    {
        self.pages.len() as u64
    }

    /// The page of a number.
    pub fn page(&self, number: u32) -> &[u8]
        requires { number < length self.now }
        ensures { result.now ≡ get_or self.now number [] }
    {
        self.pages[number as usize].as_slice()
    }

    /// Keeps one more page, copied, and gives its number. It gives up with NoMemory alone, also where 2^32 pages are
    /// kept.
    pub fn push(&mut self, alloc: Global, page: &[u8]) -> Result<u32, NoMemory>
        ensures number { IfOk result (λ number. number ≡ length self.old) }
        ensures kept { IfOk result (λ _. self.new ≡ self.old ++ page.now ∷ []) }
        ensures err { OnErr result (self.new ≡ self.old) }
    {
        let count = self.count();
        let Ok(number) = u32::try_from(count) else {
            return Err(NoMemory::past_count(Limit::CheckpointPages, count));
        };
        let mut kept = Vec::with_capacity(alloc, page.len())?;
        kept.extend_from_slice(page)?;
        self.pages.push(kept)?;
        Ok(number)
    }
}
