//! What came back for the locations that were asked.

ghost use Rattle.std.specs.Prelude.{◌≡◌, ◌<◌, [], ◌∷◌, ◌++◌, length, map, get_or, All, IfSome, IsTrue, OnOk};
ghost use Rattle.lists.specs.Sets.{Ascends};
ghost use Rattle.flow_model.specs.Orders.{source_cmp};

use flow_model::SourceByte;
use no_memory::NoMemory;
use std::alloc::Global;
use std::marker::Model;

/// Answers in the order of what was asked: of each location the source bytes that its content came from, ascending. Of
/// large ones that are equal, where one came soon after the other, one set is kept.
#[derive(Drop)]
pub struct Answers {
    sets: Vec<Vec<SourceByte>>,
    // Of each answer the number of its set.
    numbers: Vec<usize>,
}

impl Model for Answers {
    ghost use Rattle.std.specs.Prelude.{List, map};
    ghost use Rattle.flow_model.specs.declared.SourceByte.{SourceByte};
    ghost use Rattle.answer_sets.specs.Kept.{AreKept, answers_in};

    ghost Value = { List (List SourceByte) };

    ghost view = { λ a. answers_in (map (λ set. set.items) a.sets.items) a.numbers.items };

    ghost invariant = { λ a. AreKept (map (λ set. set.items) a.sets.items) a.numbers.items };
}

/// So many source bytes are a large set.
pub(crate) const LARGE: usize = 64;

/// A large set is compared with so many of those that came last.
const LATEST: usize = 8;

impl Answers {
    /// No answers. It takes no memory.
    pub fn new(alloc: Global) -> Answers
        ensures { result ≡ [] }
    {
        Answers {
            sets: Vec::new(alloc),
            numbers: Vec::new(alloc),
        }
    }

    /// How many answers there are.
    pub fn count(&self) -> usize
        ensures { result ≡ length self.now }
    {
        self.numbers.len()
    }

    /// What is true of all answers: each ascends.
    pub fn form(&self)
        ensures { All (Ascends source_cmp) self.now }
    {
        // what is known of the field is known from its first use on
        let _answers = self.numbers.len();
    }

    /// Adds the answer to the next location.
    pub fn push(&mut self, set: Vec<SourceByte>) -> Result<(), NoMemory>
        requires { Ascends source_cmp set.items }
        ensures { OnOk result (self.new ≡ self.old ++ set.items ∷ []) }
    {
        if let Some(number) = number_of_equal(&self.sets, &set) {
            self.numbers.push(number)?;
            return Ok(());
        }
        let number = self.sets.len();
        self.sets.push(set)?;
        self.numbers.push(number)?;
        Ok(())
    }

    /// The answer at a place, counted from 0; no source byte where there is none.
    pub fn get(&self, place: usize) -> &[SourceByte]
        ensures { result.now ≡ get_or self.now place [] }
    {
        match self.numbers.get(place) {
            Some(number) => &self.sets[*number],
            None => &[],
        }
    }

    /// Whether the answers at two places are kept as one set, and so are equal. Where it answers no they may be equal all
    /// the same.
    pub fn share_set(&self, one: usize, other: usize) -> bool
        ensures { IsTrue result → get_or self.now one [] ≡ get_or self.now other [] }
    {
        let Some(number) = self.numbers.get(one) else {
            return false;
        };
        match self.numbers.get(other) {
            Some(same) => number == same,
            None => false,
        }
    }
}

/// The number of one of the latest sets which is equal to a large one.
fn number_of_equal(sets: &[Vec<SourceByte>], set: &[SourceByte]) -> Option<usize>
    ensures inside { IfSome result (λ number. number < length sets.now) }
    ensures equal { IfSome result (λ number. get_or (map (λ set. set.items) sets.now) number [] ≡ set.now) }
{
    if set.len() < LARGE {
        return None;
    }
    let first = sets.len().saturating_sub(LATEST);
    for number in first..sets.len() {
        if sets[number].as_slice() == set {
            return Some(number);
        }
    }
    None
}
