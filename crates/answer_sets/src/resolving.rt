//! Terms, resolved by the answers to what their epoch asked.

ghost use Rattle.std.specs.Prelude.{◌≡◌, ◌||◌, [], true, get_or, All, IfOk, IfSome, IsTrue, OnOk};
ghost use Rattle.lists.specs.Sets.{Ascends, has};
ghost use Rattle.flow_model.specs.Orders.{source_cmp};
ghost use Rattle.flow_model.specs.declared.SourceByte.{SourceByte as Source};
ghost use Rattle.source_runs.specs.Runs.{all_bytes};
ghost use Rattle.merge_log.specs.Log.{AreSets, start_term};
ghost use Rattle.epoch_model.specs.Join.{answer_to, resolved as resolved_terms};
ghost use Rattle.answer_sets.specs.Gathered.{is_at_one_of, AreGathered};

use crate::answers::{Answers, LARGE};
use epoch_summary::Asked;
use flow_model::{Loc, SourceByte};
use lists::{is_subset, merged};
use merge_log::{TermsReader, ascend};
use no_memory::NoMemory;
use source_runs::{SourceRun, push_bytes};
use std::alloc::Global;
use std::marker::Model;
use std::mem;

/// The source bytes of the terms that were read last, which are sets, ascending, where this was asked and these are the
/// answers. It fails only where there is no memory.
///
/// However many start locations have the same answer, it has room for few more than six times the source bytes of the
/// result at once, and the result takes no more than it needs.
pub fn resolved(
    alloc: Global,
    terms: &TermsReader,
    asked: &Asked,
    answers: &Answers,
) -> Result<Vec<SourceByte>, NoMemory>
    requires { AreSets terms.now }
    ensures value { IfOk result (λ all.
        all.items ≡ resolved_terms (answer_to asked.now answers.now) terms.now) }
    ensures ascending { IfOk result (λ all. Ascends source_cmp all.items) }
{
    answers.form();
    if let Some(loc) = only_start(terms) {
        return Ok(answer(asked, answers, loc).to_vec(alloc)?);
    }
    let mut gathered = Gathered::of_runs(alloc, terms.runs())?;
    let mut large = Vec::new(alloc);
    for loc in terms.starts() {
        add_answer(&mut gathered, asked, answers, *loc, &mut large)?;
    }
    let all = gathered.into_set()?;
    Ok(all)
}

/// The start location of terms that are this one alone.
pub(crate) fn only_start(terms: &TermsReader) -> Option<Loc>
    ensures { IfSome result (λ loc. terms.now ≡ start_term loc) }
{
    match (terms.runs(), terms.starts()) {
        ([], [loc]) => Some(*loc),
        _ => None,
    }
}

/// The answer to a location; no source byte where it wasn't asked.
pub(crate) fn answer<'a>(asked: &Asked, answers: &'a Answers, loc: Loc) -> &'a [SourceByte]
    ensures { result.now ≡ answer_to asked.now answers.now loc }
{
    asked.form();
    match asked.place_of(loc) {
        Some(place) => answers.get(place),
        None => &[],
    }
}

/// Of so many large answers it is remembered that they were added.
const REMEMBERED: usize = 64;

/// Adds the answer to a location, where this was asked. The large answers at these places were added: one that is kept
/// as one set with one of them adds nothing.
fn add_answer(
    gathered: &mut Gathered,
    asked: &Asked,
    answers: &Answers,
    loc: Loc,
    large: &mut Vec<usize>,
) -> Result<(), NoMemory>
    requires ascending { All (Ascends source_cmp) answers.now }
    requires large { AreGathered answers.now large.old.items gathered.old }
    ensures added { OnOk result
        ((b : Source) → has source_cmp b gathered.new
        ≡ (has source_cmp b gathered.old || has source_cmp b (answer_to asked.now answers.now loc))) }
    ensures large { OnOk result (AreGathered answers.now large.new.items gathered.new) }
{
    asked.form();
    let Some(place) = asked.place_of(loc) else {
        return Ok(());
    };
    let set = answers.get(place);
    if set.len() < LARGE {
        return gathered.add_set(set);
    }
    if share_one(answers, large, place) {
        return Ok(());
    }
    if large.len() == REMEMBERED {
        return gathered.add_set(set);
    }
    large.push(place)?;
    gathered.add_set(set)
}

/// Whether the answer at a place is kept as one set with one of those at some places.
fn share_one(answers: &Answers, places: &[usize], place: usize) -> bool
    ensures { IsTrue result → (b : Source) → has source_cmp b (get_or answers.now place []) ≡ true
        → is_at_one_of answers.now places.now b ≡ true }
{
    for other in places {
        if answers.share_set(*other, place) {
            return true;
        }
    }
    false
}

/// Source bytes that are gathered from sets. Some wait until there are as many as the rest, and are merged with them then,
/// or at the end. Contracts see it as the list of both.
#[derive(Drop)]
struct Gathered {
    alloc: Global,
    merged: Vec<SourceByte>,
    waiting: Vec<SourceByte>,
}

impl Model for Gathered {
    ghost use Rattle.std.specs.Prelude.{List, ◌++◌};
    ghost use Rattle.lists.specs.Sets.{Ascends};
    ghost use Rattle.flow_model.specs.Orders.{source_cmp};
    ghost use Rattle.flow_model.specs.declared.SourceByte.{SourceByte};

    ghost Value = { List SourceByte };

    ghost view = { λ g. g.merged.items ++ g.waiting.items };

    ghost invariant = { λ g. Ascends source_cmp g.merged.items };
}

impl Gathered {
    /// The bytes of runs, which ascend.
    fn of_runs(alloc: Global, runs: &[SourceRun]) -> Result<Gathered, NoMemory>
        requires { Ascends source_cmp (all_bytes runs.now) }
        ensures { IfOk result (λ gathered. gathered ≡ all_bytes runs.now) }
    {
        let mut merged = Vec::new(alloc);
        push_bytes(&mut merged, runs)?;
        Ok(Gathered {
            alloc,
            merged,
            waiting: Vec::new(alloc),
        })
    }

    /// Adds the source bytes of a set. A large one is within the rest more often than not, and then takes no room.
    fn add_set(&mut self, set: &[SourceByte]) -> Result<(), NoMemory>
        requires { Ascends source_cmp set.now }
        ensures { OnOk result
            ((b : Source) → has source_cmp b self.new ≡ (has source_cmp b self.old || has source_cmp b set.now)) }
    {
        if set.len() < LARGE || set.len() < self.merged.len() / 2 {
            return self.add(set);
        }
        if is_subset(set, &self.merged) {
            return Ok(());
        }
        self.merge(set)
    }

    /// Lets source bytes wait, and merges all that wait where they are many.
    fn add(&mut self, bytes: &[SourceByte]) -> Result<(), NoMemory>
        ensures { OnOk result
            ((b : Source) → has source_cmp b self.new ≡ (has source_cmp b self.old || has source_cmp b bytes.now)) }
    {
        self.waiting.extend_from_slice(bytes)?;
        if self.waiting.len() <= self.merged.len().max(LARGE) {
            return Ok(());
        }
        let mut waiting = mem::replace(&mut self.waiting, Vec::new(self.alloc));
        ascend(&mut waiting);
        self.merge(&waiting)
    }

    /// Merges the source bytes of a set with the rest.
    fn merge(&mut self, set: &[SourceByte]) -> Result<(), NoMemory>
        requires { Ascends source_cmp set.now }
        ensures { OnOk result
            ((b : Source) → has source_cmp b self.new ≡ (has source_cmp b self.old || has source_cmp b set.now)) }
    {
        self.merged = merged(self.alloc, &self.merged, set)?;
        self.merged.shrink_to_fit();
        Ok(())
    }

    /// The set of all that was added, in no more room than it needs.
    fn into_set(self) -> Result<Vec<SourceByte>, NoMemory>
        ensures members { IfOk result (λ set. (b : Source) → has source_cmp b set.items ≡ has source_cmp b self) }
        ensures ascending { IfOk result (λ set. Ascends source_cmp set.items) }
    {
        let mut waiting = self.waiting;
        if waiting.is_empty() {
            let mut set = self.merged;
            set.shrink_to_fit();
            return Ok(set);
        }
        ascend(&mut waiting);
        let mut all = merged(self.alloc, &self.merged, &waiting)?;
        all.shrink_to_fit();
        Ok(all)
    }
}
