//! The bytes that a query chooses.

ghost use Rattle.std.specs.Prelude.{◌≡◌, ◌≤◌, [], ◌∷◌, ◌++◌, length, IfOk, OnOk, IfSome, IsTrue, AllPairs};
ghost use Rattle.std.specs.List.{list_any, AllAdjacentBelow};
ghost use Rattle.query_lang.specs.Choices.{choices_of, choice_shown, SameChoices};
ghost use Rattle.query_lang.specs.Single.{IsOnlyByte};
ghost use Rattle.query_lang.specs.Spans.{span_has, NotAfter, Precedes, SameBytes, StartUpTo};
ghost use Rattle.report_model.specs.Query.{chooses};

use crate::choice::{Choice, Span};
use std::alloc::{AllocError, Global};
use std::marker::Model;

/// What the lines so far choose.
#[derive(Drop)]
pub struct Selection {
    pub all: bool,
    pub spans: Vec<Span>,
}

impl Selection {
    /// Nothing.
    pub fn new(alloc: Global) -> Self
        ensures { choices_of result.all result.spans.items ≡ [] }
    {
        Selection {
            all: false,
            spans: Vec::new(alloc),
        }
    }

    /// Chooses this as well.
    pub fn add(&mut self, choice: Choice) -> Result<(), AllocError>
        ensures { OnOk result (SameChoices
            (choices_of self.new.all self.new.spans.items)
            (choices_of self.old.all self.old.spans.items ++ choice_shown choice ∷ [])) }
    {
        match choice {
            Choice::All => self.all = true,
            Choice::Span(span) => self.spans.push(span)?,
        }
        Ok(())
    }
}

/// The spans by channel and start.
fn sort(mut spans: Vec<Span>) -> Vec<Span>
    ensures ascend { AllAdjacentBelow NotAfter result.items (length result.items) }
    ensures same { SameBytes result.items spans.items }
{
    spans.sort_unstable();
    spans
}

/// The bytes of spans that ascend, as spans that lie apart.
fn merged(alloc: Global, spans: &[Span]) -> Result<Vec<Span>, AllocError>
    requires { AllAdjacentBelow NotAfter spans.now (length spans.now) }
    ensures apart { IfOk result (λ kept. AllPairs Precedes kept.items) }
    ensures same { IfOk result (λ kept. SameBytes kept.items spans.now) }
{
    let mut kept = Vec::new(alloc);
    let Some((first, others)) = spans.split_first() else {
        return Ok(kept);
    };
    let mut last = *first;
    for span in others {
        if last.reaches(span) {
            last = last.joined(span);
        } else {
            kept.push(last)?;
            last = *span;
        }
    }
    kept.push(last)?;
    Ok(kept)
}

/// How many spans start at the byte or before it, of spans that lie apart.
fn count_started(spans: &[Span], channel: u8, offset: u32) -> usize
    requires { AllPairs Precedes spans.now }
    ensures bound { result ≤ length spans.now }
    ensures point { StartUpTo channel offset spans.now result }
{
    spans.partition_point(|span| span.starts_by(channel, offset))
}

/// Whether one of spans that lie apart has the byte: of those that start by it only the last may.
fn is_in_spans(spans: &[Span], channel: u8, offset: u32) -> bool
    requires { AllPairs Precedes spans.now }
    ensures { result ≡ list_any (span_has channel offset) spans.now }
{
    let started = count_started(spans, channel, offset);
    started > 0 && spans[started - 1].has(channel, offset)
}

/// Bytes by channel and offset: all of them, or those of spans that ascend and lie apart.
#[derive(Drop)]
pub struct Chosen {
    all: bool,
    spans: Vec<Span>,
}

impl Model for Chosen {
    ghost use Rattle.std.specs.Prelude.{List, AllPairs};
    ghost use Rattle.report_model.specs.Query.{Choice};
    ghost use Rattle.query_lang.specs.Choices.{choices_of};
    ghost use Rattle.query_lang.specs.Spans.{Precedes};

    ghost Value = { List Choice };

    ghost view = { λ c. choices_of c.all c.spans.items };

    ghost invariant = { λ c. AllPairs Precedes c.spans.items };
}

impl Chosen {
    /// The bytes of a selection.
    pub fn of(alloc: Global, selection: Selection) -> Result<Chosen, AllocError>
        ensures { IfOk result (λ chosen.
            SameChoices chosen (choices_of selection.all selection.spans.items)) }
    {
        let Selection { all, spans } = selection;
        let spans = merged(alloc, &sort(spans))?;
        Ok(Chosen { all, spans })
    }

    /// Adds the bytes to those of a selection.
    pub fn add_to(&self, selection: &mut Selection) -> Result<(), AllocError>
        ensures { OnOk result (SameChoices
            (choices_of selection.new.all selection.new.spans.items)
            (choices_of selection.old.all selection.old.spans.items ++ self.now)) }
    {
        selection.all = selection.all || self.all;
        selection.spans.extend_from_slice(&self.spans)
    }

    /// Whether the byte is chosen.
    pub fn has(&self, channel: u8, offset: u32) -> bool
        ensures { result ≡ chooses self.now channel offset }
    {
        self.all || is_in_spans(&self.spans, channel, offset)
    }

    /// Whether nothing is chosen.
    pub fn is_nothing(&self) -> bool
        ensures { IsTrue result → self.now ≡ [] }
    {
        !self.all && self.spans.is_empty()
    }

    /// The channel and the offset of the byte, where one alone is chosen.
    pub fn only(&self) -> Option<(u8, u32)>
        ensures { IfSome result (λ b. IsOnlyByte self.now b.0 b.1) }
    {
        if self.all {
            return None;
        }
        let [span] = self.spans.as_slice() else {
            return None;
        };
        span.only()
    }
}
