//! Which bytes a line chooses.

ghost use Rattle.std.specs.Prelude.{◌≡◌, ◌∷◌, [], true, IfSome};
ghost use Rattle.query_lang.specs.Choices.{span_choice};
ghost use Rattle.query_lang.specs.Single.{IsOnlyByte};
ghost use Rattle.query_lang.specs.Spans.{start_of, starts_by, span_has, reaches, NotAfter, IsAtStartOf, HasBoth};

/// The offsets from one up to another, and without it.
#[derive(Clone, Copy, PartialEq, Eq, PartialOrd, Ord)]
pub struct Offsets {
    pub from: u32,
    pub past: u32,
}

/// Some bytes of a channel; where no offsets are named, all of them.
#[derive(Clone, Copy, PartialEq, Eq, PartialOrd, Ord)]
pub struct Span {
    pub channel: u8,
    pub offsets: Option<Offsets>,
}

/// What a line chooses: each byte, or a span.
#[derive(Clone, Copy)]
pub enum Choice {
    All,
    Span(Span),
}

impl Span {
    /// The first offset that may be one of them.
    pub fn start(&self) -> u32
        ensures { result ≡ start_of self.now }
    {
        match self.offsets {
            None => 0,
            Some(offsets) => offsets.from,
        }
    }

    /// Whether the span starts at the byte of this channel and offset or before it.
    pub fn starts_by(&self, channel: u8, offset: u32) -> bool
        ensures { result ≡ starts_by channel offset self.now }
    {
        self.channel < channel || (self.channel == channel && self.start() <= offset)
    }

    /// Whether the byte of this channel and offset is one of them.
    pub fn has(&self, channel: u8, offset: u32) -> bool
        ensures { result ≡ span_has channel offset self.now }
    {
        let is_within = match self.offsets {
            None => true,
            Some(offsets) => offsets.from <= offset && offset < offsets.past,
        };
        self.channel == channel && is_within
    }

    /// The channel and the offset of its byte, where it is one alone.
    pub fn only(&self) -> Option<(u8, u32)>
        ensures { IfSome result (λ b. IsOnlyByte (span_choice self.now ∷ []) b.0 b.1) }
    {
        let Some(Offsets { from, past }) = self.offsets else {
            return None;
        };
        if from < past && past - from == 1 {
            Some((self.channel, from))
        } else {
            None
        }
    }

    /// Whether no byte lies between the span and another that doesn't start before it.
    pub fn reaches(&self, other: &Span) -> bool
        ensures { result ≡ reaches self.now other.now }
    {
        let reaches_start = match self.offsets {
            None => true,
            Some(offsets) => other.start() <= offsets.past,
        };
        self.channel == other.channel && reaches_start
    }

    /// The bytes of the span and of another that it reaches.
    pub fn joined(&self, other: &Span) -> Span
        requires order { NotAfter self.now other.now }
        requires reached { reaches self.now other.now ≡ true }
        ensures start { IsAtStartOf self.now result }
        ensures both { HasBoth self.now other.now result }
    {
        let offsets = match (self.offsets, other.offsets) {
            (Some(front), Some(back)) => Some(Offsets {
                from: front.from,
                past: front.past.max(back.past),
            }),
            _ => None,
        };
        Span {
            channel: self.channel,
            offsets,
        }
    }
}
