//! Labels of locations, and what makes and unites them.

ghost use Rattle.std.specs.Prelude.{◌≡◌, None, IfOk, IfSome, IsTrue};
ghost use Rattle.flow_model.specs.declared.Loc.{Loc as Location};
ghost use Rattle.flow_model.specs.declared.SourceByte.{SourceByte as Source};
ghost use Rattle.taint_shadow.specs.Labels.{LabelWords, Laws, Makes, mean_together, nothing_label, node_label, start_label, kind_of, FitsLabel};

use flow_model::{Loc, SinkPoint, SourceByte};
use no_memory::NoMemory;
use source_runs::SourceRun;

/// The number of the label of what the byte at place 0 had at the start; those of nodes lie below it.
const FIRST_BYTE: u64 = 0x1_0000_0000;

/// The number of the label of what lane 0 of register 0 had at the start; those of bytes lie below it.
const FIRST_LANE: u64 = 0x2_0000_0000;

/// The number of the label of the first byte of channel 0, from which those of runs count on; those of lanes lie below it.
const FIRST_RUN: u64 = 1 << 62;

/// The offsets of runs that have labels lie below this number.
const PAST_OFFSETS: u64 = 1 << 29;

/// The channels of runs that have labels lie below this number.
const PAST_CHANNELS: u64 = 1 << 4;

/// What a location is labelled with: a node, what some location had at the start, or a run of source bytes, as one number.
#[derive(Clone, Copy, PartialEq, Eq)]
pub struct Label {
    pub(crate) number: u64,
}

/// An output byte or a point, with the label of what it came from.
#[derive(Clone, Copy)]
pub struct SinkLabel {
    pub name: SinkPoint,
    pub label: Label,
}

/// What a label is.
#[derive(Clone, Copy)]
pub enum LabelKind {
    /// A node of whoever makes labels. Node 0 came from nowhere.
    Node(u32),
    /// What a location had at the start.
    Start(Loc),
    /// Source bytes of one channel, one after another.
    Run(SourceRun),
}

impl Label {
    /// The label of what came from nowhere: node 0.
    #[inline(always)]
    pub fn nothing() -> Label
        ensures { result ≡ nothing_label }
    {
        Label { number: 0 }
    }

    /// The label of a node.
    #[inline(always)]
    pub fn node(number: u32) -> Label
        ensures { result ≡ node_label number }
    {
        Label {
            number: number as u64,
        }
    }

    /// The label of what a location had at the start.
    #[inline(always)]
    pub fn start(loc: Loc) -> Label
        ensures label { result ≡ start_label loc }
        ensures kind { kind_of result ≡ LabelKind.Start loc }
    {
        let number = match loc {
            Loc::Mem { place } => FIRST_BYTE + place as u64,
            Loc::Reg { number, lane } => FIRST_LANE + 256 * number as u64 + lane as u64,
        };
        Label { number }
    }

    /// The label of a run of source bytes: `None` where its channel or its last offset is too large for a label's number.
    #[inline(always)]
    pub fn run(run: SourceRun) -> Option<Label>
        ensures kind { IfSome result (λ label. kind_of label ≡ LabelKind.Run run) }
        ensures none { result ≡ None → FitsLabel run → ⊥ }
    {
        if run.channel as u64 >= PAST_CHANNELS
            || run.first as u64 >= PAST_OFFSETS
            || run.last as u64 >= PAST_OFFSETS
        {
            return None;
        }
        Some(Label {
            number: FIRST_RUN
                + run.channel as u64 * (PAST_OFFSETS * PAST_OFFSETS)
                + run.first as u64 * PAST_OFFSETS
                + run.last as u64,
        })
    }

    /// What the label is.
    #[inline(always)]
    pub fn kind(self) -> LabelKind
        ensures { result ≡ kind_of self }
    {
        if self.number < FIRST_BYTE {
            return LabelKind::Node(self.number as u32);
        }
        if self.number < FIRST_LANE {
            return LabelKind::Start(Loc::Mem {
                place: (self.number - FIRST_BYTE) as u32,
            });
        }
        if self.number < FIRST_RUN {
            return LabelKind::Start(Loc::Reg {
                number: (self.number / 256 % 256) as u8,
                lane: (self.number % 256) as u8,
            });
        }
        LabelKind::Run(SourceRun {
            channel: (self.number / (PAST_OFFSETS * PAST_OFFSETS) % PAST_CHANNELS) as u8,
            first: (self.number / PAST_OFFSETS % PAST_OFFSETS) as u32,
            last: (self.number % PAST_OFFSETS) as u32,
        })
    }

    /// Whether it is the label of what came from nowhere.
    #[inline(always)]
    pub fn is_nothing(self) -> bool
        ensures { IsTrue result → self ≡ nothing_label }
    {
        self.number == 0
    }
}

/// Says what labels mean, makes them, and unites them. What was made stays as it is.
pub trait Labels {
    /// What a label stands for. No value of it is made.
    type Meaning;

    /// What labels stand for, which of them stand here, and what is meant by none, by a source byte, by what was at a
    /// location at the start, and by two labels together.
    ghost words: { LabelWords Self Self.Meaning };

    /// The label of what came from one source byte.
    fn source(&mut self, byte: SourceByte) -> Result<Label, NoMemory>
        ensures { IfOk result (Makes words self.old (words.source byte) self.new) };

    /// The label of two together.
    fn unite(&mut self, left: Label, right: Label) -> Result<Label, NoMemory>
        requires left { words.stands self.old left }
        requires right { words.stands self.old right }
        ensures { IfOk result (Makes words self.old (mean_together words self.old left right) self.new) };

    /// Meanings are united as sets are.
    ghost laws: { Laws words };
}
