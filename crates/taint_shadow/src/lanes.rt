//! Four labels at once: those of a register's lanes, or of the bytes of a word.

ghost use Rattle.std.specs.Prelude.{◌≡◌, ◌<◌, ◌≤◌, ℕ, IsTrue, IfSome};
ghost use Rattle.flow_rule.specs.Shuffles.{AreLanes};
ghost use Rattle.taint_shadow.specs.Lanes.{lane_at, alike, clean, chosen_label, shuffled, extended_lane};

use crate::labels::Label;
use flow_model::Loc;
use flow_rule::Shuffle;

/// The labels of the four lanes of a register, or of four bytes, the lowest first.
#[derive(Clone, Copy)]
pub(crate) struct Lanes {
    pub(crate) first: Label,
    pub(crate) second: Label,
    pub(crate) third: Label,
    pub(crate) fourth: Label,
}

impl Lanes {
    /// One label in each lane.
    #[inline(always)]
    pub(crate) fn alike(label: Label) -> Lanes
        ensures { result ≡ alike label }
    {
        Lanes {
            first: label,
            second: label,
            third: label,
            fourth: label,
        }
    }

    /// Lanes that came from nowhere.
    #[inline(always)]
    pub(crate) fn clean() -> Lanes
        ensures { result ≡ clean }
    {
        Lanes::alike(Label::nothing())
    }

    /// The label of a lane. There are four.
    #[inline(always)]
    pub(crate) fn at(self, lane: u8) -> Label
        requires { lane < 4 }
        ensures { result ≡ lane_at self lane }
    {
        match lane {
            0 => self.first,
            1 => self.second,
            2 => self.third,
            _ => self.fourth,
        }
    }

    /// The label of a lane, if one is chosen: of none it is that of what came from nowhere.
    #[inline(always)]
    fn chosen(self, lane: Option<u8>) -> Label
        requires { IfSome lane (λ i. i < 4) }
        ensures { result ≡ chosen_label self lane }
    {
        match lane {
            Some(lane) => self.at(lane),
            None => Label::nothing(),
        }
    }

    /// For each lane the label of the one that is chosen for it.
    #[inline(always)]
    pub(crate) fn shuffled(self, shuffle: Shuffle) -> Lanes
        requires { AreLanes shuffle }
        ensures { result ≡ shuffled self shuffle }
    {
        Lanes {
            first: self.chosen(shuffle.first),
            second: self.chosen(shuffle.second),
            third: self.chosen(shuffle.third),
            fourth: self.chosen(shuffle.fourth),
        }
    }

    /// Whether all lanes have one label.
    #[inline(always)]
    pub(crate) fn are_alike(self) -> bool
        ensures { IsTrue result → self ≡ alike self.first }
    {
        self.first == self.second && self.first == self.third && self.first == self.fourth
    }

    /// Whether all lanes came from nowhere: one test for the four.
    #[inline(always)]
    pub(crate) fn are_clean(self) -> bool
        ensures { IsTrue result → self ≡ clean }
    {
        self.first.number | self.second.number | self.third.number | self.fourth.number == 0
    }

    /// The lanes that a load of `size` bytes leaves: those above are like the highest byte, where the sign fills them,
    /// or else came from nowhere.
    #[inline(always)]
    pub(crate) fn extended(self, size: u8, fills: bool) -> Lanes
        requires { (1 ≤ size) × (size ≤ 4) }
        ensures { (i : ℕ) → i < 4 → lane_at result i ≡ extended_lane self size fills i }
    {
        let above = if fills {
            self.at(size - 1)
        } else {
            Label::nothing()
        };
        Lanes {
            first: self.first,
            second: if size > 1 { self.second } else { above },
            third: if size > 2 { self.third } else { above },
            fourth: if size > 3 { self.fourth } else { above },
        }
    }
}
