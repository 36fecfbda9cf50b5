//! A mark for each of the 32 registers, as the bits of a word.

ghost use Rattle.std.specs.Prelude.{◌≡◌, ◌<◌, ℕ, true, false, IsTrue};
ghost use Rattle.std.specs.Int.{bit_at};
ghost use Rattle.taint_shadow.specs.Marks.{has_mark, AllButFirst, SetsMark};

/// Which registers are marked: bit r is the mark of register r.
#[derive(Clone, Copy)]
pub(crate) struct Marks {
    bits: u32,
}

impl Marks {
    /// No register is marked.
    pub(crate) fn none() -> Marks
        ensures { (r : ℕ) → has_mark result.bits r ≡ false }
    {
        Marks { bits: 0 }
    }

    /// Each register but x0 is marked.
    pub(crate) fn all_but_first() -> Marks
        ensures { AllButFirst result.bits }
    {
        Marks { bits: u32::MAX - 1 }
    }

    /// Whether a register is marked.
    #[inline(always)]
    pub(crate) fn has(self, register: u8) -> bool
        requires { register < 32 }
        ensures { result ≡ has_mark self.bits register }
    {
        (self.bits >> register) % 2 == 1
    }

    /// The marks with that of a register.
    #[inline(always)]
    pub(crate) fn with(self, register: u8) -> Marks
        requires { register < 32 }
        ensures { SetsMark self.bits register true result.bits }
    {
        Marks {
            bits: self.bits | (1 << register),
        }
    }

    /// The marks without that of a register.
    #[inline(always)]
    pub(crate) fn without(self, register: u8) -> Marks
        requires { register < 32 }
        ensures { SetsMark self.bits register false result.bits }
    {
        Marks {
            bits: self.bits & !(1 << register),
        }
    }

    /// Whether none of these registers is marked, where bit r stands for register r.
    #[inline(always)]
    pub(crate) fn has_none_of(self, registers: u32) -> bool
        ensures { IsTrue result → (r : ℕ) → bit_at registers r ≡ 1 → has_mark self.bits r ≡ false }
    {
        self.bits & registers == 0
    }
}
