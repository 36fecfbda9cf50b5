//! Short lists of locations, on the stack, each ascending and without repeats.

ghost use Rattle.std.specs.Prelude.{◌≡◌, ◌<◌, ◌≤◌, ◌∷◌, ◌++◌, [], length};
ghost use Rattle.flow_model.specs.declared.Loc.TheVariants.{Reg, Mem};
ghost use Rattle.flow_model.specs.declared.Rule.TheVariants.{Index};
ghost use Rattle.flow_model.specs.Flow as model;
ghost use Rattle.flow_rule.specs.Locations.{locs_of, four_lanes};

use flow_model::Loc;

/// At most eight locations: as many as the lanes of two registers.
#[derive(Clone, Copy)]
pub enum Locations {
    Empty,
    One([Loc; 1]),
    Two([Loc; 2]),
    Four([Loc; 4]),
    Five([Loc; 5]),
    Eight([Loc; 8]),
}

impl Locations {
    #[inline(always)]
    pub fn as_slice(&self) -> &[Loc]
        ensures value { result.now ≡ locs_of self.now }
        ensures short { length result.now ≤ 8 }
    {
        match self {
            Locations::Empty => &[],
            Locations::One(locs) => locs,
            Locations::Two(locs) => locs,
            Locations::Four(locs) => locs,
            Locations::Five(locs) => locs,
            Locations::Eight(locs) => locs,
        }
    }

    /// One lane of a register; x0 has none.
    #[inline(always)]
    pub fn lane(number: u8, lane: u8) -> Self
        ensures { locs_of result ≡ model.lane number lane }
    {
        if number == 0 {
            Locations::Empty
        } else {
            Locations::One([register_lane(number, lane)])
        }
    }

    /// The same lane of two registers.
    #[inline(always)]
    pub fn each_lane(a: u8, b: u8, lane: u8) -> Self
        ensures { locs_of result ≡ model.each_lane a b lane }
    {
        if a == 0 || a == b {
            return Locations::lane(b, lane);
        }
        if b == 0 {
            return Locations::lane(a, lane);
        }
        let (low, high) = if a < b { (a, b) } else { (b, a) };
        Locations::Two([register_lane(low, lane), register_lane(high, lane)])
    }

    /// The lanes of a register; x0 has none.
    #[inline(always)]
    pub fn lanes(number: u8) -> Self
        ensures { locs_of result ≡ model.lanes number }
    {
        if number == 0 {
            Locations::Empty
        } else {
            Locations::Four(four(number))
        }
    }

    /// All lanes of two registers.
    #[inline(always)]
    pub fn all_lanes(a: u8, b: u8) -> Self
        ensures { locs_of result ≡ model.all_lanes a b 0 }
    {
        if a == 0 || a == b {
            Locations::lanes(b)
        } else if b == 0 {
            Locations::lanes(a)
        } else if a < b {
            Locations::joined(a, b)
        } else {
            Locations::joined(b, a)
        }
    }

    #[inline(always)]
    fn joined(low: u8, high: u8) -> Self
        ensures { locs_of result ≡ four_lanes low ++ four_lanes high }
    {
        let [a, b, c, d] = four(low);
        let [e, f, g, h] = four(high);
        Locations::Eight([a, b, c, d, e, f, g, h])
    }

    /// All lanes of a register, and one lane of another.
    #[inline(always)]
    pub fn lanes_and_one(number: u8, other: u8, lane: u8) -> Self
        requires { lane < 4 }
        ensures { locs_of result ≡ model.with_base Index number (model.lane other lane) }
    {
        if other == 0 || number == other {
            return Locations::lanes(number);
        }
        if number == 0 {
            return Locations::lane(other, lane);
        }
        let [a, b, c, d] = four(number);
        let one = register_lane(other, lane);
        if number < other {
            Locations::Five([a, b, c, d, one])
        } else {
            Locations::Five([one, a, b, c, d])
        }
    }

    /// All lanes of a register, and a byte of memory.
    #[inline(always)]
    pub fn lanes_and_byte(number: u8, place: u32) -> Self
        ensures { locs_of result ≡ model.with_base Index number (Mem place ∷ []) }
    {
        let byte = Loc::Mem { place };
        if number == 0 {
            return Locations::One([byte]);
        }
        let [a, b, c, d] = four(number);
        Locations::Five([a, b, c, d, byte])
    }
}

#[inline(always)]
fn four(number: u8) -> [Loc; 4]
    ensures { result ≡ four_lanes number }
{
    [
        register_lane(number, 0),
        register_lane(number, 1),
        register_lane(number, 2),
        register_lane(number, 3),
    ]
}

#[inline(always)]
fn register_lane(number: u8, lane: u8) -> Loc
    ensures { result ≡ Reg number lane }
{
    Loc::Reg { number, lane }
}
