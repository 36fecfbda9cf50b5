//! Whether a step touches a location where the source byte is.

ghost use Rattle.std.specs.Prelude.{◌<◌, ℕ, IsTrue};
ghost use Rattle.flow_model.specs.declared.Loc.TheVariants.{Reg};
ghost use Rattle.flow_rule.specs.Shapes.{targets_of, HasRegisters, HasSizes};
ghost use Rattle.path_find.specs.Carriers.{HasNothing};
ghost use Rattle.path_find.specs.Trails.{IsApart};

use crate::carriers::Carriers;
use flow_rule::Shape;

/// Whether nothing is at any location that an instruction of this shape reads or writes: so nothing changes by it.
#[inline(always)]
pub(crate) fn is_apart(carriers: &Carriers, shape: Shape) -> bool
    requires registers { HasRegisters shape }
    requires sizes { HasSizes shape }
    ensures { IsTrue result → IsApart (HasNothing carriers.now) (targets_of shape) }
{
    match shape {
        Shape::Nothing => true,
        Shape::Clear { rd } => carriers.has_no_lane(rd),
        Shape::Move { rd, rs } | Shape::Shuffled { rd, rs, .. } => {
            carriers.has_no_lane(rd) && carriers.has_no_lane(rs)
        }
        Shape::Mixed { rd, rs1, rs2, .. } => are_apart(carriers, rd, rs1, rs2),
        Shape::Load {
            rd,
            base,
            place,
            size,
            ..
        } => are_apart(carriers, rd, base, base) && carriers.has_no_byte(place, size),
        Shape::Store {
            rs,
            base,
            place,
            size,
        } => are_apart(carriers, rs, base, base) && carriers.has_no_byte(place, size),
    }
}

/// Whether nothing is at the lanes of three registers.
#[inline(always)]
fn are_apart(carriers: &Carriers, one: u8, two: u8, three: u8) -> bool
    requires { (one < 32) × (two < 32) × (three < 32) }
    ensures { IsTrue result → (i : ℕ)
        → HasNothing carriers.now (Reg one i) × HasNothing carriers.now (Reg two i)
        × HasNothing carriers.now (Reg three i) }
{
    carriers.has_no_lane(one) && carriers.has_no_lane(two) && carriers.has_no_lane(three)
}
