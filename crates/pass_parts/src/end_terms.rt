//! The terms of any location that a neighbour asks for.

ghost use Rattle.std.specs.Prelude.{◌≡◌, IsTrue, Some, OnOk};
ghost use Rattle.merge_log.specs.Log.{AreSets};
ghost use Rattle.epoch_summary.specs.Ahead.{IsAhead};
ghost use Rattle.pass_parts.specs.Known.{is_location, known};

use epoch_summary::{Summary, TermsAhead};
use flow_model::Loc;
use merge_log::TermsReader;
use no_memory::NoMemory;

/// Whether a lane is one of a register. Each address is a location.
pub fn is_location(loc: Loc) -> bool
    ensures { result ≡ is_location loc }
{
    match loc {
        Loc::Reg { number, lane } => number < 32 && lane < 4,
        Loc::Mem { place: _ } => true,
    }
}

/// Reads the terms of a location at the epoch's end, by those that were read ahead: the location itself where the epoch
/// doesn't touch it, or where no register has such a lane. When out of memory, the reader may have read part of them, and
/// can go on.
pub fn read_end_terms(
    summary: &Summary,
    ahead: &mut TermsAhead,
    reader: &mut TermsReader,
    loc: Loc,
) -> Result<(), NoMemory>
    requires { IsAhead summary.now ahead.old }
    ensures ahead { IsAhead summary.now ahead.new }
    ensures read { OnOk result (reader.new ≡ (known (Some summary.now)).ends loc) }
    ensures ascending { OnOk result (AreSets reader.new) }
{
    if is_location(loc) {
        summary.end_terms_ahead(ahead, reader, loc)
    } else {
        reader.read_start(loc)
    }
}

/// Whether two locations have the same terms at the epoch's end for a reason that needs no reading: one label. Where it
/// answers no the terms may be equal all the same.
pub fn share_end_terms(summary: &Summary, one: Loc, other: Loc) -> bool
    ensures { IsTrue result → (known (Some summary.now)).ends one ≡ (known (Some summary.now)).ends other }
{
    is_location(one) && is_location(other) && summary.share_end_terms(one, other)
}
