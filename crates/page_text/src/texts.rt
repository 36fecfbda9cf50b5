//! The constant texts of a page. Made from page/page.html by page/make_text.

ghost use Rattle.std.specs.Prelude.{◌≡◌, ◌≤◌, ◌++◌, length, OnOk};
ghost use Rattle.page_text.specs.Texts.{head, tail, mark};

use crate::{head0, tail0, tail1, tail2};
use no_memory::NoMemory;

/// What each page begins with, and no other file: at most 16 bytes.
#[tactic(auto, unfolding(crate::specs::Texts::mark, crate::specs::Texts::head))]
pub fn mark() -> &'static [u8]
    ensures short { length result.now ≤ 16 }
    ensures mark { result.now ≡ mark }
{
    b"<!--jet page-->"
}

/// Appends what stands before the data of a page. It fails only where there is no memory.
#[tactic(auto, unfolding(crate::specs::Texts::head))]
pub fn push_head(out: &mut Vec<u8>) -> Result<(), NoMemory>
    ensures { OnOk result (out.new.items ≡ out.old.items ++ head) }
{
    out.extend_from_slice(head0::TEXT)?;
    Ok(())
}

/// Appends what stands after the data of a page. It fails only where there is no memory.
#[tactic(auto, unfolding(crate::specs::Texts::tail))]
pub fn push_tail(out: &mut Vec<u8>) -> Result<(), NoMemory>
    ensures { OnOk result (out.new.items ≡ out.old.items ++ tail) }
{
    out.extend_from_slice(tail0::TEXT)?;
    out.extend_from_slice(tail1::TEXT)?;
    out.extend_from_slice(tail2::TEXT)?;
    Ok(())
}
