//! The names that texts print of bytes, locations, points and places in the code, and bytes as a quoted text.
//!
//! Crates above rest on this: each function that appends gives what the definitions say (`report_model`'s names, and
//! `pc_text`, `quoted_text` and `lines_end` here), and fails only where there is no memory. A [`Name`] is such a name by
//! itself, a [`SourceName`] that of one source byte after another, and a [`RowText`] is the text of rows, as it grows.
//! They take no memory.
#![tactic(auto)]

ghost use Rattle.std.specs.Prelude.{◌≡◌, ◌++◌, OnOk};
ghost use Rattle.report_model.specs.Text.{name_text, loc_text, point_text};
ghost use Rattle.printed_names.specs.Places.{pc_text};
ghost use Rattle.printed_names.specs.Lines.{lines_end};

mod name;
mod quoted;
mod row_text;
mod source_name;

use flow_model::{Loc, SinkPoint};
use itoa::Buffer;
pub use name::{Name, byte_name, location_name, point_name, wide_byte_name};
use no_memory::NoMemory;
pub use quoted::push_quoted;
pub use row_text::{MOST_NAMES, RowText};
pub use source_name::SourceName;

/// Appends `c:o`, the byte of offset o on channel c.
pub fn push_byte(out: &mut Vec<u8>, channel: u8, offset: u32) -> Result<(), NoMemory>
    ensures { OnOk result (out.new.items ≡ out.old.items ++ name_text channel offset) }
{
    Ok(out.extend_from_slice(byte_name(channel, offset).as_bytes())?)
}

/// The same, of whatever channel and offset.
pub fn push_wide_byte(out: &mut Vec<u8>, channel: u32, offset: u64) -> Result<(), NoMemory>
    ensures { OnOk result (out.new.items ≡ out.old.items ++ name_text channel offset) }
{
    Ok(out.extend_from_slice(wide_byte_name(channel, offset).as_bytes())?)
}

/// Appends `r:R.i` of lane i of register R, `m:A` of address A.
pub fn push_location(out: &mut Vec<u8>, loc: Loc) -> Result<(), NoMemory>
    ensures { OnOk result (out.new.items ≡ out.old.items ++ loc_text loc) }
{
    Ok(out.extend_from_slice(location_name(loc).as_bytes())?)
}

/// Appends `c:o` of an output byte; the location and `@T` of a point at time T.
pub fn push_point(out: &mut Vec<u8>, point: SinkPoint) -> Result<(), NoMemory>
    ensures { OnOk result (out.new.items ≡ out.old.items ++ point_text point) }
{
    Ok(out.extend_from_slice(point_name(point).as_bytes())?)
}

/// Appends a pc: `0x` and eight hexadecimal digits in lower case.
pub fn push_pc(out: &mut Vec<u8>, pc: u32) -> Result<(), NoMemory>
    ensures { OnOk result (out.new.items ≡ out.old.items ++ pc_text pc) }
{
    let mut digits = [0; 8];
    let bytes = pc.to_be_bytes();
    let _ = hex::encode_to_slice(bytes.as_slice(), &mut digits);
    out.extend_from_slice(b"0x")?;
    out.extend_from_slice(&digits)?;
    Ok(())
}

/// Appends `end N`, the last line of a text with so many lines before it, and a line feed.
pub fn push_lines_end(out: &mut Vec<u8>, lines: u64) -> Result<(), NoMemory>
    ensures { OnOk result (out.new.items ≡ out.old.items ++ lines_end lines) }
{
    let mut buffer = Buffer::new();
    out.extend_from_slice(b"end ")?;
    out.extend_from_slice(buffer.format(lines).as_bytes())?;
    out.push(b'\n')?;
    Ok(())
}
