//! The names of source bytes, one after another.

ghost use Rattle.std.specs.Prelude.{◌≡◌, ◌+◌, ◌%◌, ◌^◌, ◌<◌, ◌≤◌, IsTrue, length, take};
ghost use Rattle.report_model.specs.Text.{source_text};
ghost use Rattle.printed_names.specs.Next.{IsNextDigit};

use crate::name::Name;
use flow_model::SourceByte;
use std::marker::Model;

/// So many bytes are copied for a name, which has fewer: a copy of a fixed length is no call.
pub(crate) const COPIED: usize = 16;

/// A source byte with its name, as it stands in a row: after a blank. It takes no memory.
#[derive(Drop)]
pub struct SourceName {
    source: SourceByte,
    // The name after its blank, and then bytes that mean nothing.
    bytes: [u8; COPIED],
    len: usize,
}

impl Model for SourceName {
    ghost use Rattle.std.specs.Prelude.{◌≡◌, ◌<◌, ◌≤◌, ◌^◌, take};
    ghost use Rattle.flow_model.specs.declared.SourceByte.{SourceByte};
    ghost use Rattle.report_model.specs.Text.{source_text};

    ghost Value = { SourceByte };

    ghost view = { λ n. n.source };

    ghost invariant = { λ n. (take n.len n.bytes ≡ source_text n.source) × (n.source.offset < 2 ^ 32) × (n.len ≤ 15) };
}

/// Whether the name of a source byte is that of another but for the last digit.
fn differs_in_last_digit(next: SourceByte, last: SourceByte) -> bool
    ensures { IsTrue result → IsNextDigit last next }
{
    next.channel == last.channel && next.offset % 10 != 0 && next.offset - 1 == last.offset
}

impl SourceName {
    /// The name of a source byte.
    pub fn new(source: SourceByte) -> SourceName
        ensures { result ≡ source }
    {
        let mut text = Name::new();
        text.push(b" ");
        text.push_number(source.channel);
        text.push(b":");
        text.push_number(source.offset);
        let text = text.as_bytes();
        let mut bytes = [0; COPIED];
        bytes[..text.len()].copy_from_slice(text);
        SourceName {
            source,
            bytes,
            len: text.len(),
        }
    }

    /// Goes to another source byte, whose name is written whole.
    #[inline(never)]
    fn write_whole(&mut self, source: SourceByte)
        ensures { self.new ≡ source }
    {
        *self = SourceName::new(source);
    }

    /// Goes to another source byte. Where that is the next one, mostly the last digit alone is written.
    #[inline(always)]
    pub fn go_to(&mut self, source: SourceByte)
        ensures { self.new ≡ source }
    {
        if differs_in_last_digit(source, self.source) {
            self.bytes[self.len - 1] = b'0' + (source.offset % 10) as u8;
            self.source = source;
        } else {
            self.write_whole(source);
        }
    }

    /// The blank and the name.
    pub fn as_bytes(&self) -> &[u8]
        ensures { result.now ≡ source_text self.now }
    {
        &self.bytes[..self.len]
    }

    /// How many bytes the blank and the name have.
    pub(crate) fn len(&self) -> usize
        ensures value { result ≡ length (source_text self.now) }
        ensures short { result ≤ 15 }
        ensures offset { self.now.offset < 2 ^ 32 }
    {
        self.len
    }

    /// The blank and the name, and then bytes that mean nothing: sixteen in all.
    pub(crate) fn padded(&self) -> &[u8]
        ensures sixteen { length result.now ≡ 16 }
        ensures begins { take (length (source_text self.now)) result.now ≡ source_text self.now }
    {
        &self.bytes
    }
}
