//! The text of rows, as it grows.

ghost use Rattle.std.specs.Prelude.{◌≡◌, ◌+◌, ◌-◌, ◌<◌, ◌≤◌, ◌^◌, [], ◌∷◌, ◌++◌, IsTrue, length, take};
ghost use Rattle.std.specs.List.{flat_map, range_with_len};
ghost use Rattle.report_model.specs.Text.{name_text, point_text, source_text};
ghost use Rattle.printed_names.specs.Room.{HasRoom};
ghost use Rattle.printed_names.specs.Tens.{bytes_from, ten_bytes, with_digit};

use crate::name::inner_name;
use crate::source_name::{COPIED, SourceName};
use flow_model::{SinkPoint, SourceByte};
use std::marker::Model;

/// So many names have room in one push.
pub const MOST_NAMES: u64 = 20;

const ROOM: usize = 1024;

/// So many bytes may stand before a push, which adds fewer than 320.
const MOST_BEFORE: usize = 704;

/// The text of rows, as it grows: points, source bytes after a blank each, and line feeds. It takes no memory.
#[derive(Drop)]
pub struct RowText {
    // The output byte that was named last, as a source byte.
    output: SourceName,
    // The source byte that was named last; of ten what they share.
    source: SourceName,
    // The text, and then bytes that mean nothing.
    bytes: [u8; ROOM],
    filled: usize,
}

impl Model for RowText {
    ghost use Rattle.std.specs.Prelude.{◌≤◌, List, ℕ, take};

    ghost Value = { List ℕ };

    ghost view = { λ t. take t.filled t.bytes };

    ghost invariant = { λ t. t.filled ≤ 1024 };
}

impl RowText {
    /// No text yet.
    pub fn new() -> RowText
        ensures { result ≡ [] }
    {
        let none = SourceByte {
            channel: 0,
            offset: 0,
        };
        RowText {
            output: SourceName::new(none),
            source: SourceName::new(none),
            bytes: [0; ROOM],
            filled: 0,
        }
    }

    /// Whether there is room for a push.
    #[inline(always)]
    pub fn has_room(&self) -> bool
        ensures { IsTrue result → HasRoom self.now }
    {
        self.filled <= MOST_BEFORE
    }

    /// Drops the text.
    pub fn clear(&mut self)
        ensures { self.new ≡ [] }
    {
        self.filled = 0;
    }

    /// Appends the name of an output byte or a point. The name of an output byte is mostly that of the last one, counted
    /// on.
    pub fn push_point(&mut self, point: SinkPoint)
        requires { HasRoom self.old }
        ensures { self.new ≡ self.old ++ point_text point }
    {
        match point {
            SinkPoint::Out(byte) => {
                self.output.go_to(SourceByte {
                    channel: byte.channel,
                    offset: byte.offset,
                });
                self.filled = append_unblanked(&mut self.bytes, self.filled, &self.output);
            }
            SinkPoint::At(inner) => {
                self.filled = append(&mut self.bytes, self.filled, inner_name(inner).as_bytes());
            }
        }
    }

    /// Appends a blank and the name of each source byte of a channel from an offset on, up to another: at most
    /// [`MOST_NAMES`].
    pub fn push_names(&mut self, channel: u8, from: u64, past: u64)
        requires room { HasRoom self.old }
        requires few { (from ≤ past) × (past ≤ from + MOST_NAMES) × (past ≤ 2 ^ 32) }
        ensures { self.new ≡ self.old ++ flat_map source_text (bytes_from channel from (past - from)) }
    {
        let filled = self.filled;
        self.filled = append_each(
            &mut self.bytes,
            filled,
            &mut self.source,
            channel,
            from,
            past,
        );
    }

    /// Appends a blank and the name of each of the ten source bytes of a channel whose offsets are these tens, which
    /// aren't 0, and one more digit.
    pub fn push_ten(&mut self, channel: u8, tens: u32)
        requires room { HasRoom self.old }
        requires some { 0 < tens }
        ensures { self.new ≡ self.old ++ flat_map source_text (ten_bytes channel tens) }
    {
        self.source.go_to(SourceByte {
            channel,
            offset: tens,
        });
        self.filled = append_with_digits(&mut self.bytes, self.filled, &self.source);
    }

    /// Appends a line feed.
    pub fn push_line_feed(&mut self)
        requires { HasRoom self.old }
        ensures { self.new ≡ self.old ++ 0x0a ∷ [] }
    {
        self.bytes[self.filled] = b'\n';
        self.filled += 1;
    }

    /// The text.
    pub fn as_bytes(&self) -> &[u8]
        ensures { result.now ≡ self.now }
    {
        &self.bytes[..self.filled]
    }
}

/// Appends a text to the first `filled` bytes, and gives how many these are then.
fn append(bytes: &mut [u8; ROOM], filled: usize, text: &[u8]) -> usize
    requires { filled + length text.now ≤ 1024 }
    ensures fits { result ≤ 1024 }
    ensures text { take result bytes.new ≡ take filled bytes.old ++ text.now }
{
    let past = filled + text.len();
    bytes[filled..past].copy_from_slice(text);
    past
}

/// Appends a name after its blank to the first `filled` bytes, and gives how many these are then.
fn append_name(bytes: &mut [u8; ROOM], filled: usize, name: &SourceName) -> usize
    requires { filled + 16 ≤ 1024 }
    ensures few { result ≤ filled + 15 }
    ensures text { take result bytes.new ≡ take filled bytes.old ++ source_text name.now }
{
    bytes[filled..filled + COPIED].copy_from_slice(name.padded());
    filled + name.len()
}

/// Appends a name without its blank to the first `filled` bytes, and gives how many these are then.
fn append_unblanked(bytes: &mut [u8; ROOM], filled: usize, name: &SourceName) -> usize
    requires { filled + 16 ≤ 1024 }
    ensures fits { result ≤ 1024 }
    ensures text { take result bytes.new ≡ take filled bytes.old ++ name_text name.now.channel name.now.offset }
{
    bytes[filled..filled + COPIED - 1].copy_from_slice(&name.padded()[1..]);
    filled + name.len() - 1
}

/// Appends the names of the source bytes of a channel from an offset on, up to another, to the first `filled` bytes, and
/// gives how many these are then.
fn append_each(
    bytes: &mut [u8; ROOM],
    filled: usize,
    last: &mut SourceName,
    channel: u8,
    from: u64,
    past: u64,
) -> usize
    requires { (filled ≤ 704) × (from ≤ past) × (past ≤ from + MOST_NAMES) × (past ≤ 2 ^ 32) }
    ensures fits { result ≤ 1024 }
    ensures text { take result bytes.new
        ≡ take filled bytes.old ++ flat_map source_text (bytes_from channel from (past - from)) }
{
    let mut end = filled;
    for offset in from..past {
        let offset = offset as u32;
        last.go_to(SourceByte { channel, offset });
        end = append_name(bytes, end, last);
    }
    end
}

/// Appends a name with each of the ten digits behind it, one after another, to the first `filled` bytes, and gives how
/// many these are then.
fn append_with_digits(bytes: &mut [u8; ROOM], filled: usize, stem: &SourceName) -> usize
    requires { filled ≤ 704 }
    ensures fits { result ≤ 1024 }
    ensures text { take result bytes.new
        ≡ take filled bytes.old ++ flat_map (with_digit (source_text stem.now)) (range_with_len 0 10) }
{
    let mut copied = [0; COPIED];
    copied.copy_from_slice(stem.padded());
    let len = stem.len();
    let mut end = filled;
    for digit in 0..10 {
        bytes[end..end + COPIED].copy_from_slice(&copied);
        bytes[end + len] = b'0' + digit;
        end += len + 1;
    }
    end
}
