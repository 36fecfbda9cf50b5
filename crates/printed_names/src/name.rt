//! Names in buffers of their own.

ghost use Rattle.std.specs.Prelude.{◌≡◌, ℕ, List, ◌+◌, ◌<◌, ◌≤◌, [], ◌∷◌, ◌++◌, length, codes};
ghost use Rattle.flow_model.specs.declared.SinkPoint.TheVariants.{At};
ghost use Rattle.report_model.specs.Text.{name_text, loc_text, point_text};

use arrayvec::ArrayVec;
use flow_model::{InnerSink, Loc, SinkPoint};
use itoa::{Buffer, Integer};
use std::marker::Model;

/// A name of at most 40 bytes. It is made without memory.
#[derive(Drop)]
pub struct Name {
    bytes: ArrayVec<u8, 40>,
}

impl Model for Name {
    ghost use Rattle.std.specs.Prelude.{List, ℕ};

    ghost Value = { List ℕ };

    ghost view = { λ n. n.bytes.items };
}

impl Name {
    /// A name that is still empty.
    pub(crate) fn new() -> Name
        ensures { result ≡ [] }
    {
        Name {
            bytes: ArrayVec::new(),
        }
    }

    /// The bytes of the name.
    pub fn as_bytes(&self) -> &[u8]
        ensures { result.now ≡ self.now }
    {
        self.bytes.as_slice()
    }

    /// Appends bytes, for which there must be room.
    pub(crate) fn push(&mut self, bytes: &[u8])
        requires { length self.old + length bytes.now ≤ 40 }
        ensures { self.new ≡ self.old ++ bytes.now }
    {
        let _ = self.bytes.try_extend_from_slice(bytes);
    }

    /// Appends a number in decimal. There must be room for the longest number of its type.
    pub(crate) fn push_number<I: Integer>(&mut self, number: I)
        requires { length self.old + I.MAX_STR_LEN ≤ 40 }
        ensures text { self.new ≡ self.old ++ I.text number }
        ensures short { length self.new ≤ length self.old + I.MAX_STR_LEN }
    {
        let mut buffer = Buffer::new();
        self.push(buffer.format(number).as_bytes());
    }
}

/// `c:o`, the byte of offset o on channel c.
pub fn byte_name(channel: u8, offset: u32) -> Name
    ensures { result ≡ name_text channel offset }
{
    let mut name = Name::new();
    name.push_number(channel);
    name.push(b":");
    name.push_number(offset);
    name
}

/// The same, of whatever channel and offset.
pub fn wide_byte_name(channel: u32, offset: u64) -> Name
    ensures { result ≡ name_text channel offset }
{
    let mut name = Name::new();
    name.push_number(channel);
    name.push(b":");
    name.push_number(offset);
    name
}

/// `r:R.i` of lane i of register R, `m:A` of address A.
pub fn location_name(loc: Loc) -> Name
    ensures text { result ≡ loc_text loc }
    ensures short { length result ≤ 12 }
{
    let mut name = Name::new();
    match loc {
        Loc::Reg { number, lane } => {
            name.push(b"r:");
            name.push_number(number);
            name.push(b".");
            name.push_number(lane);
        }
        Loc::Mem { place } => {
            name.push(b"m:");
            name.push_number(place);
        }
    }
    name
}

/// The location and `@T` of a point at time T.
pub(crate) fn inner_name(inner: InnerSink) -> Name
    ensures text { result ≡ point_text (At inner) }
    ensures short { length result ≤ 33 }
{
    let mut name = location_name(inner.loc);
    name.push(b"@");
    name.push_number(inner.time);
    name
}

/// `c:o` of an output byte; the location and `@T` of a point at time T.
pub fn point_name(point: SinkPoint) -> Name
    ensures { result ≡ point_text point }
{
    match point {
        SinkPoint::Out(byte) => byte_name(byte.channel, byte.offset),
        SinkPoint::At(inner) => inner_name(inner),
    }
}
