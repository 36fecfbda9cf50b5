//! A line of text in a fixed buffer.

ghost use Rattle.std.specs.Prelude.{◌≡◌, ◌+◌, ◌≤◌, [], ◌++◌, length};
ghost use Rattle.hex.specs.Hex.{encode_lower};

use arrayvec::ArrayVec;
use itoa::{Buffer, Integer};
use std::marker::Model;

/// A line for standard error, of at most 256 bytes, its line feed among them.
#[derive(Drop)]
pub struct Line {
    bytes: ArrayVec<u8, 256>,
}

impl Model for Line {
    ghost use Rattle.std.specs.Prelude.{List, ℕ};

    ghost Value = { List ℕ };

    ghost view = { λ l. l.bytes.items };
}

impl Line {
    /// A line that is still empty.
    pub(crate) fn new() -> Line
        ensures { result ≡ [] }
    {
        Line {
            bytes: ArrayVec::new(),
        }
    }

    /// The bytes of the line.
    pub fn as_bytes(&self) -> &[u8]
        ensures { result.now ≡ self.now }
    {
        self.bytes.as_slice()
    }

    /// Appends bytes, for which there must be room.
    pub(crate) fn push(&mut self, bytes: &[u8])
        requires { length self.old + length bytes.now ≤ 256 }
        ensures { self.new ≡ self.old ++ bytes.now }
    {
        let _ = self.bytes.try_extend_from_slice(bytes);
    }

    /// Appends a text, for which there must be room.
    pub(crate) fn push_str(&mut self, text: &str)
        requires { length self.old + length text.now ≤ 256 }
        ensures { self.new ≡ self.old ++ text.now }
    {
        self.push(text.as_bytes());
    }

    /// Appends a number in decimal. There must be room for 40 bytes.
    pub(crate) fn push_number<I: Integer>(&mut self, number: I)
        requires { length self.old + 40 ≤ 256 }
        ensures text { self.new ≡ self.old ++ I.text number }
        ensures short { length self.new ≤ length self.old + 40 }
    {
        let mut buffer = Buffer::new();
        self.push(buffer.format(number).as_bytes());
    }

    /// Appends a digest as 64 hexadecimal digits in lower case, for which there must be room.
    pub(crate) fn push_digest(&mut self, digest: &[u8; 32])
        requires { length self.old + 64 ≤ 256 }
        ensures text { self.new ≡ self.old ++ encode_lower digest.now }
        ensures short { length self.new ≡ length self.old + 64 }
    {
        let mut digits = [0; 64];
        let _ = hex::encode_to_slice(digest.as_slice(), &mut digits);
        self.push(&digits);
    }
}
