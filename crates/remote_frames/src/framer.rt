//! Frames as they are read, a byte at a time.

ghost use Rattle.std.specs.Prelude.{◌≡◌, ◌≢◌, ℕ, List, [], ◌∷◌, ◌++◌, IfOk, OnOk, OnErr};
ghost use Rattle.hex.specs.Hex.{hex_digit_value};
ghost use Rattle.remote_frames.specs.Frames.{heard, judged};
ghost use Rattle.remote_frames.specs.Reading.{begun, told, with_byte};

use crate::digit::value_of;
use no_memory::NoMemory;
use std::alloc::Global;
use std::marker::Model;

/// How many bytes a packet has at most.
pub const LONGEST_PACKET: usize = 16384;

/// What the last byte brought.
#[derive(Clone, Copy)]
pub enum Framed {
    /// Nothing.
    Nothing,
    /// A packet, whose bytes [`Framer::packet`] lends.
    Packet,
    /// A frame that is bad: its checksum is wrong, one of its digits is none, or its packet is longer than
    /// [`LONGEST_PACKET`].
    Bad,
    /// That the last answer is wanted again: `-` outside of frames.
    Again,
}

/// Where the next byte stands.
#[derive(Clone, Copy)]
enum Place {
    /// Outside of frames.
    Outside,
    /// In the packet.
    Inside,
    /// Behind the `#`.
    FirstDigit,
    /// Behind this byte, which is the first digit.
    SecondDigit(u8),
}

/// A reader of frames. It keeps the frame that has begun: up to one byte more than a packet may have.
#[derive(Drop)]
pub struct Framer {
    place: Place,
    packet: Vec<u8>,
    total: u8,
}

impl Model for Framer {
    ghost use Rattle.remote_frames.specs.Reading.{FramerAt, IsFramer};

    ghost Value = { FramerAt };

    ghost view = { λ f. record { place = f.place; packet = f.packet.items } };

    ghost invariant = { λ f. IsFramer f.place f.packet.items f.total };
}

impl Framer {
    /// A reader that has read nothing.
    pub fn new(alloc: Global) -> Framer
        ensures { begun result ≡ [] }
    {
        Framer {
            place: Place::Outside,
            packet: Vec::new(alloc),
            total: 0,
        }
    }

    /// The bytes of the packet that was read last, until the next frame begins.
    pub fn packet(&self) -> &[u8]
        ensures { result.now ≡ self.now.packet }
    {
        self.packet.as_slice()
    }

    /// A frame that has begun says nothing until it is whole.
    pub fn form(&self)
        ensures { heard (begun self.now) ≡ [] }
    {
        // what is known of the field is known from its first use on
        let _place = &self.place;
    }

    /// A `$` begins a frame, and breaks off the one that had begun.
    fn begin(&mut self)
        ensures { (after : List ℕ) → heard (begun self.old ++ 0x24 ∷ after) ≡ heard (begun self.new ++ after) }
    {
        self.place = Place::Inside;
        self.packet.clear();
        self.total = 0;
    }

    /// A byte of the packet. Of a packet that is too long one byte more than the most is kept.
    fn add(&mut self, byte: u8) -> Result<(), NoMemory>
        requires no_dollar { byte ≢ 0x24 }
        requires no_hash { byte ≢ 0x23 }
        ensures ok { OnOk result (self.new ≡ with_byte self.old byte) }
        ensures err { OnErr result (self.new ≡ self.old) }
    {
        if self.packet.len() <= LONGEST_PACKET {
            self.packet.push(byte)?;
            self.total = self.total.wrapping_add(byte);
        }
        Ok(())
    }

    /// What the frame is whose digits these are.
    fn ended(&self, high: u8, low: u8) -> Framed
        ensures { told result self.now.packet
            ≡ judged self.now.packet (hex_digit_value high) (hex_digit_value low) ∷ [] }
    {
        let Some(high) = value_of(high) else {
            return Framed::Bad;
        };
        let Some(low) = value_of(low) else {
            return Framed::Bad;
        };
        if high * 16 + low == self.total && self.packet.len() <= LONGEST_PACKET {
            Framed::Packet
        } else {
            Framed::Bad
        }
    }

    /// Reads the next byte, and answers what it brings. What the answers tell is what all bytes say: the frame that
    /// had begun, with this byte and whatever follows, says what is told now, and then what the frame that has begun
    /// now says with what follows. It gives up with NoMemory alone, and then nothing was read.
    pub fn read(&mut self, byte: u8) -> Result<Framed, NoMemory>
        ensures heard { IfOk result (λ framed. (after : List ℕ)
            → heard (begun self.old ++ byte ∷ after) ≡ told framed self.new.packet ++ heard (begun self.new ++ after)) }
        ensures err { OnErr result (self.new ≡ self.old) }
    {
        if byte == b'$' {
            self.begin();
            return Ok(Framed::Nothing);
        }
        match self.place {
            Place::Outside => {
                if byte == b'-' {
                    return Ok(Framed::Again);
                }
                Ok(Framed::Nothing)
            }
            Place::Inside => {
                if byte == b'#' {
                    self.place = Place::FirstDigit;
                    return Ok(Framed::Nothing);
                }
                self.add(byte)?;
                Ok(Framed::Nothing)
            }
            Place::FirstDigit => {
                self.place = Place::SecondDigit(byte);
                Ok(Framed::Nothing)
            }
            Place::SecondDigit(high) => {
                self.place = Place::Outside;
                Ok(self.ended(high, byte))
            }
        }
    }
}
