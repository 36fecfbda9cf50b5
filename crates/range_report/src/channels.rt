//! Bytes by channel.

ghost use Rattle.std.specs.Prelude.{◌≡◌, ◌++◌, ◌<◌, ℕ, [], length, get_or, slice_set, slice_index, IfOk, OnOk};
ghost use Rattle.std.specs.List.{slice_range};

use no_memory::NoMemory;
use std::alloc::Global;
use std::marker::Model;

/// How many channels the byte that numbers one tells apart.
const COUNT: usize = 256;

/// The bytes of each channel.
#[derive(Drop)]
pub struct Channels {
    bytes: Vec<Vec<u8>>,
}

impl Model for Channels {
    ghost use Rattle.std.specs.Prelude.{ℕ, List, map};

    ghost Value = { List (List ℕ) };

    ghost view = { λ c. map (λ bytes. bytes.items) c.bytes.items };
}

impl Channels {
    /// Channels with no bytes.
    pub fn new(alloc: Global) -> Result<Channels, NoMemory>
        ensures count { IfOk result (λ channels. length channels ≡ 256) }
        ensures empty { IfOk result (λ channels. (channel : ℕ) → get_or channels channel [] ≡ []) }
    {
        let mut bytes = Vec::with_capacity(alloc, COUNT)?;
        for _channel in 0..COUNT {
            bytes.push(Vec::new(alloc))?;
        }
        Ok(Channels { bytes })
    }

    /// Adds bytes to those of a channel; none where there is no such channel.
    pub fn add(&mut self, channel: u32, bytes: &[u8]) -> Result<(), NoMemory>
        ensures { OnOk result
            (self.new ≡ slice_set self.old channel (get_or self.old channel [] ++ bytes.now)) }
    {
        let place = channel as usize;
        if place < self.bytes.len() {
            self.bytes[place].extend_from_slice(bytes)?;
        }
        Ok(())
    }

    /// The bytes of a channel.
    pub fn of(&self, channel: u8) -> &[u8]
        requires { channel < length self.now }
        ensures { result.now ≡ get_or self.now channel [] }
    {
        self.bytes[channel as usize].as_slice()
    }
}

/// The bytes from one offset up to another, as far as there are any.
pub fn part(bytes: &[u8], from: u64, past: u64) -> &[u8]
    ensures { result.now ≡ slice_range bytes.now from past }
{
    let end = bytes.len().min(past as usize);
    let start = end.min(from as usize);
    &bytes[start..end]
}

/// The byte at an offset; 0 where there is none.
pub fn byte_at(bytes: &[u8], offset: u64) -> u8
    ensures { result ≡ slice_index bytes.now offset }
{
    bytes.get(offset as usize).copied().unwrap_or(0)
}
