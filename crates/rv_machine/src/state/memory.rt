//! The window of memory.

ghost use Rattle.std.specs.Prelude.{◌≡◌, ℕ, ◌+◌, ◌-◌, ◌^◌, ◌<◌, ◌≤◌, ◌⊎◌, length, IsTrue};
ghost use Rattle.isa.specs.Machine.{in_window, bytes_at, little_endian, overwritten, low_bytes, extended};
ghost use Rattle.rv_machine.specs.Effects.{window_of};

use super::HartState;

/// The number that one, two or four bytes stand for, the lowest first.
fn little_endian_of(part: &[u8]) -> u32
    requires { (length part.now ≡ 1) ⊎ (length part.now ≡ 2) ⊎ (length part.now ≡ 4) }
    ensures is { result ≡ little_endian part.now }
    ensures byte { length part.now ≡ 1 → result < 2 ^ 8 }
    ensures half { length part.now ≡ 2 → result < 2 ^ 16 }
{
    match part {
        [a] => u32::from(*a),
        [a, b] => u32::from(u16::from_le_bytes([*a, *b])),
        [a, b, c, d] => u32::from_le_bytes([*a, *b, *c, *d]),
        _ => unreachable!(),
    }
}

/// A number of some bytes with its sign spread over the word.
pub fn extended(value: u32, size: u8, signed: bool) -> u32
    requires sizes { IsTrue signed → (size ≡ 1) ⊎ (size ≡ 2) }
    requires byte { size ≡ 1 → value < 2 ^ 8 }
    requires half { size ≡ 2 → value < 2 ^ 16 }
    ensures { result ≡ extended signed size value }
{
    if !signed {
        value
    } else if size == 1 {
        if value < 0x80 {
            value
        } else {
            value + 0xffff_ff00
        }
    } else if value < 0x8000 {
        value
    } else {
        value + 0xffff_0000
    }
}

/// Whether the `size` bytes from an address on are all in a window. An address below the base wraps to one that is past the
/// window's end.
#[inline(always)]
pub fn in_window(memory: &[u8], base: u32, address: u32, size: u32) -> bool
    requires in_space { base + length memory.now ≤ 2 ^ 32 }
    requires some { 0 < size }
    ensures { result ≡ in_window (window_of base memory.now) address size }
{
    let start = address.wrapping_sub(base);
    u64::from(start) + u64::from(size) <= memory.len() as u64
}

/// The `size` bytes from an address on.
#[inline(always)]
fn part(memory: &[u8], base: u32, address: u32, size: u32) -> &[u8]
    requires { IsTrue (in_window (window_of base memory.now) address size) }
    ensures is { result.now ≡ bytes_at (window_of base memory.now) address size }
    ensures len { length result.now ≡ size }
{
    let start = (address - base) as usize;
    &memory[start..start + size as usize]
}

/// The number in one, two or four bytes of memory.
#[inline(always)]
pub fn load(memory: &[u8], base: u32, address: u32, size: u32) -> u32
    requires inside { IsTrue (in_window (window_of base memory.now) address size) }
    requires sizes { (size ≡ 1) ⊎ (size ≡ 2) ⊎ (size ≡ 4) }
    ensures is { result ≡ little_endian (bytes_at (window_of base memory.now) address size) }
    ensures byte { size ≡ 1 → result < 2 ^ 8 }
    ensures half { size ≡ 2 → result < 2 ^ 16 }
{
    little_endian_of(part(memory, base, address, size))
}

/// Bytes go to memory from an address on.
#[inline(always)]
fn store(memory: &mut [u8], base: u32, address: u32, bytes: &[u8])
    requires { IsTrue (in_window (window_of base memory.old) address (length bytes.now)) }
    ensures { memory.new ≡ overwritten memory.old (address - base) bytes.now }
{
    let start = (address - base) as usize;
    memory[start..start + bytes.len()].copy_from_slice(bytes);
}

/// The `size` lowest bytes of a word go to memory. Each size is copied by itself, since a copy of any length is a call.
#[inline(always)]
pub fn store_low(memory: &mut [u8], base: u32, address: u32, value: u32, size: u8)
    requires inside { IsTrue (in_window (window_of base memory.old) address size) }
    requires sizes { (size ≡ 1) ⊎ (size ≡ 2) ⊎ (size ≡ 4) }
    ensures { memory.new ≡ overwritten memory.old (address - base) (low_bytes size value) }
{
    let bytes = value.to_le_bytes();
    match size {
        1 => store(memory, base, address, &bytes[..1]),
        2 => store(memory, base, address, &bytes[..2]),
        _ => store(memory, base, address, &bytes),
    }
}

impl HartState {
    /// Whether the `size` bytes from an address on are all in the window.
    pub fn in_window(&self, address: u32, size: u32) -> bool
        requires { 0 < size }
        ensures { result ≡ in_window self.now address size }
    {
        in_window(self.memory.as_slice(), self.base, address, size)
    }

    /// The `size` bytes from an address on.
    pub fn part(&self, address: u32, size: u32) -> &[u8]
        requires { IsTrue (in_window self.now address size) }
        ensures { result.now ≡ bytes_at self.now address size }
    {
        part(self.memory.as_slice(), self.base, address, size)
    }

    /// The number in the four bytes at the pc.
    pub fn fetched(&self) -> u32
        requires { IsTrue (in_window self.now self.now.pc 4) }
        ensures { result ≡ little_endian (bytes_at self.now self.now.pc 4) }
    {
        load(self.memory.as_slice(), self.base, self.pc, 4)
    }

    /// Bytes go to memory from an address on.
    pub fn store(&mut self, address: u32, bytes: &[u8])
        requires { IsTrue (in_window self.old address (length bytes.now)) }
        ensures { self.new ≡ record self.old {
          memory = overwritten self.old.memory
              (address - self.old.base) bytes.now;
        } }
    {
        store(self.memory.as_mut_slice(), self.base, address, bytes);
    }
}
