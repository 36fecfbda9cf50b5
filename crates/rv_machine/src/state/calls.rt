//! Guest calls: what a call is, whether it is refused, and the state after it.

ghost use Rattle.std.specs.Prelude.{◌≡◌, ℕ, ◌+◌, ◌-◌, ◌<◌, length, IsTrue};
ghost use Rattle.isa.specs.Machine.{in_window, reg, call_of, kind_of, overwritten};
ghost use Rattle.isa.specs.Calls.{refusal_of, refusal, after_read, after_write, after_clock, after_other};

use super::HartState;
use isa::{Call, CallKind};

/// There is no such channel.
const BAD_CHANNEL: i32 = -9;

/// The buffer isn't wholly in the window.
const BAD_BUFFER: i32 = -14;

/// There is no such call.
const NO_SUCH_CALL: i32 = -38;

/// Guests write on the channels below this one.
const WRITE_CHANNELS: u32 = 16;

fn kind_of(number: u32) -> CallKind
    ensures { result ≡ kind_of number }
{
    match number {
        63 => CallKind::Read,
        64 => CallKind::Write,
        93 => CallKind::Exit,
        2000 => CallKind::Clock,
        _ => CallKind::Other,
    }
}

impl HartState {
    /// The call that the registers say.
    pub fn call(&self) -> Call
        ensures { result ≡ call_of self.now }
    {
        let number = self.registers[17];
        Call {
            kind: kind_of(number),
            number,
            args: [self.registers[10], self.registers[11], self.registers[12]],
        }
    }

    fn refusal_of(&self, channels: u32, args: &[u32; 3]) -> i32
        ensures { result ≡ refusal_of self.now channels args.now }
    {
        let [channel, buffer, size] = *args;
        if channel >= channels {
            BAD_CHANNEL
        } else if size == 0 || self.in_window(buffer, size) {
            0
        } else {
            BAD_BUFFER
        }
    }

    /// The error number of a refused call, or 0.
    pub fn refusal(&self, call: &Call, inputs: u32) -> i32
        ensures { result ≡ refusal self.now inputs call.now }
    {
        match call.kind {
            CallKind::Read => self.refusal_of(inputs, &call.args),
            CallKind::Write => self.refusal_of(WRITE_CHANNELS, &call.args),
            CallKind::Clock => 0,
            CallKind::Other => 0,
            CallKind::Exit => 0,
        }
    }

    pub fn after_read(&mut self, outcome: i32, bytes: &[u8])
        requires { 0 < length bytes.now → IsTrue (in_window self.old (reg self.old 11) (length bytes.now)) }
        ensures { self.new ≡ after_read self.old (reg self.old 11) outcome bytes.now }
    {
        self.store_if_any(self.registers[11], bytes);
        self.set(10, outcome.cast_unsigned());
    }

    /// Bytes go to memory from an address on, which counts only where there are some.
    fn store_if_any(&mut self, address: u32, bytes: &[u8])
        requires { 0 < length bytes.now → IsTrue (in_window self.old address (length bytes.now)) }
        ensures { self.new ≡ record self.old {
          memory = overwritten self.old.memory
              (address - self.old.base) bytes.now;
        } }
    {
        if !bytes.is_empty() {
            self.store(address, bytes);
        }
    }

    pub fn after_write(&mut self, outcome: i32)
        ensures { self.new ≡ after_write self.old outcome }
    {
        self.set(10, outcome.cast_unsigned());
    }

    pub fn after_clock(&mut self, value: u64)
        ensures { self.new ≡ after_clock self.old value }
    {
        self.registers[10] = (value % (1 << 32)) as u32;
        self.set(11, (value >> 32) as u32);
    }

    pub fn after_other(&mut self)
        ensures { self.new ≡ after_other self.old }
    {
        self.set(10, NO_SUCH_CALL.cast_unsigned());
    }
}
