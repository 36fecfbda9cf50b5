//! The state of a machine, taken out and put back.

ghost use Rattle.std.specs.Prelude.{◌≡◌, false, length, IfOk};
ghost use Rattle.rv_machine.specs.Hart.{running};
ghost use Rattle.rv_machine.specs.Saved.{rest_of, put_together};

use crate::decoded::DecodedWords;
use crate::hart::Machine;
use crate::state::HartState;
use no_memory::NoMemory;
use std::alloc::Global;
use std::marker::Model;

/// All that a machine is, where no call waits: its pc, its registers and its window of memory.
#[derive(Drop)]
pub struct MachineState {
    state: HartState,
}

impl Model for MachineState {
    ghost use Rattle.isa.specs.Machine.{State};

    ghost Value = { State };

    ghost view = { λ m. m.state };
}

/// A state without the bytes of its window.
#[derive(Clone, Copy)]
pub struct Rest {
    pc: u32,
    registers: [u32; 32],
    base: u32,
    size: usize,
}

impl Model for Rest {
    ghost use Rattle.std.specs.Prelude.{◌+◌, ◌^◌, ◌≤◌};
    ghost use Rattle.rv_machine.specs.Saved.{RestOfState};

    ghost Value = { RestOfState };

    ghost view = { λ r. record { pc = r.pc; registers = r.registers; base = r.base; size = r.size } };

    ghost inverse = { λ v. record { pc = v.pc; registers = v.registers; base = v.base; size = v.size } };

    ghost invariant = { λ r. r.base + r.size ≤ 2 ^ 32 };
}

impl Machine {
    /// The state, copied, where no call waits. It gives up with NoMemory alone.
    pub fn export_state(&self, alloc: Global) -> Result<MachineState, NoMemory>
        requires { self.now.waits ≡ false }
        ensures { IfOk result (λ saved. saved ≡ self.now.state) }
    {
        let state = self.state.copied(alloc)?;
        Ok(MachineState { state })
    }

    /// The state, where no call waits. It takes no memory.
    pub fn into_state(self) -> MachineState
        requires { self.waits ≡ false }
        ensures { result ≡ self.state }
    {
        MachineState { state: self.state }
    }

    /// The bytes of the window, lent, and all else, where no call waits. It takes no memory.
    pub fn parts(&self) -> (&[u8], Rest)
        requires { self.now.waits ≡ false }
        ensures again { put_together result.0.now result.1 ≡ self.now.state }
        ensures size { length result.0.now ≡ result.1.size }
    {
        let rest = Rest {
            pc: self.state.pc,
            registers: self.state.registers,
            base: self.state.base,
            size: self.state.memory.len(),
        };
        (self.state.memory.as_slice(), rest)
    }

    /// A machine in this state, in which no call waits. It takes no memory.
    pub fn import_state(state: MachineState) -> Machine
        ensures { result ≡ running state }
    {
        let state = state.state;
        let alloc = *state.memory.allocator();
        Machine {
            state,
            waits: false,
            decoded: DecodedWords::none(alloc),
        }
    }
}

impl Rest {
    /// The lowest address of the window.
    pub fn base(&self) -> u32
        ensures { result ≡ self.now.base }
    {
        self.base
    }
}

impl MachineState {
    /// The bytes of the window, and all else, which [`MachineState::whole`] puts together again. It takes no memory.
    pub fn apart(self) -> (Vec<u8>, Rest)
        ensures bytes { result.0.items ≡ self.memory }
        ensures rest { result.1 ≡ rest_of self }
        ensures again { put_together result.0.items result.1 ≡ self }
    {
        let HartState {
            pc,
            registers,
            base,
            memory,
        } = self.state;
        let size = memory.len();
        let rest = Rest {
            pc,
            registers,
            base,
            size,
        };
        (memory, rest)
    }

    /// The state whose window has these bytes, as many as it had, and all else as in the rest. It takes no memory.
    pub fn whole(bytes: Vec<u8>, rest: Rest) -> MachineState
        requires { length bytes.items ≡ rest.size }
        ensures { result ≡ put_together bytes.items rest }
    {
        let registers = rest.registers;
        let state = HartState {
            pc: rest.pc,
            registers,
            base: rest.base,
            memory: bytes,
        };
        MachineState { state }
    }
}
