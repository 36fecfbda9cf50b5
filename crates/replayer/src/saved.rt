//! A cursor taken out of its job, and put back.

ghost use Rattle.std.specs.Prelude.{◌≡◌, length, IfOk, IfSome, MatchOption};
ghost use Rattle.isa.specs.declared.Instr.{Instr as AnyInstr};
ghost use Rattle.isa.specs.Encodings.{Fits};
ghost use Rattle.isa.specs.Machine.{Fetched, fetch};
ghost use Rattle.replayer.specs.Jobs.{Job as JobAt};
ghost use Rattle.replayer.specs.Cursors.{Stands};
ghost use Rattle.replayer.specs.Saved.{IsOfJob, position_of, rest_of, put_together};

use crate::cursor::Cursor;
use crate::job::Job;
use crate::watcher::Position;
use isa::Instr;
use no_memory::NoMemory;
use replay_run::{Counters, Run};
use rv_machine::{Machine, MachineState};
use std::alloc::Global;
use std::marker::Model;

/// All that a cursor is but its job: its machine, the place in the log and the channels' offsets.
#[derive(Drop)]
pub struct CursorState {
    pub(crate) machine: MachineState,
    pub(crate) counters: Counters,
}

impl Model for CursorState {
    ghost use Rattle.replayer.specs.Saved.{SavedCursor};

    ghost Value = { SavedCursor };

    ghost view = { λ s. record { machine = s.machine; counters = s.counters } };
}

/// A cursor's state without the bytes of the machine's window.
#[derive(Clone, Copy)]
pub struct Rest {
    machine: rv_machine::Rest,
    counters: Counters,
}

impl Model for Rest {
    ghost use Rattle.replayer.specs.Saved.{RestOfCursor};

    ghost Value = { RestOfCursor };

    ghost view = { λ r. record { machine = r.machine; counters = r.counters } };

    ghost inverse = { λ v. record { machine = v.machine; counters = v.counters } };
}

impl<'a> Cursor<'a> {
    /// The cursor's state, copied, from which [`Cursor::from`] makes the cursor again. It gives up with NoMemory alone.
    pub fn save(&self, alloc: Global) -> Result<CursorState, NoMemory>
        ensures of_job { IfOk result (λ saved. IsOfJob self.now.job saved) }
        ensures again { IfOk result (λ saved. position_of self.now.job saved ≡ self.now) }
    {
        let counters = self.run.counters();
        let machine = self.run.machine().export_state(alloc)?;
        Ok(CursorState { machine, counters })
    }

    /// The cursor of a state that one of this job's cursors had. It takes no memory.
    pub fn from(job: &'a Job, state: CursorState) -> Cursor<'a>
        requires { IsOfJob job.now state }
        ensures { result ≡ position_of job.now state }
    {
        job.form();
        let CursorState { machine, counters } = state;
        Cursor {
            job,
            run: Run::resume(Machine::import_state(machine), job.log(), counters),
        }
    }
}

impl<'r, 'a> Position<'r, 'a> {
    /// How many steps of the run are done.
    pub fn time(&self) -> u64
        ensures { result ≡ self.now.moment.time }
    {
        self.run.time()
    }

    /// The address of the instruction that the next step does; where all steps are done, the pc in which the run ended.
    pub fn pc(&self) -> u32
        ensures { result ≡ self.now.moment.state.pc }
    {
        self.run.machine().pc()
    }

    /// The instruction at the pc; None where the four bytes there stand for none, or don't all lie in the window.
    pub fn fetched(&self) -> Option<Instr>
        ensures there { MatchOption result
            ((instr : AnyInstr) → fetch self.now.moment.state ≡ Fetched instr → ⊥)
            (λ instr. fetch self.now.moment.state ≡ Fetched instr) }
        ensures fits { IfSome result Fits }
    {
        self.run.machine().fetched()
    }

    /// The bytes of the machine's window, lent, and all else: a cursor's state at this time of each job whose run stands here.
    /// It takes no memory.
    pub fn parts(&self) -> (&'r [u8], Rest)
        ensures of_job { (job : JobAt) → Stands job self.now → IsOfJob job (put_together result.0.now result.1) }
        ensures time { result.1.counters.time ≡ self.now.moment.time }
        ensures size { length result.0.now ≡ result.1.machine.size }
    {
        let counters = self.run.counters();
        let (window, machine) = self.run.machine().parts();
        (window, Rest { machine, counters })
    }
}

impl Rest {
    /// The lowest address of the machine's window.
    pub fn base(&self) -> u32
        ensures { result ≡ self.now.machine.base }
    {
        self.machine.base()
    }

    /// How many steps of the run are done.
    pub fn time(&self) -> u64
        ensures { result ≡ self.now.counters.time }
    {
        self.counters.time()
    }
}

impl CursorState {
    /// The bytes of the machine's window, and all else, which [`CursorState::whole`] puts together again. It takes no
    /// memory.
    pub fn apart(self) -> (Vec<u8>, Rest)
        ensures bytes { result.0.items ≡ self.machine.memory }
        ensures rest { result.1 ≡ rest_of self }
        ensures again { put_together result.0.items result.1 ≡ self }
    {
        let CursorState { machine, counters } = self;
        let (memory, machine) = machine.apart();
        (memory, Rest { machine, counters })
    }

    /// The state whose window has these bytes, as many as it had, and all else as in the rest. It takes no memory.
    pub fn whole(bytes: Vec<u8>, rest: Rest) -> CursorState
        requires { length bytes.items ≡ rest.machine.size }
        ensures { result ≡ put_together bytes.items rest }
    {
        CursorState {
            machine: MachineState::whole(bytes, rest.machine),
            counters: rest.counters,
        }
    }
}
