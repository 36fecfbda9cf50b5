//! What a run looks at before it goes on.

ghost use Rattle.std.specs.Prelude.{◌≡◌, ◌+◌};
ghost use Rattle.isa.specs.Machine.{wrap};
ghost use Rattle.flow_model.specs.declared.Loc.TheVariants.{Mem};
ghost use Rattle.decision_find.specs.Decisions.{fetched_from};
ghost use Rattle.decision_find.specs.Looks.{look_at_step};

use flow_model::{Loc, StepSeen};
use isa::{CallKind, Instr};

/// One look of a run at its program: after so many steps, at this pc, it finds this instruction, if the four bytes there
/// stand for one, and a call would be of this kind.
#[derive(Clone, Copy)]
pub struct Look {
    pub time: u64,
    pub pc: u32,
    pub instr: Option<Instr>,
    pub kind: CallKind,
}

impl Look {
    /// The look before a step, which is made at this pc. The kind matters only where the step is a call.
    #[inline(always)]
    pub fn before(pc: u32, step: &StepSeen) -> Look
        ensures { result ≡ look_at_step pc step.now }
    {
        let kind = match &step.call {
            None => CallKind::Other,
            Some(call) => call.kind,
        };
        Look {
            time: step.number,
            pc,
            instr: Some(step.instr),
            kind,
        }
    }

    /// The four bytes of the instruction, round the end of memory.
    #[inline(always)]
    pub fn bytes(&self) -> [Loc; 4]
        ensures { result ≡ fetched_from self.now.pc }
    {
        [self.byte(0), self.byte(1), self.byte(2), self.byte(3)]
    }

    /// One of these bytes.
    #[inline(always)]
    fn byte(&self, number: u32) -> Loc
        ensures { result ≡ Mem (wrap (self.now.pc + number)) }
    {
        Loc::Mem {
            place: self.pc.wrapping_add(number),
        }
    }
}
