//! The labels that are kept, and the decisions that are counted, while the steps of a run are told one after another.

ghost use Rattle.std.specs.Prelude.{◌≡◌, ◌∷◌, [], IfOk, OnOk};
ghost use Rattle.flow_model.specs.Ranges.{IsInRange, IsLocation, AreLocations};
ghost use Rattle.replayer.specs.Jobs.{Job as JobOf};
ghost use Rattle.decision_find.specs.Decisions.{decides_fetched};
ghost use Rattle.decision_find.specs.Looks.{looked_at, HasFitting};
ghost use Rattle.decision_find.specs.Following.{IsSound, IsTracked, Notes, IsTurned, TracksStep};
ghost use Rattle.decision_find.specs.Watched.{LooksAtTrap};

use crate::deciding::decisions_of;
use crate::groups::Groups;
use crate::looks::Look;
use crate::rule::deciding_rule;
use flow_model::{Loc, Rule, StepSeen};
use isa::CallKind;
use no_memory::NoMemory;
use query_lang::Query;
use replayer::Position;
use source_labels::SourceLabels;
use std::alloc::Global;
use taint_shadow::{Places, plain_step};

/// What is known of a run after some of its steps: the label of each location, and the decisions so far.
#[derive(Drop)]
pub struct DecisionTracking<'q> {
    query: &'q Query,
    rule: Rule,
    pub(crate) labels: SourceLabels,
    places: Places,
    pub(crate) groups: Groups,
}

impl<'q> DecisionTracking<'q> {
    /// Before the first step of a run.
    pub(crate) fn begin(alloc: Global, query: &'q Query) -> Result<DecisionTracking<'q>, NoMemory>
        ensures sound { IfOk result IsSound }
        ensures tracked { IfOk result (λ t. (job : JobOf) → IsTracked query.now job 0 t) }
    {
        Ok(DecisionTracking {
            query,
            rule: deciding_rule(query.rule()),
            labels: SourceLabels::new(alloc),
            places: Places::new(alloc)?,
            groups: Groups::new(alloc),
        })
    }

    /// Goes on by a step, which is made at this pc.
    pub(crate) fn step(&mut self, pc: u32, step: &StepSeen) -> Result<(), NoMemory>
        requires in_range { IsInRange step.now }
        requires sound { IsSound self.old }
        ensures sound { OnOk result (IsSound self.new) }
        ensures followed { OnOk result (TracksStep pc step.now self.old self.new) }
    {
        self.note(&Look::before(pc, step))?;
        self.turn(step)?;
        Ok(())
    }

    /// Looks at the instruction that traps, where the run stands.
    pub(crate) fn look_at_trap(&mut self, at: &Position<'_, '_>) -> Result<(), NoMemory>
        requires { IsSound self.old }
        ensures sound { OnOk result (IsSound self.new) }
        ensures looked { OnOk result (LooksAtTrap at.now self.old self.new) }
    {
        let look = Look {
            time: at.time(),
            pc: at.pc(),
            instr: at.fetched(),
            kind: CallKind::Other,
        };
        self.note(&look)?;
        Ok(())
    }

    /// Notes the decisions of a look.
    pub(crate) fn note(&mut self, look: &Look) -> Result<(), NoMemory>
        requires fits { HasFitting look.now.instr }
        requires sound { IsSound self.old }
        ensures sound { OnOk result (IsSound self.new) }
        ensures noted { OnOk result (Notes look.now (looked_at self.old.rule look.now) self.old self.new) }
    {
        self.note_operands(look)?;
        self.note_all(look, &look.bytes())
    }

    /// Notes those besides the bytes of the instruction.
    fn note_operands(&mut self, look: &Look) -> Result<(), NoMemory>
        requires fits { HasFitting look.now.instr }
        requires sound { IsSound self.old }
        ensures sound { OnOk result (IsSound self.new) }
        ensures noted { OnOk result
            (Notes look.now (decides_fetched self.old.rule look.now.kind look.now.instr) self.old self.new) }
    {
        match &look.instr {
            None => Ok(()),
            Some(instr) => {
                self.note_all(look, decisions_of(self.rule, look.kind, instr).as_slice())
            }
        }
    }

    /// Notes those of these locations that have a source byte.
    fn note_all(&mut self, look: &Look, locs: &[Loc]) -> Result<(), NoMemory>
        requires located { AreLocations locs.now }
        requires sound { IsSound self.old }
        ensures sound { OnOk result (IsSound self.new) }
        ensures noted { OnOk result (Notes look.now locs.now self.old self.new) }
    {
        for loc in locs {
            self.note_one(look, *loc)?;
        }
        Ok(())
    }

    /// Notes a location, if it has a source byte.
    fn note_one(&mut self, look: &Look, loc: Loc) -> Result<(), NoMemory>
        requires located { IsLocation loc }
        requires sound { IsSound self.old }
        ensures sound { OnOk result (IsSound self.new) }
        ensures noted { OnOk result (Notes look.now (loc ∷ []) self.old self.new) }
    {
        let label = self.places.get(loc);
        if self.labels.has_source(label) {
            self.groups.add(&mut self.labels, look, loc, label)?;
        }
        Ok(())
    }

    /// Turns the labels by a step.
    fn turn(&mut self, step: &StepSeen) -> Result<(), NoMemory>
        requires in_range { IsInRange step.now }
        requires sound { IsSound self.old }
        ensures sound { OnOk result (IsSound self.new) }
        ensures turned { OnOk result (IsTurned step.now self.old self.new) }
    {
        match &step.call {
            None => plain_step::<SourceLabels, DecisionTracking<'q>>(
                &mut self.labels,
                &mut self.places,
                &step.instr,
                step.place,
                self.rule,
            ),
            Some(_) => taint_shadow::step(&mut self.labels, &mut self.places, step, self.query),
        }
    }
}
