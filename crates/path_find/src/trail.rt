//! The trail of one source byte.

ghost use Rattle.std.specs.Prelude.{◌≡◌, ◌+◌, ℕ, List, Some, IfOk, OnOk};
ghost use Rattle.std.specs.Option.{option_map};
ghost use Rattle.flow_model.specs.declared.Rule.{Rule as RuleOfFlow};
ghost use Rattle.flow_model.specs.declared.SourceByte.{SourceByte as Source};
ghost use Rattle.flow_model.specs.declared.StepSeen.{StepSeen as Step};
ghost use Rattle.flow_model.specs.Origins.{step_at};
ghost use Rattle.flow_model.specs.Ranges.{IsLocation, IsInRange};
ghost use Rattle.path_find.specs.Paths.{path};
ghost use Rattle.path_find.specs.Trails.{IsTrail, IsAfter};

use crate::Arrival;
use crate::carriers::Carriers;
use crate::following::{follow_call, follow_instruction};
use crate::nodes::Nodes;
use flow_model::{Loc, Rule, SourceByte, StepSeen};
use no_memory::NoMemory;
use std::alloc::Global;

/// Where a source byte is after some steps, and how it came there.
#[derive(Drop)]
pub struct Trail {
    rule: Rule,
    source: SourceByte,
    nodes: Nodes,
    carriers: Carriers,
}

impl Trail {
    /// The trail of a source byte before the first step.
    pub fn new(alloc: Global, rule: Rule, source: SourceByte) -> Result<Trail, NoMemory>
        ensures { IfOk result (λ trail. (trace : List Step) → IsAfter rule source trace 0 trail) }
    {
        Ok(Trail {
            rule,
            source,
            nodes: Nodes::new(alloc),
            carriers: Carriers::new(alloc)?,
        })
    }

    /// Goes on by one step: after it the trail has the paths of a trace whose step it is.
    #[inline(always)]
    pub fn follow(&mut self, step: &StepSeen) -> Result<(), NoMemory>
        requires in_range { IsInRange step.now }
        requires trail { IsTrail self.old }
        ensures sound { OnOk result (IsTrail self.new) }
        ensures followed { OnOk result
            ((rule : RuleOfFlow) (s : Source) (trace : List Step) → step_at trace step.now.number ≡ Some step.now
            → IsAfter rule s trace step.now.number self.old → IsAfter rule s trace (step.now.number + 1) self.new) }
    {
        match &step.call {
            None => follow_instruction(
                &mut self.nodes,
                &mut self.carriers,
                self.rule,
                step.number,
                &step.instr,
                step.place,
            ),
            Some(call) => follow_call(
                &mut self.nodes,
                &mut self.carriers,
                self.source,
                step.number,
                call,
            ),
        }
    }

    /// The path of the source byte to a location, the latest arrival first; none where it isn't there.
    pub fn path(&self, alloc: Global, loc: Loc) -> Result<Option<Vec<Arrival>>, NoMemory>
        requires location { IsLocation loc }
        requires trail { IsTrail self.now }
        ensures { IfOk result (λ p.
            (rule : RuleOfFlow) (s : Source) (trace : List Step) (t : ℕ) → IsAfter rule s trace t self.now
            → option_map (λ v. v.items) p ≡ path rule s trace t loc) }
    {
        self.nodes.path(alloc, self.carriers.get(loc))
    }
}
