//! The decisions of a run so far, counted at each place.

ghost use Rattle.std.specs.Prelude.{◌≡◌, ◌∷◌, ◌++◌, [], List, IfOk, OnOk};
ghost use Rattle.std.specs.BTreeMap.{get};
ghost use Rattle.decision_find.specs.Decisions.{Decision};
ghost use Rattle.decision_find.specs.Places.{place_cmp};
ghost use Rattle.taint_shadow.specs.Labels.{KeepsLabels};
ghost use Rattle.source_labels.specs.declared.labels.SourceLabels.{SourceLabels as AnyLabels};
ghost use Rattle.source_labels.specs.Words.{label_words};
ghost use Rattle.decision_find.specs.Looks.{decision_of};
ghost use Rattle.decision_find.specs.Groups.{AreGroups, HaveLabels, Joins, Grows};

use crate::Place;
use crate::looks::Look;
use flow_model::Loc;
use isa::Instr;
use no_memory::{Limit, NoMemory};
use source_labels::SourceLabels;
use std::alloc::Global;
use std::collections::BTreeMap;
use taint_shadow::{Label, Labels};

/// The decisions of one place: the instruction at the first of them, how many they are, the time of the first, and a label
/// of all their source bytes.
#[derive(Clone, Copy)]
pub struct Group {
    pub instr: Option<Instr>,
    pub count: u64,
    pub first: u64,
    pub label: Label,
}

/// The decisions of each place that has one, by place.
#[derive(Drop)]
pub struct Groups {
    pub(crate) by_place: BTreeMap<Place, Group>,
}

impl Group {
    /// That of one decision.
    fn of_one(look: &Look, label: Label) -> Group
        ensures { result ≡ record { instr = look.now.instr; count = 1; first = look.now.time; label = label } }
    {
        Group {
            instr: look.instr,
            count: 1,
            first: look.time,
            label,
        }
    }

    /// With one decision more, which has this label. It fails where there is no memory, or where 2^64 - 1 were counted.
    fn with_one(self, labels: &mut SourceLabels, label: Label) -> Result<Group, NoMemory>
        requires one { label_words.stands labels.old self.label }
        requires other { label_words.stands labels.old label }
        ensures { IfOk result (λ group. Joins labels.old self label labels.new group) }
    {
        let Some(count) = self.count.checked_add(1) else {
            return Err(NoMemory::past_count(Limit::Decisions, self.count));
        };
        let label = labels.unite(self.label, label)?;
        Ok(Group {
            count,
            label,
            ..self
        })
    }
}

impl Groups {
    /// No decision. It takes no memory.
    pub(crate) fn new(alloc: Global) -> Groups
        ensures stand { (labels : AnyLabels) → HaveLabels labels result }
        ensures groups { (labels : AnyLabels) → AreGroups labels [] result }
    {
        Groups {
            by_place: BTreeMap::new(alloc),
        }
    }

    /// Counts a decision of a location at a look, which has this label.
    pub(crate) fn add(
        &mut self,
        labels: &mut SourceLabels,
        look: &Look,
        loc: Loc,
        label: Label,
    ) -> Result<(), NoMemory>
        requires stands { label_words.stands labels.old label }
        requires groups { HaveLabels labels.old self.old }
        ensures groups { OnOk result (HaveLabels labels.new self.new) }
        ensures keeps { OnOk result (KeepsLabels label_words labels.old labels.new) }
        ensures added { OnOk result ((ds : List Decision) → AreGroups labels.old ds self.old
            → AreGroups labels.new
            (ds ++ decision_of look.now (λ l. label_words.means labels.old label) loc ∷ []) self.new) }
    {
        let place = Place { pc: look.pc, loc };
        let group = self.grown(labels, place, look, label)?;
        self.by_place.insert(place, group)?;
        Ok(())
    }

    /// The group of a place with one decision more, of a look, which has this label.
    fn grown(
        &self,
        labels: &mut SourceLabels,
        place: Place,
        look: &Look,
        label: Label,
    ) -> Result<Group, NoMemory>
        requires stands { label_words.stands labels.old label }
        requires groups { HaveLabels labels.old self.now }
        ensures keeps { OnOk result (KeepsLabels label_words labels.old labels.new) }
        ensures grows { IfOk result
            (λ group. Grows labels.old (get place_cmp self.now.by_place place) look.now label labels.new group) }
    {
        match self.by_place.get(&place) {
            None => Ok(Group::of_one(look, label)),
            Some(group) => group.with_one(labels, label),
        }
    }
}
