//! The labels that are kept while the steps of an epoch are told, one after another.

ghost use Rattle.std.specs.Prelude.{◌≡◌, Some, IfOk, OnOk, IsTrue};
ghost use Rattle.isa.specs.declared.Instr.{Instr as AnyInstr};
ghost use Rattle.isa.specs.Encodings.{Fits};
ghost use Rattle.rv_decode.specs.Accesses.{load_of, store_of, FitsLoad, FitsStore};
ghost use Rattle.rv_machine.specs.Running.{PassesBy};
ghost use Rattle.flow_model.specs.Ranges.{IsInRange};
ghost use Rattle.taint_tracking.specs.Following.{IsSound, IsBegun, TracksStep, IsTurned, NotesDue, due_of, parts, number_before as number_of_first};

use crate::points::{collect_due, collect_first};
use crate::sinks::collect;
use flow_model::{InnerSink, StepSeen};
use no_memory::NoMemory;
use query_lang::Query;
use replayer::{Instr, Load, Store};
use std::alloc::Global;
use taint_shadow::{Labels, Places, SinkLabel};

/// The taint tracking of an epoch after some of its steps: the label of each location, the sinks so far, each with its label,
/// and the points that are left.
#[derive(Drop)]
pub(crate) struct Tracking<'q, L> {
    query: &'q Query,
    labels: L,
    places: Places,
    sinks: Vec<SinkLabel>,
    points: &'q [InnerSink],
    due_after: u64,
}

/// What a tracking is taken apart into: its labels, the label of each location, and the sinks in the order of the run.
#[derive(Drop)]
pub struct Tracked<L> {
    pub labels: L,
    pub places: Places,
    pub sinks: Vec<SinkLabel>,
}

/// The number of the step after which the first of these points is due: `u64::MAX` where there is none.
fn number_before(points: &[InnerSink]) -> u64
    ensures { result ≡ number_of_first points.now }
{
    match points {
        [] => u64::MAX,
        [point, ..] => point.time.saturating_sub(1),
    }
}

impl<'q, L: Labels + Drop> Tracking<'q, L> {
    /// Before the epoch's first step, which has the number `first`: each location has the label of the start. The labels
    /// are any, such as those of which none was made yet. It gives up with NoMemory alone.
    pub(crate) fn begin(
        alloc: Global,
        labels: L,
        query: &'q Query,
        first: u64,
    ) -> Result<Tracking<'q, L>, NoMemory>
        ensures sound { IfOk result (IsSound L.words) }
        ensures begun { IfOk result (IsBegun L.words query.now first) }
    {
        let places = Places::new(alloc)?;
        let mut sinks = Vec::new(alloc);
        let points = collect_first(&places, query, first, &mut sinks)?;
        Ok(Tracking {
            query,
            labels,
            places,
            sinks,
            points,
            due_after: number_before(points),
        })
    }

    /// The number of the next step after which a point is due: `u64::MAX` where none is left.
    pub(crate) fn due_after(&self) -> u64
        ensures { result ≡ due_of self.now }
    {
        self.due_after
    }

    /// Turns the labels by an instruction that is neither a load, a store nor a call, and looks at no point. It gives up with
    /// NoMemory alone. A loop of steps tells of such an instruction in two places, and calls this in both: it is too large to be
    /// in its midst twice.
    #[inline(never)]
    pub(crate) fn turn(&mut self, instr: &Instr) -> Result<(), NoMemory>
        requires fits { Fits instr.now }
        requires sound { IsSound L.words self.old }
        ensures sound { OnOk result (IsSound L.words self.new) }
        ensures turned { OnOk result (IsTurned L.words self.old instr.now 0 self.new) }
    {
        let rule = self.query.rule();
        taint_shadow::plain_step::<L, Tracking<'q, L>>(
            &mut self.labels,
            &mut self.places,
            instr,
            0,
            rule,
        )
    }

    /// Turns the labels by a load, and looks at no point. It gives up with NoMemory alone.
    #[inline(always)]
    pub(crate) fn turn_load(&mut self, load: Load, place: u32) -> Result<(), NoMemory>
        requires fits { FitsLoad load }
        requires sound { IsSound L.words self.old }
        ensures sound { OnOk result (IsSound L.words self.new) }
        ensures turned { OnOk result
            ((instr : AnyInstr) → load_of instr ≡ Some load → IsTurned L.words self.old instr place self.new) }
    {
        let rule = self.query.rule();
        taint_shadow::load_step(&mut self.labels, &mut self.places, load, place, rule)
    }

    /// Turns the labels by a store, and looks at no point. It gives up with NoMemory alone.
    #[inline(always)]
    pub(crate) fn turn_store(&mut self, store: Store, place: u32) -> Result<(), NoMemory>
        requires fits { FitsStore store }
        requires sound { IsSound L.words self.old }
        ensures sound { OnOk result (IsSound L.words self.new) }
        ensures turned { OnOk result
            ((instr : AnyInstr) → store_of instr ≡ Some store → IsTurned L.words self.old instr place self.new) }
    {
        let rule = self.query.rule();
        taint_shadow::store_step(&mut self.labels, &mut self.places, store, place, rule)
    }

    /// Whether a step of an instruction with these registers ([`rv_decode::registers_of`]) that is neither a load nor a store
    /// turns no label.
    #[inline(always)]
    pub(crate) fn passes_by(&self, registers: u32) -> bool
        ensures { IsTrue result → IsSound L.words self.now → PassesBy (IsTurned L.words) registers self.now }
    {
        self.places.is_clean_of(registers)
    }

    /// Goes on by a step. It gives up with NoMemory alone.
    #[inline(always)]
    pub(crate) fn step(&mut self, step: &StepSeen) -> Result<(), NoMemory>
        requires in_range { IsInRange step.now }
        requires sound { IsSound L.words self.old }
        ensures sound { OnOk result (IsSound L.words self.new) }
        ensures followed { OnOk result (TracksStep L.words step.now self.old self.new) }
    {
        collect(&self.places, step, self.query, &mut self.sinks)?;
        taint_shadow::step(&mut self.labels, &mut self.places, step, self.query)?;
        self.note_due(step.number)?;
        Ok(())
    }

    /// Notes the points that are due right after the step of this number.
    #[inline(always)]
    fn note_due(&mut self, number: u64) -> Result<(), NoMemory>
        requires sound { IsSound L.words self.old }
        ensures sound { OnOk result (IsSound L.words self.new) }
        ensures noted { OnOk result (NotesDue L.words number self.old self.new) }
    {
        if number == self.due_after {
            return self.note_next();
        }
        Ok(())
    }

    /// Notes the points that are due next, at the time of the first of those that are left.
    fn note_next(&mut self) -> Result<(), NoMemory>
        requires sound { IsSound L.words self.old }
        ensures sound { OnOk result (IsSound L.words self.new) }
        ensures noted { OnOk result (NotesDue L.words self.old.due_after self.old self.new) }
    {
        let [next, ..] = self.points else {
            return Ok(());
        };
        let time = next.time;
        self.points = collect_due(&self.places, self.points, time, &mut self.sinks)?;
        self.due_after = number_before(self.points);
        Ok(())
    }

    /// What was tracked, where all steps of the epoch are followed.
    pub(crate) fn into_parts(self) -> Tracked<L>
        ensures { result ≡ parts self.entry }
    {
        Tracked {
            labels: self.labels,
            places: self.places,
            sinks: self.sinks,
        }
    }
}
