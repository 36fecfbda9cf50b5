//! A node without its ends.

ghost use Rattle.std.specs.Prelude.{◌≡◌, is_ok, IfOk, IfSome};
ghost use Rattle.pass_parts.specs.Ends.{IsEndFrom, IsRefused};
ghost use Rattle.pass_parts.specs.Turns.{OnOver};
ghost use Rattle.epoch_node.specs.Cores.{core_of, stage_of, new_core, phase_of, whole_at, asked_at, CanStart};
ghost use Rattle.epoch_node.specs.Keeping.{Traffic, KeepsCore, HasDone, HasCounted, fresh_traffic};
ghost use Rattle.epoch_node.specs.Events.{phase_traffic, IsReady, IsEvent, WaitsAt, WhenNotYet, one_more, CanAdvance, Advances, GoesOn};

use crate::beginning::begin;
use crate::settling::settle;
use crate::stage::{Phase, Stage};
use checkpoints::{Checkpoints, StartPoint};
use epoch_cut::EpochTicket;
use epoch_link::{Inlet, Outlet};
use epoch_summary::Asked;
use flow_model::Message;
use no_memory::NoMemory;
use outer_io::Gate;
use pass_parts::PassTurn;
use query_lang::Query;
use replayer::Cursor;
use run_board::Turn;
use sink_collect::SinkSets;
use std::alloc::{AllocError, Global};
use std::mem;
use thiserror::Error;

/// A growth was refused in the node, or in another one that told of it.
#[derive(Clone, Copy, Debug, PartialEq, Eq, Error)]
#[error("a growth was refused in this node or in another one")]
pub struct Broken(());

// Where another node tells of the refused growth, it does so by its last message, which holds no error.
impl From<Broken> for NoMemory {
    fn from(_: Broken) -> NoMemory {
        NoMemory::from(AllocError)
    }
}

/// What a node is without its ends: its epoch, and how far it has come.
pub struct Core<'a, G> {
    alloc: Global,
    // It may have a cursor, which is large, and a node is moved often.
    start: Box<StartPoint<'a>>,
    query: &'a Query,
    gate: &'a G,
    number: u32,
    // The steps of the epoch, as its ticket has them.
    first_step: u64,
    past_last: u64,
    // There is no previous node, and no next one.
    first: bool,
    last: bool,
    // How many events moved.
    events: u64,
    // The passes are large too.
    stage: Box<Stage>,
}

// Written out: where a value that has one is let go, a derived drop is proved anew, with all that is below it.
impl<'a, G> Drop for Core<'a, G> {
    /// Lets its cursor and its passes go.
    fn drop(self) {
        let Core {
            alloc: _,
            start: _start,
            query: _,
            gate: _,
            number: _,
            first_step: _,
            past_last: _,
            first: _,
            last: _,
            events: _,
            stage: _stage,
        } = self;
    }
}

impl<'a, G> Core<'a, G> {
    /// A core that hasn't begun. It gives up with NoMemory alone.
    pub fn new(
        alloc: Global,
        ticket: EpochTicket,
        checkpoints: &'a Checkpoints<'a>,
        query: &'a Query,
        gate: &'a G,
        first: bool,
        last: bool,
    ) -> Result<Core<'a, G>, NoMemory>
        requires { CanStart checkpoints.now ticket }
        ensures made { IfOk result (λ core. core_of core ≡ new_core (record {
          points = checkpoints.now;
          query = query.now;
          epoch = ticket;
          first = first;
          last = last;
        })) }
        ensures keeps { IfOk result (λ core. KeepsCore (core_of core) (fresh_traffic first last)) }
    {
        let number = ticket.number();
        let first_step = ticket.first();
        let past_last = ticket.past_last();
        Ok(Core {
            alloc,
            start: Box::new(alloc, StartPoint::new(checkpoints))?,
            query,
            gate,
            number,
            first_step,
            past_last,
            first,
            last,
            events: 0,
            stage: Box::new(alloc, Stage::Fresh(ticket))?,
        })
    }

    /// The number of its epoch: 0 for the first.
    pub fn number(&self) -> u32
        ensures { result ≡ (core_of self.now).setup.epoch.number }
    {
        self.number
    }

    /// How far it has come.
    pub fn phase(&self) -> Phase
        ensures { result ≡ phase_of (core_of self.now).stage }
    {
        self.stage.phase()
    }

    /// How many events moved so far. The count stands still at its last value.
    pub fn events(&self) -> u64
        ensures { result ≡ (core_of self.now).events }
    {
        self.events
    }

    /// Takes a cursor of its job, if there is one, from which its analysis begins if it stands where the epoch begins.
    pub(crate) fn hand_cursor(&mut self, cursor: Option<Cursor<'a>>)
        requires { IfSome cursor (λ c. c.job ≡ (core_of self.old).setup.points.job) }
        ensures { core_of self.new ≡ core_of self.old }
    {
        self.start.hand(cursor);
    }

    /// Gives the cursor that it has: after its analysis, where that went well, one that stands at the epoch's end.
    pub(crate) fn take_cursor(&mut self) -> Option<Cursor<'a>>
        ensures job { IfSome result (λ c. c.job ≡ (core_of self.old).setup.points.job) }
        ensures same { core_of self.new ≡ core_of self.old }
    {
        self.start.take()
    }

    /// The gate that it enters as it begins.
    pub(crate) fn gate(&self) -> &'a G {
        self.gate
    }

    /// One event more.
    fn count(&mut self)
        ensures { self.new ≡ record self.old { events = one_more self.old.events } }
    {
        self.events = self.events.saturating_add(1);
    }

    /// The stage that comes after this one.
    fn stage_after(&mut self, stage: Stage) -> Stage
        requires { CanAdvance (core_of self.old).setup (stage_of stage) }
        ensures advances { Advances (core_of self.old).setup (stage_of stage) (stage_of result) }
        ensures same { core_of self.new ≡ core_of self.old }
    {
        match stage {
            Stage::Fresh(ticket) => Stage::Asking(begin(
                self.alloc,
                ticket,
                &mut *self.start,
                self.query,
                self.first,
                self.last,
            )),
            Stage::Asking(back) => {
                Stage::Answering(settle(self.alloc, back, self.first, self.last))
            }
            Stage::Answering(fore) => Stage::Done(fore),
            Stage::Done(_) => unreachable!(),
            Stage::Between => unreachable!(),
        }
    }

    /// Goes on to the next phase.
    fn advance(&mut self)
        requires { CanAdvance (core_of self.old).setup (core_of self.old).stage }
        ensures advances { Advances (core_of self.old).setup (core_of self.old).stage (core_of self.new).stage }
        ensures setup { (core_of self.new).setup ≡ (core_of self.old).setup }
        ensures events { (core_of self.new).events ≡ (core_of self.old).events }
    {
        let stage = mem::replace(&mut *self.stage, Stage::Between);
        let next = self.stage_after(stage);
        drop(mem::replace(&mut *self.stage, next));
    }

    /// Goes on after an event in which the pass came to this: one that happened is counted, and where the pass is over the
    /// next phase begins. It gives the answer of the event.
    fn go_on(&mut self, came_to: PassTurn) -> Turn
        requires { OnOver came_to (CanAdvance (core_of self.old).setup (core_of self.old).stage) }
        ensures { GoesOn came_to (core_of self.old) (core_of self.new) result }
    {
        match came_to {
            PassTurn::Moved => {
                self.count();
                Turn::Moved
            }
            PassTurn::NotYet => Turn::NotYet,
            PassTurn::Over => {
                self.advance();
                self.count();
                if self.phase() == Phase::Done {
                    Turn::Done
                } else {
                    Turn::Moved
                }
            }
        }
    }

    /// The same as `event`, in a core that has entered the gate where it begins. What a task's turn calls may have no
    /// bound on a gate.
    pub(crate) fn step<I: Inlet<Message>, O: Outlet<Message>>(
        &mut self,
        inlet: &mut Option<I>,
        outlet: &mut Option<O>,
    ) -> Turn
        requires ready { IsReady (core_of self.old) (phase_traffic I.end O.end inlet.old outlet.old) }
        ensures event { IsEvent (core_of self.old) (phase_traffic I.end O.end inlet.old outlet.old)
            (core_of self.new) (phase_traffic I.end O.end inlet.new outlet.new) result }
        ensures inlet { IsEndFrom I.end inlet.new inlet.old }
        ensures outlet { IsEndFrom O.end outlet.new outlet.old }
        ensures waits { WhenNotYet result (WaitsAt (core_of self.old).stage
            (phase_traffic I.end O.end inlet.old outlet.old)
            (IsRefused I.end inlet.old inlet.new) (IsRefused O.end outlet.old outlet.new)) }
    {
        if self.phase() == Phase::Done {
            return Turn::Done;
        }
        let came_to = self.stage.act(inlet, outlet);
        self.go_on(came_to)
    }

    /// Makes the rows of the epoch's sinks, if they are due in a core that is done. It needs nothing of other nodes, and
    /// where a growth is refused they stay due.
    pub fn make_rows(&mut self)
        ensures { core_of self.new ≡ core_of self.old }
    {
        self.stage.make_rows();
    }

    /// The rows of the epoch's sinks, unless the core is broken, what it asked, and how many events moved. Rows that are
    /// due are made, which gives up with NoMemory alone.
    pub fn into_result(self) -> Result<(Result<SinkSets, Broken>, Asked, u64), NoMemory>
        requires { phase_of (core_of self).stage ≡ Phase.Done }
        ensures whole { IfOk result (λ r. is_ok r.0 ≡ whole_at (core_of self.entry).stage) }
        ensures asked { IfOk result (λ r. r.1 ≡ asked_at (core_of self.entry).stage) }
        ensures events { IfOk result (λ r. r.2 ≡ (core_of self.entry).events) }
        ensures done { (w : Traffic) → KeepsCore (core_of self.entry) w
            → IfOk result (λ r. IfOk r.0 (λ rows. HasDone (core_of self.entry).setup w r.1 rows)) }
        ensures counted { (w : Traffic) → KeepsCore (core_of self.entry) w
            → IfOk result (λ r. IfOk r.0 (λ rows. HasCounted (core_of self.entry).setup w r.1 rows r.2)) }
    {
        let Core {
            alloc,
            start: _start,
            query: _,
            gate: _,
            number: _,
            first_step: _,
            past_last: _,
            first: _,
            last: _,
            events,
            stage,
        } = self;
        let Some(fore) = Box::into_inner(stage).into_done() else {
            return Ok((Err(Broken(())), Asked::new(alloc), events));
        };
        let whole = fore.whole();
        let (sets, asked) = fore.into_sets();
        if !whole {
            return Ok((Err(Broken(())), asked, events));
        }
        Ok((Ok(sets?), asked, events))
    }
}

impl<'a, G: Gate> Core<'a, G> {
    /// One event, with the inlet and the outlet of its phase: those of the asks, and then those of the answers. It is
    /// NotYet only where the one link that the event needs refused in this call, and then nothing else changed.
    pub fn event<I: Inlet<Message>, O: Outlet<Message>>(
        &mut self,
        inlet: &mut Option<I>,
        outlet: &mut Option<O>,
    ) -> Turn
        requires ready { IsReady (core_of self.old) (phase_traffic I.end O.end inlet.old outlet.old) }
        ensures event { IsEvent (core_of self.old) (phase_traffic I.end O.end inlet.old outlet.old)
            (core_of self.new) (phase_traffic I.end O.end inlet.new outlet.new) result }
        ensures inlet { IsEndFrom I.end inlet.new inlet.old }
        ensures outlet { IsEndFrom O.end outlet.new outlet.old }
        ensures waits { WhenNotYet result (WaitsAt (core_of self.old).stage
            (phase_traffic I.end O.end inlet.old outlet.old)
            (IsRefused I.end inlet.old inlet.new) (IsRefused O.end outlet.old outlet.new)) }
    {
        if self.phase() == Phase::Fresh {
            self.gate.enter(self.number);
        }
        self.step(inlet, outlet)
    }
}
