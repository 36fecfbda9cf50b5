//! A node: a core with its four ends.

ghost use Rattle.std.specs.Prelude.{◌≡◌, ◌+◌, ◌≤◌, is_ok, true, IfOk, IfSome};
ghost use Rattle.run_board.specs.Turns.{AnswersEnded};
ghost use Rattle.epoch_node.specs.Cores.{core_of, new_core, phase_of, whole_at, asked_at, CanStart};
ghost use Rattle.epoch_node.specs.Keeping.{fresh_traffic, HasDone, HasCounted};
ghost use Rattle.epoch_node.specs.Events.{WhenMoved, WhenNotYet, counted};
ghost use Rattle.epoch_node.specs.Nodes.{traffic_of, new_node, HasBegun, IsLedFrom, HasMoved, HasWaited, SendsDue};

use crate::ends::Ends;
use crate::node_core::{Broken, Core};
use crate::stage::Phase;
use epoch_summary::Asked;
use no_memory::NoMemory;
use outer_io::Gate;
use replayer::Cursor;
use run_board::{Numbered, Task, Turn};
use sink_collect::SinkSets;
use std::marker::Model;

/// The most events of a turn.
pub const MOST_EVENTS: u32 = 1024;

/// What is left of a node that is done.
#[derive(Drop)]
pub struct Finished {
    /// The number of its epoch.
    pub number: u32,
    /// The rows of the epoch's sinks, unless the node is broken.
    pub sets: Result<SinkSets, Broken>,
    /// What it asked the previous node.
    pub asked: Asked,
    /// How many events moved.
    pub events: u64,
    pub ends: Ends,
}

/// An epoch's node. Contracts see its core and its ends.
pub struct Node<'a, G> {
    core: Core<'a, G>,
    ends: Ends,
}

// Written out: where a value that has one is let go, a derived drop is proved anew, with all that is below it.
impl<'a, G> Drop for Node<'a, G> {
    /// Lets its core and its ends go.
    fn drop(self) {
        let Node {
            core: _core,
            ends: _ends,
        } = self;
    }
}

impl<'a, G> Model for Node<'a, G> {
    ghost use Rattle.epoch_node.specs.Cores.{core_of};
    ghost use Rattle.epoch_node.specs.Keeping.{KeepsCore};
    ghost use Rattle.epoch_node.specs.Nodes.{NodeView, traffic_of};

    ghost Value = { NodeView };

    ghost view = { λ n. record { core = core_of n.core; ends = n.ends } };

    ghost invariant = { λ n. KeepsCore (core_of n.core) (traffic_of n.ends) };
}

impl<'a, G> Node<'a, G> {
    /// A node of a core that hasn't begun, and of new ends: the first has none to a previous node, and the last
    /// none to a next one.
    pub fn new(core: Core<'a, G>, ends: Ends) -> Node<'a, G>
        requires fresh { core_of core ≡ new_core (core_of core).setup }
        requires starts { CanStart (core_of core).setup.points (core_of core).setup.epoch }
        requires ends { traffic_of ends ≡ fresh_traffic (core_of core).setup.first (core_of core).setup.last }
        ensures { result ≡ new_node (core_of core.entry).setup ends }
    {
        Node { core, ends }
    }

    /// What is true of each node that is not broken: it has sent a part of what is to be sent for what it got.
    pub fn form(&self)
        ensures { whole_at self.now.core.stage ≡ true → SendsDue self.now }
    {
        // what is known of the fields is known from their first use on
        let _ends = &self.ends;
    }

    /// Takes a cursor of its job, if there is one, from which its analysis begins if it stands where the epoch begins.
    pub fn hand_cursor(&mut self, cursor: Option<Cursor<'a>>)
        requires { IfSome cursor (λ c. c.job ≡ self.old.core.setup.points.job) }
        ensures { self.new ≡ self.old }
    {
        self.core.hand_cursor(cursor);
    }

    /// Gives the cursor that it has: after its analysis, where that went well and it was handed a cursor or none before, one
    /// that stands at the epoch's end.
    pub fn take_cursor(&mut self) -> Option<Cursor<'a>>
        ensures job { IfSome result (λ c. c.job ≡ self.old.core.setup.points.job) }
        ensures same { self.new ≡ self.old }
    {
        self.core.take_cursor()
    }

    /// How far it has come.
    pub fn phase(&self) -> Phase
        ensures { result ≡ phase_of self.now.core.stage }
    {
        self.core.phase()
    }

    /// The gate that it enters as it begins.
    pub fn gate(&self) -> &'a G {
        self.core.gate()
    }

    /// One event. A node that begins has entered the gate.
    fn step(&mut self) -> Turn
        ensures led { IsLedFrom self.new self.old }
        ensures begun { HasBegun self.new }
        ensures done { AnswersEnded result (phase_of self.new.core.stage ≡ Phase.Done) }
        ensures not_yet { WhenNotYet result (HasWaited self.new self.old) }
        ensures counted { self.new.core.events ≡ counted result (phase_of self.old.core.stage) self.old.core.events }
    {
        let Node { core, ends } = self;
        let Ends {
            ask_in,
            ask_out,
            answer_in,
            answer_out,
        } = ends;
        if core.phase().uses_asks() {
            core.step(ask_in, ask_out)
        } else {
            core.step(answer_in, answer_out)
        }
    }

    /// At most [`MOST_EVENTS`] events. A node that begins has entered the gate.
    fn steps(&mut self) -> Turn
        ensures led { IsLedFrom self.new self.old }
        ensures few { self.new.core.events ≤ self.old.core.events + MOST_EVENTS }
        ensures done { AnswersEnded result (phase_of self.new.core.stage ≡ Phase.Done) }
        ensures moved { WhenMoved result (HasMoved self.new self.old) }
        ensures not_yet { WhenNotYet result (HasWaited self.new self.old) }
    {
        for event in 0..MOST_EVENTS {
            match self.step() {
                Turn::Moved => {}
                Turn::NotYet => return if event == 0 {
                    Turn::NotYet
                } else {
                    Turn::Moved
                },
                Turn::Done => return Turn::Done,
            }
        }
        Turn::Moved
    }

    /// Its first event, in which its epoch is analysed, unless it has begun. A node that begins has entered the gate.
    pub fn begin(&mut self)
        ensures led { IsLedFrom self.new self.old }
        ensures begun { HasBegun self.new }
        ensures few { self.new.core.events ≤ self.old.core.events + 1 }
    {
        if self.phase() == Phase::Fresh {
            let _turn = self.step();
        }
    }

    /// Makes the rows of its epoch's sinks, if they are due in a node that is done. Contracts don't tell rows that are due
    /// from rows that are made. Where a growth is refused, they stay due.
    pub fn make_rows(&mut self)
        ensures { self.new ≡ self.old }
    {
        self.core.make_rows();
    }

    /// What is left of a node that is done. Rows that are due are made, which gives up with NoMemory alone.
    pub fn finish(self) -> Result<Finished, NoMemory>
        requires { phase_of self.core.stage ≡ Phase.Done }
        ensures number { IfOk result (λ f. f.number ≡ self.entry.core.setup.epoch.number) }
        ensures events { IfOk result (λ f. f.events ≡ self.entry.core.events) }
        ensures ends { IfOk result (λ f. f.ends ≡ self.entry.ends) }
        ensures asked { IfOk result (λ f. f.asked ≡ asked_at self.entry.core.stage) }
        ensures whole { IfOk result (λ f. is_ok f.sets ≡ whole_at self.entry.core.stage) }
        ensures done { IfOk result (λ f.
            IfOk f.sets (λ rows. HasDone self.entry.core.setup (traffic_of self.entry.ends) f.asked rows)) }
        ensures counted { IfOk result (λ f.
            IfOk f.sets (λ rows. HasCounted self.entry.core.setup (traffic_of self.entry.ends) f.asked rows
            f.events)) }
    {
        let Node { core, ends } = self;
        let number = core.number();
        let (sets, asked, events) = core.into_result()?;
        Ok(Finished {
            number,
            sets,
            asked,
            events,
            ends,
        })
    }
}

impl<'a, G: Gate> Numbered for Node<'a, G> {
    ghost use Rattle.std.specs.Prelude.{◌≡◌};
    ghost use Rattle.epoch_node.specs.declared.stage.Phase.TheVariants.{Done};
    ghost use Rattle.epoch_node.specs.Cores.{phase_of};
    ghost use Rattle.epoch_node.specs.Nodes.{IsLedFrom};

    ghost words = { record {
      number = λ n. n.core.setup.epoch.number;
      led_from = IsLedFrom;
      ended = λ n. phase_of n.core.stage ≡ Done;
    } };

    fn number(&self) -> u32 {
        self.core.number()
    }
}

impl<'a, G: Gate> Task for Node<'a, G> {
    ghost use Rattle.std.specs.Prelude.{◌≡◌, ◌+◌, ◌≤◌};
    ghost use Rattle.epoch_node.specs.declared.stage.Phase.TheVariants.{Done};
    ghost use Rattle.run_board.specs.Turns.{AnswersEnded};
    ghost use Rattle.epoch_node.specs.Cores.{phase_of};
    ghost use Rattle.epoch_node.specs.Events.{WhenMoved, WhenNotYet};
    ghost use Rattle.epoch_node.specs.Nodes.{IsLedFrom, HasMoved, HasWaited, led_refl, led_trans};

    /// At most [`MOST_EVENTS`] events. It is Moved only where an event moved, and NotYet only where none did and the one
    /// link that the next event needs refused in this call.
    fn turn(&mut self) -> Turn
        ensures led { IsLedFrom self.new self.old }
        ensures number { self.new.core.setup.epoch.number ≡ self.old.core.setup.epoch.number }
        ensures few { self.new.core.events ≤ self.old.core.events + MOST_EVENTS }
        ensures done { AnswersEnded result (phase_of self.new.core.stage ≡ Done) }
        ensures moved { WhenMoved result (HasMoved self.new self.old) }
        ensures not_yet { WhenNotYet result (HasWaited self.new self.old) }
    {
        if self.phase() == Phase::Fresh {
            self.gate().enter(self.number());
        }
        self.steps()
    }

    ghost reflexive = { led_refl };

    ghost transitive = { led_trans };
}
