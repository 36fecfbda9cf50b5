//! The pass backwards, event by event.

ghost use Rattle.std.specs.Prelude.{◌≡◌, [], true, false};
ghost use Rattle.pass_parts.specs.Ends.{IsEndFrom, Seen, fresh_end};
ghost use Rattle.pass_parts.specs.Events.{IsEventOver, HasWaited};
ghost use Rattle.backward_pass.specs.Needs.{AreOfEpoch};

use crate::asking::{add_request, add_sink};
use crate::node_needs::NodeNeeds;
use epoch_link::{Inlet, Outlet};
use epoch_summary::{Asked, Summary};
use flow_model::Message;
use pass_parts::{PassStep, PassSummary, PassTurn, Requests, pop_message, push_message};
use std::alloc::Global;

/// Asks the previous node for what the epoch's sinks and the requests of the next one need.
///
/// It is broken where there is no summary, once it was refused memory, and once a broken End came. Then it asks
/// nothing more, takes what comes, and ends, not whole. Only an event that walks a sink or takes a request takes
/// memory, and only while it is whole.
pub struct Back {
    alloc: Global,
    epoch: PassSummary,
    // The first node asks nothing: nothing flows from the run's start.
    first: bool,
    last: bool,
    // Of a summary that it still reads.
    needs: NodeNeeds,
    // How many sinks are walked.
    walked: usize,
    // Nothing, where it is broken.
    asked: Asked,
    // How many of the asked locations were sent.
    pushed: usize,
    requests: Requests,
    // An End came, or there is no inlet.
    heard: bool,
    // The End was sent.
    over: bool,
    ghost of_epoch: { AreOfEpoch epoch asked needs },
}

// Written out: where a value that has one is let go, a derived drop is proved anew, with all that is below it.
impl Drop for Back {
    /// Lets all its parts go.
    fn drop(self) {
        let (_summary, _asked, _requests) = self.into_parts();
    }
}

impl Back {
    ghost use Rattle.backward_pass.specs.Backward.{back_of, new_back, IsFit, Keeps, Reached, backwards, HasWalked, Walks, Takes, IsNextBack};

    /// A pass that has asked nothing yet. Without a summary it is broken. It takes no memory.
    pub fn new(alloc: Global, summary: Option<Summary>, first: bool, last: bool) -> Back
        ensures made { back_of result ≡ new_back summary first last }
        ensures keeps { Keeps (back_of result) (fresh_end last) (fresh_end first) }
        ensures reached { Reached (back_of result) (fresh_end last) (fresh_end first) }
    {
        Back {
            alloc,
            epoch: PassSummary::new(summary, true),
            first,
            last,
            needs: NodeNeeds::new(alloc),
            walked: 0,
            asked: Asked::new(alloc),
            pushed: 0,
            requests: Vec::new(alloc),
            heard: last,
            over: false,
        }
    }

    /// Whether it has a summary, was not refused memory, and no broken End came.
    pub fn whole(&self) -> bool
        ensures { result ≡ (back_of self.now).whole }
    {
        self.epoch.is_whole()
    }

    /// The summary, what was asked, and what was requested.
    pub fn into_parts(self) -> (Option<Summary>, Asked, Requests)
        ensures { (result.0 ≡ (back_of self).summary) × (result.1 ≡ (back_of self).asked)
            × (result.2.items ≡ (back_of self).requests) }
    {
        let Back {
            alloc: _,
            epoch,
            first: _,
            last: _,
            needs: _needs,
            walked: _,
            asked,
            pushed: _,
            requests,
            heard: _,
            over: _,
        } = self;
        (epoch.into_summary(), asked, requests)
    }

    /// The pass breaks, and forgets what it asked.
    fn give_up(&mut self)
        ensures { back_of self.new ≡ record (back_of self.old) { asked = []; whole = false } }
    {
        self.epoch.give_up();
        self.asked = Asked::new(self.alloc);
    }

    /// Walks the next sink. False where none is left, or the pass is broken.
    fn walk(&mut self) -> bool
        requires { IsFit (back_of self.old) }
        ensures none { result ≡ false → (self.new ≡ self.old) × HasWalked (back_of self.old) }
        ensures walked { result ≡ true → Walks (back_of self.old) (back_of self.new) }
    {
        let PassSummary::Whole(summary) = &self.epoch else {
            return false;
        };
        if self.walked >= summary.sink_count() {
            return false;
        }
        let Ok(()) = add_sink(
            summary,
            &mut self.needs,
            self.walked,
            self.first,
            &mut self.asked,
        ) else {
            self.give_up();
            return true;
        };
        self.walked += 1;
        true
    }

    /// Takes a message.
    fn take(&mut self, message: Message)
        requires { IsFit (back_of self.old) }
        ensures { Takes message (back_of self.old) (back_of self.new) }
    {
        match message {
            Message::Ask(loc) => {
                if let PassSummary::Whole(summary) = &self.epoch {
                    let Ok(()) = add_request(
                        summary,
                        &mut self.needs,
                        loc,
                        self.first,
                        &mut self.asked,
                        &mut self.requests,
                    ) else {
                        self.give_up();
                        return;
                    };
                }
            }
            Message::Byte(_) => {}
            Message::Close(_) => {}
            Message::End { whole } => {
                self.heard = true;
                if !whole {
                    self.give_up();
                }
            }
        }
    }

    /// What the pass does next. What needs no link is done.
    fn next(&mut self) -> PassStep
        requires { IsFit (back_of self.old) }
        ensures { IsNextBack result (back_of self.new) (back_of self.old) }
    {
        if self.over {
            return PassStep::Over;
        }
        if self.pushed < self.asked.count() {
            return PassStep::Send(Message::Ask(self.asked.get(self.pushed)));
        }
        if self.walk() {
            return PassStep::Moved;
        }
        if self.heard {
            PassStep::End
        } else {
            PassStep::Receive
        }
    }

    /// The next event. It is NotYet only where the one link that it needs refused in this call, and then nothing
    /// else changed. It is Over exactly where the End is sent in this call or was before. A push takes no memory,
    /// and neither does any event of a broken pass.
    pub fn event<I: Inlet<Message>, O: Outlet<Message>>(
        &mut self,
        inlet: &mut Option<I>,
        outlet: &mut Option<O>,
    ) -> PassTurn
        requires { Seen I.end O.end Keeps (back_of self.old) inlet.old outlet.old }
        ensures event { IsEventOver backwards I.end O.end (back_of self.old) inlet.old outlet.old
            (back_of self.new) inlet.new outlet.new result }
        ensures inlet { IsEndFrom I.end inlet.new inlet.old }
        ensures outlet { IsEndFrom O.end outlet.new outlet.old }
        ensures waits { HasWaited backwards I.end O.end (back_of self.old) inlet.old outlet.old
            inlet.new outlet.new result }
    {
        match self.next() {
            PassStep::Moved => PassTurn::Moved,
            PassStep::Send(message) => {
                if !push_message(outlet, message) {
                    return PassTurn::NotYet;
                }
                self.pushed += 1;
                PassTurn::Moved
            }
            PassStep::Receive => {
                let Some(message) = pop_message(inlet) else {
                    return PassTurn::NotYet;
                };
                self.take(message);
                PassTurn::Moved
            }
            PassStep::End => {
                let whole = self.whole();
                let end = Message::End { whole };
                if !push_message(outlet, end) {
                    return PassTurn::NotYet;
                }
                self.over = true;
                PassTurn::Over
            }
            PassStep::Over => PassTurn::Over,
        }
    }
}
