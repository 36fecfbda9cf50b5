//! The pass forwards.

ghost use Rattle.std.specs.Prelude.{◌≡◌, [], Option, List, true, false, Some, Bool, IfNone, IfOk, IfSome, IsSome, IsTrue};
ghost use Rattle.flow_model.specs.declared.Loc.{Loc};
ghost use Rattle.flow_model.specs.declared.Message.{Message};
ghost use Rattle.epoch_model.specs.Join.{answer_to, resolved as resolved_terms};
ghost use Rattle.stream_model.specs.Passes.{is_whole_message};
ghost use Rattle.epoch_summary.specs.Ahead.{IsAhead};
ghost use Rattle.pass_parts.specs.Ends.{IsEndFrom, Seen, fresh_end};
ghost use Rattle.pass_parts.specs.Events.{IsEventOver, HasWaited};
ghost use Rattle.pass_parts.specs.Known.{known};
ghost use Rattle.pass_parts.specs.Requests.{locations, AreCounted};
ghost use Rattle.forward_pass.specs.Forward.{fore_of, new_fore, known_by, ForeKeeps, ForeReached, forwards};
ghost use Rattle.forward_pass.specs.Steps.{HasBuilt, HasResolved, Builds, Resolves, Sends, Takes, IsNextFore};

use crate::received::Received;
use crate::rows::{SinkRows, make_rows};
use crate::sending::Sending;
use crate::state::Fore;
use answer_sets::{Answers, resolved};
use epoch_link::{Inlet, Outlet};
use epoch_summary::{Asked, Summary, TermsAhead};
use flow_model::{Loc, Message, SourceByte};
use merge_log::TermsReader;
use no_memory::NoMemory;
use pass_parts::{
    PassStep, PassSummary, PassTurn, Requests, pop_message, push_message, read_end_terms,
    share_end_terms,
};
use std::alloc::Global;
use std::mem;

/// The answer to a location, where this was asked and these answers came. It gives up with NoMemory alone.
fn answer_for(
    alloc: Global,
    ahead: &mut TermsAhead,
    reader: &mut TermsReader,
    summary: &Summary,
    loc: Loc,
    asked: &Asked,
    answers: &Answers,
) -> Result<Vec<SourceByte>, NoMemory>
    requires { IsAhead summary.now ahead.old }
    ensures ahead { IsAhead summary.now ahead.new }
    ensures value { IfOk result (λ set.
        set.items ≡ resolved_terms (answer_to asked.now answers.now) ((known (Some summary.now)).ends loc)) }
{
    read_end_terms(summary, ahead, reader, loc)?;
    resolved(alloc, reader, asked, answers)
}

/// Whether a location has the terms of the one whose answer was built last. The lanes of a register, and the bytes of a
/// word, often do.
fn shares_last(summary: &Summary, last: Option<Loc>, loc: Loc) -> bool
    ensures { IsTrue result
        → (l : Loc) × (last ≡ Some l) × ((known (Some summary.now)).ends l ≡ (known (Some summary.now)).ends loc) }
{
    match last {
        Some(last) => share_end_terms(summary, last, loc),
        None => false,
    }
}

/// Whether a pass that takes the message stays whole.
fn is_whole(message: Message) -> bool
    ensures { result ≡ is_whole_message message }
{
    match message {
        Message::Ask(_) => true,
        Message::Byte(_) => true,
        Message::Close(_) => true,
        Message::End { whole } => whole,
    }
}

impl Fore {
    /// A pass that has answered nothing yet, of a node that has asked this and is asked for these. The first node has no
    /// link to get from, the last one none to send through. It takes no memory.
    pub fn new(
        alloc: Global,
        summary: Option<Summary>,
        asked: Asked,
        requests: Requests,
        whole: bool,
        first: bool,
        last: bool,
    ) -> Fore
        requires summary { whole ≡ true → IsSome summary }
        requires last { last ≡ true → requests.items ≡ [] }
        requires counted { whole ≡ true → first ≡ false → AreCounted asked (known summary) requests.items }
        ensures made { fore_of result ≡ new_fore summary asked requests.items whole first }
        ensures keeps { ForeKeeps (fore_of result) (fresh_end first) (fresh_end last) }
        ensures reached { ForeReached first (locations requests.items) whole (fore_of result) (fresh_end first)
            (fresh_end last) }
    {
        Fore {
            epoch: PassSummary::new(summary, whole),
            asked,
            requests,
            answered: 0,
            sending: Sending::nothing(alloc),
            last: None,
            received: Received::new(alloc, first),
            rows: SinkRows::Unresolved,
            reader: TermsReader::new(alloc),
            ahead: TermsAhead::new(alloc),
            over: false,
        }
    }

    /// Whether it was made whole, no growth was refused, and no End came that isn't whole.
    pub fn whole(&self) -> bool
        ensures { result ≡ (fore_of self.now).whole }
    {
        self.epoch.is_whole()
    }

    /// Makes the rows of the epoch's sinks, if they are due, which needs nothing of other nodes. Contracts don't tell rows that
    /// are due from rows that are made. Where a growth is refused, they stay due.
    pub fn make_rows(&mut self)
        ensures { fore_of self.new ≡ fore_of self.old }
    {
        if !self.rows.are_due() {
            return;
        }
        let alloc = *self.requests.allocator();
        let answers = self.received.answers();
        let made = make_rows(alloc, &mut self.reader, &self.epoch, &self.asked, answers);
        if let Ok(rows) = made {
            drop(mem::replace(&mut self.rows, SinkRows::Made(rows)));
        }
    }

    /// The next event. NotYet only where the one link that it needs refused in this call, and then nothing else
    /// changed; Over exactly where the End is sent, in this call or before.
    pub fn event<I: Inlet<Message>, O: Outlet<Message>>(
        &mut self,
        inlet: &mut Option<I>,
        outlet: &mut Option<O>,
    ) -> PassTurn
        requires { Seen I.end O.end ForeKeeps (fore_of self.old) inlet.old outlet.old }
        ensures event { IsEventOver forwards I.end O.end (fore_of self.old) inlet.old outlet.old
            (fore_of self.new) inlet.new outlet.new result }
        ensures inlet { IsEndFrom I.end inlet.new inlet.old }
        ensures outlet { IsEndFrom O.end outlet.new outlet.old }
        ensures waits { HasWaited forwards I.end O.end (fore_of self.old) inlet.old outlet.old
            inlet.new outlet.new result }
    {
        match self.next() {
            PassStep::Moved => PassTurn::Moved,
            PassStep::Send(message) => {
                if !push_message(outlet, message) {
                    return PassTurn::NotYet;
                }
                self.sending.advance();
                PassTurn::Moved
            }
            PassStep::Receive => {
                let Some(message) = pop_message(inlet) else {
                    return PassTurn::NotYet;
                };
                self.take(message);
                PassTurn::Moved
            }
            PassStep::End => {
                let whole = self.whole();
                let end = Message::End { whole };
                if !push_message(outlet, end) {
                    return PassTurn::NotYet;
                }
                self.over = true;
                PassTurn::Over
            }
            PassStep::Over => PassTurn::Over,
        }
    }

    /// What the pass does next. What needs no link is done.
    fn next(&mut self) -> PassStep
        ensures { IsNextFore result (fore_of self.new) (fore_of self.old) }
    {
        if self.over {
            return PassStep::Over;
        }
        if let Some(message) = self.waiting() {
            return PassStep::Send(message);
        }
        if self.build() {
            return PassStep::Moved;
        }
        if self.resolve() {
            return PassStep::Moved;
        }
        if self.received.ended() {
            PassStep::End
        } else {
            PassStep::Receive
        }
    }

    /// The next message of the answer that is being sent. A broken pass sends none.
    fn waiting(&self) -> Option<Message>
        requires { (fore_of self.now).over ≡ false }
        ensures some { IfSome result (λ m. Sends m (fore_of self.now)) }
        ensures none { IfNone result ((fore_of self.now).whole ≡ true → (fore_of self.now).sending ≡ []) }
    {
        if self.epoch.is_whole() {
            self.sending.next()
        } else {
            None
        }
    }

    /// Builds the answer to the next request, if enough answers came. Where a growth is refused, the pass is broken.
    fn build(&mut self) -> bool
        ensures none { result ≡ false → (fore_of self.new ≡ fore_of self.old) × HasBuilt (fore_of self.old) }
        ensures built { result ≡ true → Builds (fore_of self.old) (fore_of self.new) }
    {
        let PassSummary::Whole(summary) = &self.epoch else {
            return false;
        };
        if self.answered >= self.requests.len() {
            return false;
        }
        let request = self.requests[self.answered];
        if !self.received.is_enough(request) {
            return false;
        }
        if shares_last(summary, self.last, request.loc) {
            self.sending.again(request.loc);
            self.answered += 1;
            return true;
        }
        let alloc = *self.requests.allocator();
        let answers = self.received.answers();
        let Ok(set) = answer_for(
            alloc,
            &mut self.ahead,
            &mut self.reader,
            summary,
            request.loc,
            &self.asked,
            answers,
        ) else {
            self.epoch.give_up();
            return true;
        };
        self.sending = Sending::answer(request.loc, set);
        self.last = Some(request.loc);
        self.answered += 1;
        true
    }

    /// Resolves the sinks, if no request is left and the End came: their rows are due.
    fn resolve(&mut self) -> bool
        ensures none { result ≡ false → (fore_of self.new ≡ fore_of self.old) × HasResolved (fore_of self.old) }
        ensures resolved { result ≡ true → Resolves (fore_of self.old) (fore_of self.new) }
    {
        if !self.epoch.is_whole() {
            return false;
        }
        if self.answered < self.requests.len() {
            return false;
        }
        if !self.received.ended() || self.rows.are_resolved() {
            return false;
        }
        drop(mem::replace(&mut self.rows, SinkRows::Due));
        true
    }

    /// Takes a message. Where a growth is refused, or an End isn't whole, the pass is broken.
    fn take(&mut self, message: Message)
        requires { (fore_of self.old).received.is_ended ≡ false }
        ensures { Takes message (fore_of self.old) (fore_of self.new) }
    {
        self.last = None;
        if !self.epoch.is_whole() {
            self.received.let_go(message);
            return;
        }
        let Ok(()) = self.received.take(message) else {
            self.epoch.give_up();
            return;
        };
        if !is_whole(message) {
            self.epoch.give_up();
        }
    }
}
