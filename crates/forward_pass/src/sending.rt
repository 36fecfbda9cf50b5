//! The answer that is being sent.

ghost use Rattle.std.specs.Prelude.{◌≡◌, ◌∷◌, [], IfSome, IfNone};
ghost use Rattle.stream_model.specs.Streams.{answer};
ghost use Rattle.forward_pass.specs.Rest.{rest_of};

use flow_model::{Loc, Message, SourceByte};
use std::alloc::Global;
use std::marker::Model;

/// The answer that was begun last, and what is left of it to be sent: source bytes, and the Close of its location.
#[derive(Drop)]
pub(crate) struct Sending {
    set: Vec<SourceByte>,
    // How many of the source bytes are sent.
    sent: usize,
    // The location, until its Close is sent.
    closing: Option<Loc>,
}

impl Model for Sending {
    ghost use Rattle.std.specs.Prelude.{drop};
    ghost use Rattle.forward_pass.specs.Rest.{BeingSent, rest_of_answer};

    ghost Value = { BeingSent };

    ghost view = { λ s. record { set = s.set.items; left = rest_of_answer (drop s.sent s.set.items) s.closing } };
}

impl Sending {
    /// Nothing is being sent. It takes no memory.
    pub(crate) fn nothing(alloc: Global) -> Sending
        ensures { result ≡ record { set = []; left = [] } }
    {
        Sending {
            set: Vec::new(alloc),
            sent: 0,
            closing: None,
        }
    }

    /// The answer to a location. It takes no memory.
    pub(crate) fn answer(loc: Loc, set: Vec<SourceByte>) -> Sending
        ensures { result ≡ record { set = set.items; left = answer loc set.items } }
    {
        Sending {
            set,
            sent: 0,
            closing: Some(loc),
        }
    }

    /// The same source bytes once more, as the answer to a location. It takes no memory.
    pub(crate) fn again(&mut self, loc: Loc)
        ensures { self.new ≡ record { set = self.old.set; left = answer loc self.old.set } }
    {
        self.sent = 0;
        self.closing = Some(loc);
    }

    /// The next message, unless all are sent. It takes no memory.
    pub(crate) fn next(&self) -> Option<Message>
        ensures some { IfSome result (λ m. self.now.left ≡ m ∷ rest_of self.now.left) }
        ensures none { IfNone result (self.now.left ≡ []) }
    {
        let loc = self.closing?;
        match self.set.get(self.sent) {
            Some(byte) => Some(Message::Byte(*byte)),
            None => Some(Message::Close(loc)),
        }
    }

    /// The next message is sent.
    pub(crate) fn advance(&mut self)
        ensures { self.new ≡ record self.old { left = rest_of self.old.left } }
    {
        if self.sent < self.set.len() {
            self.sent += 1;
        } else {
            self.closing = None;
        }
    }
}
