//! The answers that came for what the node asked.

ghost use Rattle.std.specs.Prelude.{◌≡◌, ◌||◌, [], ◌∷◌, OnOk};
ghost use Rattle.flow_model.specs.declared.Message.TheVariants.{Byte};
ghost use Rattle.stream_model.specs.Streams.{is_ended};
ghost use Rattle.forward_pass.specs.Received.{closed, received_with, is_answerable};

use crate::inserting::insert;
use answer_sets::Answers;
use flow_model::{Message, SourceByte};
use no_memory::NoMemory;
use pass_parts::Request;
use std::alloc::Global;
use std::marker::Model;

/// The answers that are complete, in the order of asking, and what came of the next one.
#[derive(Drop)]
pub(crate) struct Received {
    answers: Answers,
    so_far: Vec<SourceByte>,
    // The End came, or there is no link that it could come through.
    ended: bool,
}

impl Model for Received {
    ghost use Rattle.lists.specs.Sets.{Ascends};
    ghost use Rattle.flow_model.specs.Orders.{source_cmp};
    ghost use Rattle.forward_pass.specs.Received.{ReceivedView};

    ghost Value = { ReceivedView };

    ghost view = { λ r. record { answers = r.answers; so_far = r.so_far.items; is_ended = r.ended } };

    ghost invariant = { λ r. Ascends source_cmp r.so_far.items };
}

/// Whether a message is an End.
fn is_end(message: Message) -> bool
    ensures { result ≡ is_ended (message ∷ []) }
{
    match message {
        Message::Ask(_) => false,
        Message::Byte(_) => false,
        Message::Close(_) => false,
        Message::End { whole: _ } => true,
    }
}

impl Received {
    /// Nothing came. Where there is no link, the End counts as seen. It takes no memory.
    pub(crate) fn new(alloc: Global, ended: bool) -> Received
        ensures { result ≡ record { answers = []; so_far = []; is_ended = ended } }
    {
        Received {
            answers: Answers::new(alloc),
            so_far: Vec::new(alloc),
            ended,
        }
    }

    /// Whether the End came.
    pub(crate) fn ended(&self) -> bool
        ensures { result ≡ self.now.is_ended }
    {
        self.ended
    }

    /// Whether as many answers are complete as a request needs, or the End came. It takes no memory.
    pub(crate) fn is_enough(&self, request: Request) -> bool
        ensures { result ≡ is_answerable self.now request }
    {
        self.ended || request.needed_first <= self.answers.count()
    }

    /// The answers that are complete.
    pub(crate) fn answers(&self) -> &Answers
        ensures { result.now ≡ self.now.answers }
    {
        &self.answers
    }

    /// Takes a message: a source byte into the answer that is open, and the end of an answer. An End is noted even when
    /// out of memory.
    pub(crate) fn take(&mut self, message: Message) -> Result<(), NoMemory>
        ensures taken { OnOk result (self.new ≡ received_with self.old message) }
        ensures ended { self.new.is_ended ≡ (is_ended (message ∷ []) || self.old.is_ended) }
    {
        match message {
            Message::Ask(_) => Ok(()),
            Message::Byte(byte) => self.add(byte),
            Message::Close(_) => self.close(),
            Message::End { whole: _ } => {
                self.ended = true;
                self.close()
            }
        }
    }

    /// Lets a message go, but notes an End. It takes no memory.
    pub(crate) fn let_go(&mut self, message: Message)
        ensures { self.new ≡ record self.old { is_ended = is_ended (message ∷ []) || self.old.is_ended } }
    {
        self.ended = is_end(message) || self.ended;
    }

    /// Adds a source byte to the answer that is open.
    fn add(&mut self, byte: SourceByte) -> Result<(), NoMemory>
        ensures taken { OnOk result (self.new ≡ received_with self.old (Byte byte)) }
        ensures ended { self.new.is_ended ≡ self.old.is_ended }
    {
        insert(&mut self.so_far, byte)
    }

    /// Completes the answer that is open, in no more room than it needs.
    fn close(&mut self) -> Result<(), NoMemory>
        ensures closed { OnOk result (self.new ≡ closed self.old) }
        ensures ended { self.new.is_ended ≡ self.old.is_ended }
    {
        let alloc = *self.so_far.allocator();
        let mut set = std::mem::replace(&mut self.so_far, Vec::new(alloc));
        set.shrink_to_fit();
        self.answers.push(set)
    }
}
