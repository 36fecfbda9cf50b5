//! What a pass does next.

use flow_model::Message;

/// What a pass does in an event.
#[derive(Clone, Copy)]
pub enum PassStep {
    /// It did it: that needed no link.
    Moved,
    /// It sends a message.
    Send(Message),
    /// It takes a message.
    Receive,
    /// It sends the End.
    End,
    /// Nothing: the End is sent.
    Over,
}
