//! The ends of links that a node has.

use epoch_link::{Consumer, Producer};
use flow_model::Message;

/// The ends of a node's four links. The first node has no links to a previous one, the last none to a next one.
#[derive(Drop)]
pub struct Ends {
    /// What the next node asks.
    pub ask_in: Option<Consumer<Message>>,
    /// What the previous node is asked.
    pub ask_out: Option<Producer<Message>>,
    /// What the previous node answers.
    pub answer_in: Option<Consumer<Message>>,
    /// What the next node is answered.
    pub answer_out: Option<Producer<Message>>,
}
