//! The links between neighbours.

ghost use Rattle.std.specs.Prelude.{◌≡◌, IfOk};
ghost use Rattle.jet_core.specs.Joints.{no_joint, IsNewJoint, IsSound};

use epoch_link::{Capacity, ListLink};
use flow_model::Message;
use no_memory::NoMemory;
use std::alloc::Global;

/// The two links between neighbours. There are none before the first core, and none after the last.
#[derive(Drop)]
pub struct Joint {
    /// What the previous core is asked.
    pub ask: Option<ListLink<Message>>,
    /// What the next core is answered.
    pub answer: Option<ListLink<Message>>,
}

/// What is true of each link: it does nothing.
fn form_of(link: &Option<ListLink<Message>>)
    ensures { IsSound link.now }
{
    if let Some(link) = link {
        link.form();
    }
}

impl Joint {
    /// No links.
    pub(crate) fn none() -> Joint
        ensures { result ≡ no_joint }
    {
        Joint {
            ask: None,
            answer: None,
        }
    }

    /// Two new links, each of which holds at most `capacity` messages. It gives up with NoMemory alone.
    pub(crate) fn new(alloc: Global, capacity: Capacity) -> Result<Joint, NoMemory>
        ensures { IfOk result (IsNewJoint capacity) }
    {
        let ask = ListLink::new(alloc, capacity)?;
        let answer = ListLink::new(alloc, capacity)?;
        Ok(Joint {
            ask: Some(ask),
            answer: Some(answer),
        })
    }

    /// What is true of its links, which the code around may need: it does nothing.
    pub(crate) fn form(&self)
        ensures ask { IsSound self.now.ask }
        ensures answer { IsSound self.now.answer }
    {
        form_of(&self.ask);
        form_of(&self.answer);
    }
}
