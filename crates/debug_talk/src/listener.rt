//! Who answers bytes: a reader of frames, and the session that hears them.

ghost use Rattle.std.specs.Prelude.{◌≡◌, []};
ghost use Rattle.remote_frames.specs.Reading.{begun};
ghost use Rattle.debug_talk.specs.Listening.{answers_from};

use debug_session::Session;
use no_memory::NoMemory;
use outer_wire::Answerer;
use remote_frames::Framer;
use std::alloc::Global;

/// A reader of frames, and the session that answers what it reads.
#[derive(Drop)]
pub(crate) struct Listener<'a> {
    framer: Framer,
    session: Session<'a>,
}

impl<'a> Listener<'a> {
    /// Who has read nothing yet, and answers by this session.
    pub(crate) fn new(alloc: Global, session: Session<'a>) -> Listener<'a>
        ensures framer { begun result.framer ≡ [] }
        ensures session { result.session ≡ session.entry }
    {
        Listener {
            framer: Framer::new(alloc),
            session,
        }
    }
}

impl<'a> Answerer for Listener<'a> {
    ghost answers = { λ l. answers_from l.framer l.session };

    fn form(&self) {
        self.framer.form();
    }

    fn hear(&mut self, byte: u8, out: &mut Vec<u8>) -> Result<bool, NoMemory> {
        let framed = self.framer.read(byte)?;
        self.session.hear(framed, self.framer.packet(), out)
    }
}
