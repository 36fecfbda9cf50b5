//! The kinds of records.

ghost use Rattle.std.specs.Prelude.{◌≡◌, ◌<◌, ◌⊎◌, MatchOption};
ghost use Rattle.log_model.specs.Faults.{fields_length, fixed_length};
ghost use Rattle.replay_log.specs.Tags.{number};

use crate::steps::step_length;
use log_model::Version;

/// The kind of a record, which its first byte says.
#[derive(Clone, Copy)]
pub enum Tag {
    Read,
    Write,
    Clock,
    Other,
    Exit,
    Trap,
    Limit,
}

impl Tag {
    /// The kind with this number, 1 to 7.
    pub fn of(byte: u8) -> Option<Tag>
        ensures { MatchOption result ((byte ≡ 0) ⊎ (7 < byte)) (λ tag. number tag ≡ byte) }
    {
        match byte {
            1 => Some(Tag::Read),
            2 => Some(Tag::Write),
            3 => Some(Tag::Clock),
            4 => Some(Tag::Other),
            5 => Some(Tag::Exit),
            6 => Some(Tag::Trap),
            7 => Some(Tag::Limit),
            _ => None,
        }
    }

    /// The kind's number.
    pub fn number(self) -> u8
        ensures { result ≡ number self }
    {
        match self {
            Tag::Read => 1,
            Tag::Write => 2,
            Tag::Clock => 3,
            Tag::Other => 4,
            Tag::Exit => 5,
            Tag::Trap => 6,
            Tag::Limit => 7,
        }
    }

    /// How many bytes the fields after the step number take.
    pub fn fields_length(self) -> usize
        ensures { result ≡ fields_length (number self) }
    {
        match self {
            Tag::Read | Tag::Write => 16,
            Tag::Clock | Tag::Trap => 8,
            Tag::Other | Tag::Exit => 4,
            Tag::Limit => 0,
        }
    }

    /// How many bytes the tag, the step number and the fields take.
    pub fn fixed_length(self, version: Version) -> usize
        ensures { result ≡ fixed_length version (number self) }
    {
        1 + step_length(version) + self.fields_length()
    }
}
