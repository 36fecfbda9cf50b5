//! What the commands that analyse epochs work with.

ghost use Rattle.std.specs.Prelude.{◌≡◌};
ghost use Rattle.jet_words.specs.Commands.{IsPipeline, plain_command};
ghost use Rattle.jet_commands.specs.Resources.{link_capacity, joining_by, workers_by};

use epoch_engine::{Joining, Parallelism};
use epoch_link::Capacity;
use jet_words::{Command, Pipeline};
use std::alloc::Global;

/// How many messages a link holds, where the words don't tell it.
const LINK_CAPACITY: u64 = 256;

/// What analyses epochs, and memory.
#[derive(Drop)]
pub struct Resources<'a, E> {
    pub engine: &'a E,
    pub alloc: Global,
}

/// How epochs are joined: by links, where the words tell the length of the epochs or the capacity of the links.
fn joining_of(pipeline: Pipeline) -> Joining
    ensures { result ≡ joining_by pipeline.epoch pipeline.link }
{
    match (pipeline.epoch, pipeline.link) {
        (None, None) => Joining::ByOneLog,
        (None, Some(_)) => Joining::ByLinks,
        (Some(_), _) => Joining::ByLinks,
    }
}

/// How many workers analyse epochs, how these are joined, and over how large links, as the words tell it.
pub fn parallelism_of(pipeline: Pipeline) -> Parallelism
    requires { IsPipeline pipeline }
    ensures workers { result.workers ≡ pipeline.workers }
    ensures joining { result.joining ≡ joining_by pipeline.epoch pipeline.link }
    ensures link { result.link ≡ link_capacity pipeline.link }
{
    let capacity = pipeline.link.unwrap_or(LINK_CAPACITY) as u32;
    Parallelism {
        workers: pipeline.workers,
        joining: joining_of(pipeline),
        link: Capacity::of(capacity),
    }
}

/// How many workers write the text of a command: those that analyse epochs, or one, where it analyses none.
pub fn workers_of(command: &Command) -> u32
    ensures { result ≡ workers_by (plain_command command.now) }
{
    match command {
        Command::Analysis { pipeline, .. } => pipeline.workers,
        Command::Page { pipeline, .. } => pipeline.workers,
        Command::Queries { pipeline, .. } => pipeline.workers,
        Command::Bench { pipeline, .. } => pipeline.workers,
        _ => 1,
    }
}
