//! Out of memory, as an answer, and the faults that carry it.
#![tactic(auto)]

ghost use Rattle.std.specs.Prelude.{◌≡◌, ◌≤◌};
ghost use Rattle.no_memory.specs.declared.Fault.TheVariants as fault;
ghost use Rattle.no_memory.specs.Faults.{IsOutOfMemory};
ghost use Rattle.no_memory.specs.Limits.{most};

use std::alloc::{AllocError, AllocFailed};
use std::fmt::Display;
use thiserror::Error;

/// What there are only so many of, since their numbers, or their count, have so many bits. Where they are used up, that is
/// told as out of memory.
#[derive(Clone, Copy)]
pub enum Limit {
    /// The nodes of a merge log, without the empty one.
    MergedNodes,
    /// The pages of checkpoints.
    CheckpointPages,
    /// The answers that the clock of the workload counts.
    ClockAnswers,
    /// The decisions that are counted at one place.
    Decisions,
    /// The nodes of the paths of a source byte.
    PathNodes,
}

/// Out of memory. A refused allocation makes one, and [`NoMemory::past_count`] where a [`Limit`] is reached; elsewhere it is only
/// handed on.
#[derive(Clone, Copy, Debug, PartialEq, Eq, Error)]
#[error("out of memory")]
pub struct NoMemory(());

impl NoMemory {
    /// As many as the limit allows are there, and one more is asked for.
    pub fn past_count(limit: Limit, count: u64) -> NoMemory
        requires { most limit ≤ count }
    {
        let _ = limit;
        let _ = count;
        NoMemory(())
    }
}

impl From<AllocError> for NoMemory {
    fn from(_: AllocError) -> NoMemory {
        NoMemory(())
    }
}

impl<T: Drop> From<AllocFailed<T>> for NoMemory {
    fn from(_: AllocFailed<T>) -> NoMemory {
        NoMemory(())
    }
}

/// Why a call gave nothing.
#[derive(Clone, Copy, Debug, Error)]
#[error_bound(K: Display)]
pub enum Fault<K> {
    /// A cause of the call's own, which its contract tells.
    #[error("{0}")]
    At(K),
    /// Out of memory, which says nothing else.
    #[error("{0}")]
    NoMemory(NoMemory),
}

impl<K> From<NoMemory> for Fault<K> {
    ghost from_gives = { λ no_memory given. given ≡ fault.NoMemory no_memory };

    fn from(no_memory: NoMemory) -> Fault<K> {
        Fault::NoMemory(no_memory)
    }
}

impl<K> From<AllocError> for Fault<K> {
    ghost from_gives = { λ _ given. IsOutOfMemory given };

    fn from(error: AllocError) -> Fault<K> {
        Fault::NoMemory(NoMemory::from(error))
    }
}

impl<K, T: Drop> From<AllocFailed<T>> for Fault<K> {
    ghost from_gives = { λ _ given. IsOutOfMemory given };

    fn from(failed: AllocFailed<T>) -> Fault<K> {
        Fault::NoMemory(NoMemory::from(failed))
    }
}
