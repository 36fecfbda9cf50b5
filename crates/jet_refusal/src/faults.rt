//! The refusals of faults, for `?`: one of each cause, and so of each fault that has one.

ghost use Rattle.std.specs.Prelude.{◌≡◌};
ghost use Rattle.jet_refusal.specs.declared.refusal.Refusal.TheVariants as refusal;
ghost use Rattle.jet_refusal.specs.Faults.{misfit_refusal, unrecorded_refusal, IsOutOfMemory, IsRefusalOf};

use crate::refusal::Refusal;
use elf_model::ImageKind;
use log_model::FaultInLog;
use no_memory::{Fault, NoMemory};
use record_model::Unrecorded;
use replay_model::Misfit;
use report_model::{FaultInQuery, OtherRule};
use std::alloc::{AllocError, AllocFailed};

impl<K> From<Fault<K>> for Refusal
where
    Refusal: From<K>,
{
    ghost from_gives = { IsRefusalOf ⟦<Refusal as From<K>>⟧.from_gives };

    fn from(fault: Fault<K>) -> Refusal {
        match fault {
            Fault::At(cause) => Refusal::from(cause),
            Fault::NoMemory(no_memory) => Refusal::NoMemory(no_memory),
        }
    }
}

impl From<NoMemory> for Refusal {
    ghost from_gives = { λ no_memory given. given ≡ refusal.NoMemory no_memory };

    fn from(no_memory: NoMemory) -> Refusal {
        Refusal::NoMemory(no_memory)
    }
}

impl From<AllocError> for Refusal {
    ghost from_gives = { λ _ given. IsOutOfMemory given };

    fn from(refused: AllocError) -> Refusal {
        Refusal::NoMemory(NoMemory::from(refused))
    }
}

impl<T: Drop> From<AllocFailed<T>> for Refusal {
    ghost from_gives = { λ _ given. IsOutOfMemory given };

    fn from(refused: AllocFailed<T>) -> Refusal {
        Refusal::NoMemory(NoMemory::from(refused))
    }
}

impl From<ImageKind> for Refusal {
    ghost from_gives = { λ kind given. given ≡ refusal.Image kind };

    fn from(kind: ImageKind) -> Refusal {
        Refusal::Image(kind)
    }
}

impl From<FaultInLog> for Refusal {
    ghost from_gives = { λ fault given. given ≡ refusal.Log fault.kind fault.offset };

    fn from(fault: FaultInLog) -> Refusal {
        Refusal::Log {
            kind: fault.kind,
            offset: fault.offset,
        }
    }
}

impl From<FaultInQuery> for Refusal {
    ghost from_gives = { λ fault given. given ≡ refusal.Query fault.line fault.kind };

    fn from(fault: FaultInQuery) -> Refusal {
        Refusal::Query {
            line: fault.line,
            kind: fault.kind,
        }
    }
}

impl From<OtherRule> for Refusal {
    ghost from_gives = { λ rule given. given ≡ refusal.Rules rule.first rule.index rule.other };

    fn from(rule: OtherRule) -> Refusal {
        Refusal::Rules {
            first: rule.first,
            index: rule.index,
            other: rule.other,
        }
    }
}

impl From<Misfit> for Refusal {
    ghost from_gives = { λ misfit given. given ≡ misfit_refusal misfit };

    fn from(misfit: Misfit) -> Refusal {
        match misfit {
            Misfit::WrongProgram { kept, seen } => Refusal::Program { kept, seen },
            Misfit::Window(window) => Refusal::Window {
                pages: window.pages,
            },
            Misfit::Diverged(divergence) => Refusal::Diverged(divergence),
        }
    }
}

impl From<Unrecorded> for Refusal {
    ghost from_gives = { λ cause given. given ≡ unrecorded_refusal cause };

    fn from(cause: Unrecorded) -> Refusal {
        match cause {
            Unrecorded::Window(window) => Refusal::Window {
                pages: window.pages,
            },
            Unrecorded::LogTooLong(size) => Refusal::LogTooLong(size),
        }
    }
}
