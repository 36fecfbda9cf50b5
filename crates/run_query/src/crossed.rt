//! What epochs asked at a cut.

ghost use Rattle.std.specs.Prelude.{◌≡◌, ◌<◌, ◌^◌, length, IfOk};
ghost use Rattle.run_query.specs.Crossings.{numbered};

use epoch_summary::Asked;
use flow_model::Loc;
use no_memory::NoMemory;
use std::alloc::Global;
use std::marker::Model;

/// What the epoch after a cut asked of the previous one.
///
/// Contracts see it as the cut's number and the list of locations.
#[derive(Drop)]
pub struct Crossed {
    cut: u32,
    asked: Asked,
}

impl Model for Crossed {
    ghost use Rattle.run_query.specs.Crossings.{CrossedAt};

    ghost Value = { CrossedAt };

    ghost view = { λ c. record { cut = c.cut; asked = c.asked } };
}

impl Crossed {
    /// Which cut it is: the k-th is the one before epoch k.
    pub fn cut(&self) -> u32
        ensures { result ≡ self.now.cut }
    {
        self.cut
    }

    /// The locations that were asked for, each once, in the order of asking.
    pub fn asked(&self) -> &[Loc]
        ensures { result.now ≡ self.now.asked }
    {
        self.asked.locations()
    }
}

/// What was asked at the cuts, from the first to the last, numbered from 1. It gives up with NoMemory alone.
pub fn number(alloc: Global, crossings: Vec<Asked>) -> Result<Vec<Crossed>, NoMemory>
    requires { length crossings.items < 2 ^ 32 }
    ensures { IfOk result (λ crossed. crossed.items ≡ numbered 1 crossings.items) }
{
    let mut crossed = Vec::with_capacity(alloc, crossings.len())?;
    let mut cut = 0;
    for asked in crossings {
        cut += 1;
        crossed.push(Crossed { cut, asked })?;
    }
    Ok(crossed)
}
