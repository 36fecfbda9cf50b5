//! What analyses the epochs of a run.

ghost use Rattle.std.specs.Prelude.{IfOk, IfErr};
ghost use Rattle.log_model.specs.Logs.{steps};
ghost use Rattle.no_memory.specs.Faults.{IsCausedBy};
ghost use Rattle.epoch_model.specs.Cutting.{IsCutting};
ghost use Rattle.replayer.specs.Checks.{IsChecked, IsMisfit};
ghost use Rattle.epoch_engine.specs.Collecting.{AreAtBeginnings, AreRowsOf, IsCollectedOf};
ghost use Rattle.epoch_engine.specs.Texts.{AreTextsOf};

use crate::collected::Collected;
use crate::parallelism::Parallelism;
use checkpoints::Checkpoints;
use elf_image::Program;
use epoch_cut::Cuts;
use no_memory::NoMemory;
use outer_io::Gate;
use query_lang::Query;
use replay_log::Log;
use replayer::{CheckFault, Job};
use sink_collect::{SinkSet, SinkSets};

/// Analyses the epochs of a run. It may hold a runtime, start threads and wait.
pub trait Engine {
    /// It may be asked, and gives what it says.
    ghost ready: { Self → Type 0 };

    /// The analysis of the epoch of this number begins. It changes no result.
    fn enter(&self, epoch: u32);

    /// Checks that a log fits a program, and gives the job of its run, and the rows of the run, which is cut. Its epochs are
    /// analysed while it is checked, and joined by one log; each is entered as its analysis begins.
    ///
    /// The fault is that of [`Job::check`]: the first misfit that holds, or out of memory.
    fn checked_rows(
        &self,
        program: Program,
        log: Log,
        query: &Query,
        cuts: Cuts,
        parallelism: Parallelism,
    ) -> Result<(Job, SinkSets), CheckFault>
        requires ready { ready self.now }
        requires cutting { IsCutting (steps log) cuts }
        ensures checked { IfOk result (λ r. IsChecked program.bytes.items program.image log r.0) }
        ensures rows { IfOk result (λ r. AreRowsOf query.now r.0 r.1) }
        ensures fault { IfErr result (IsCausedBy (IsMisfit program.bytes.items program.image log)) };

    /// The rows of a run that is cut, whose epochs are joined as the parallelism tells. Each epoch is entered as its analysis
    /// begins. It gives up with NoMemory alone.
    fn rows(
        &self,
        checkpoints: &Checkpoints<'_>,
        query: &Query,
        cuts: Cuts,
        parallelism: Parallelism,
    ) -> Result<SinkSets, NoMemory>
        requires ready { ready self.now }
        requires checkpoints { AreAtBeginnings cuts checkpoints.now }
        ensures { IfOk result (AreRowsOf query.now checkpoints.now.job) };

    /// The rows of a run that is cut, what is asked at its inner cuts, and how many events moved. Its epochs are joined by
    /// links, and each is entered as its analysis begins. It gives up with NoMemory alone.
    fn collected(
        &self,
        checkpoints: &Checkpoints<'_>,
        query: &Query,
        cuts: Cuts,
        parallelism: Parallelism,
    ) -> Result<Collected, NoMemory>
        requires ready { ready self.now }
        requires checkpoints { AreAtBeginnings cuts checkpoints.now }
        ensures { IfOk result (IsCollectedOf query.now checkpoints.now.job cuts) };

    /// The texts of rows, each of some of them, in their order, made by at most so many workers at once. It gives up with NoMemory
    /// alone.
    fn texts(&self, rows: &[SinkSet], workers: u32) -> Result<Vec<Vec<u8>>, NoMemory>
        requires ready { ready self.now }
        ensures { IfOk result (λ texts. AreTextsOf rows.now texts.items) };
}

/// An engine that is made of four closures: one for the rows of a program and a log that it checks; one for the rows of a run,
/// and one for all that it collects of it, which are given the checkpoints of the run; and one for the texts of rows. And the gate
/// that is told of each epoch.
#[derive(Drop)]
pub struct ClosureEngine<'a, G, C, F, H, T> {
    pub gate: &'a G,
    pub checked_rows: C,
    pub rows: F,
    pub work: H,
    pub texts: T,
}

impl<
    'a,
    G: Gate,
    C: Fn(Program, Log, &Query, Cuts, Parallelism) -> Result<(Job, SinkSets), CheckFault>,
    F: Fn(&Checkpoints<'_>, &Query, Cuts, Parallelism) -> Result<SinkSets, NoMemory>,
    H: Fn(&Checkpoints<'_>, &Query, Cuts, Parallelism) -> Result<Collected, NoMemory>,
    T: Fn(&[SinkSet], u32) -> Result<Vec<Vec<u8>>, NoMemory>,
> Engine for ClosureEngine<'a, G, C, F, H, T> {
    ghost ready = { λ engine. ((program : _) (log : _) (query : _) (cuts : _) (parallelism : _)
        → IsCutting (steps log) cuts
        → (C.pre engine.checked_rows program log query cuts parallelism
        × ((r : _) → C.post engine.checked_rows program log query cuts parallelism r
        → IfOk r (λ found. IsChecked program.bytes.items program.image log found.0)
        × (IfOk r (λ found. AreRowsOf query.now found.0 found.1)
        × IfErr r (IsCausedBy (IsMisfit program.bytes.items program.image log))))))
        × (((points : _) (query : _) (cuts : _) (parallelism : _)
        → AreAtBeginnings cuts points.now
        → (F.pre engine.rows points query cuts parallelism
        × ((r : _) → F.post engine.rows points query cuts parallelism r → IfOk r (AreRowsOf query.now points.now.job)))
        × (H.pre engine.work points query cuts parallelism
        × ((r : _) → H.post engine.work points query cuts parallelism r
        → IfOk r (IsCollectedOf query.now points.now.job cuts))))
        × ((rows : _) (workers : _) → T.pre engine.texts rows workers
        × ((r : _) → T.post engine.texts rows workers r → IfOk r (λ texts. AreTextsOf rows.now texts.items)))) };

    fn enter(&self, epoch: u32) {
        self.gate.enter(epoch);
    }

    fn checked_rows(
        &self,
        program: Program,
        log: Log,
        query: &Query,
        cuts: Cuts,
        parallelism: Parallelism,
    ) -> Result<(Job, SinkSets), CheckFault> {
        (self.checked_rows)(program, log, query, cuts, parallelism)
    }

    fn rows(
        &self,
        checkpoints: &Checkpoints<'_>,
        query: &Query,
        cuts: Cuts,
        parallelism: Parallelism,
    ) -> Result<SinkSets, NoMemory> {
        (self.rows)(checkpoints, query, cuts, parallelism)
    }

    fn collected(
        &self,
        checkpoints: &Checkpoints<'_>,
        query: &Query,
        cuts: Cuts,
        parallelism: Parallelism,
    ) -> Result<Collected, NoMemory> {
        (self.work)(checkpoints, query, cuts, parallelism)
    }

    fn texts(&self, rows: &[SinkSet], workers: u32) -> Result<Vec<Vec<u8>>, NoMemory> {
        (self.texts)(rows, workers)
    }
}
