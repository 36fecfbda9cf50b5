//! The session of a job's run over a wire.

ghost use Rattle.std.specs.Prelude.{◌≡◌};
ghost use Rattle.checkpoints.specs.Points.{beginnings};
ghost use Rattle.outer_wire.specs.Talks.{Talks};
ghost use Rattle.debug_talk.specs.Debugging.{answers_of};

use crate::listener::Listener;
use checkpoints::Checkpoints;
use debug_session::Session;
use epoch_cut::Cuts;
use no_memory::Fault;
use outer_wire::{Broken, Wire, talk};
use replayer::Job;
use run_travel::Travel;
use std::alloc::Global;

/// Debugs the run of a job over a wire: answers the packets that come, by a session that begins at a time; past the run's
/// steps it is their number. `checkpoints` are those of the run, which is cut by `cuts`. It ends at a packet that ends the
/// session, or where the wire is found at its end. It gives up as [`talk`] does.
pub fn debug_over<W: Wire>(
    alloc: Global,
    wire: &mut W,
    job: &Job,
    checkpoints: &Checkpoints<'_>,
    cuts: &Cuts,
    time: u64,
) -> Result<(), Fault<Broken>>
    requires job { checkpoints.now.job ≡ job.now }
    requires times { checkpoints.now.times ≡ beginnings cuts.now }
    ensures { Talks (answers_of job.now time) (W.shown wire.old) (W.shown wire.new) result }
{
    let travel = Travel::new(alloc, job, checkpoints, cuts)?;
    let session = Session::new(alloc, job, travel, time)?;
    let mut listener = Listener::new(alloc, session);
    talk(alloc, wire, &mut listener)
}
