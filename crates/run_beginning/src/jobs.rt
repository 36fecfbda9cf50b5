//! The job of a run's beginning, and the job whole again.

ghost use Rattle.std.specs.Prelude.{◌≡◌, ◌≤◌, IfOk};
ghost use Rattle.log_model.specs.Logs.{end_at};
ghost use Rattle.replayer.specs.Jobs.{IsJob};
ghost use Rattle.run_beginning.specs.Beginnings.{job_of_beginning, job_followed_by};

use crate::laws::beginning_fits;
use crate::parts::{join, split};
use crate::tail::Tail;
use no_memory::NoMemory;
use replayer::Job;

/// The job of the first `steps` steps of a job's run, and the tail of its log. No record is copied: the later ones are moved
/// out. It gives up with NoMemory alone.
pub fn cut_off(job: Job, steps: u64) -> Result<(Job, Tail), NoMemory>
    requires { steps ≤ end_at job.log.end }
    ensures job { IfOk result (λ r. r.0 ≡ job_of_beginning steps job) }
    ensures tail { IfOk result (λ r. job_followed_by r.0 r.1 ≡ job) }
{
    job.form();
    beginning_fits();
    let (image, log) = job.apart();
    let (beginning, tail) = split(log, steps)?;
    Ok((Job::whole(image, beginning), tail))
}

/// The job whose log goes on with a tail, where that is one. It gives up with NoMemory alone.
pub fn put_back(job: Job, tail: Tail) -> Result<Job, NoMemory>
    requires { IsJob (job_followed_by job tail) }
    ensures { IfOk result (λ whole. whole ≡ job_followed_by job tail) }
{
    let (image, log) = job.apart();
    let log = join(log, tail)?;
    Ok(Job::whole(image, log))
}
