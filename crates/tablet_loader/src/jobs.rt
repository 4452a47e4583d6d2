//! The jobs that wait behind a chunk of mutations, which may be run beside the next one.
ghost use Rattle.std.specs.Prelude.{◌≡◌, IfOk};

use cell_key::NoMemory;
use compactor::{DoneJob, Job};
use std::alloc::Global;

/// The compactions that wait behind a chunk: the flush of the frozen part, and the last job that was started, each where there is one.
#[derive(Drop)]
pub struct Jobs {
    pub flush: Option<Job>,
    pub major: Option<Job>,
}

/// What such compactions made.
#[derive(Drop)]
pub struct DoneJobs {
    pub flush: Option<DoneJob>,
    pub major: Option<DoneJob>,
}

/// Runs a compaction, where there is one.
fn run(job: &Option<Job>, alloc: Global) -> Result<Option<DoneJob>, NoMemory>
    ensures { IfOk result (λ done. done ≡ job.now) }
{
    match job {
        Some(job) => Ok(Some(job.run(alloc)?)),
        None => Ok(None),
    }
}

impl Jobs {
    /// Runs them, one behind the other. It takes memory.
    pub fn run(&self, alloc: Global) -> Result<DoneJobs, NoMemory>
        ensures flush { IfOk result (λ done. done.flush ≡ self.now.flush) }
        ensures major { IfOk result (λ done. done.major ≡ self.now.major) }
    {
        let flush = run(&self.flush, alloc)?;
        let major = run(&self.major, alloc)?;
        Ok(DoneJobs { flush, major })
    }
}
