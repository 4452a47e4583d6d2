//! What a running job is known by.
ghost use Rattle.std.specs.Prelude.{◌≡◌, IfOk};

use cell_key::{FileIds, Items, NoMemory};
use std::alloc::Global;

/// A running job: its number, whether it is a full compaction, and the numbers of its files.
#[derive(Drop)]
pub struct JobState {
    pub job: u32,
    pub full: bool,
    pub files: FileIds,
}

/// Running jobs.
pub type JobStates = Items<JobState>;

impl JobState {
    /// An equal job. It takes memory.
    pub fn copy(&self, alloc: Global) -> Result<JobState, NoMemory>
        ensures { IfOk result (λ copy. copy ≡ self.now) }
    {
        let files = self.files.copy(alloc)?;
        Ok(JobState {
            job: self.job,
            full: self.full,
            files,
        })
    }
}
