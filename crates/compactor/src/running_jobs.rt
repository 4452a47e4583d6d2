//! Which files each running job has.
ghost use Rattle.std.specs.Prelude.{◌≡◌, [], ◌∷◌, ◌++◌, eqb, is_ok, map, not, option_map, if◌then◌else◌, IfOk, OnOk};
ghost use Rattle.std.specs.List.{filter};
ghost use Rattle.tablet_model.specs.Sorted.{put, sorted};
ghost use Rattle.tablet_model.specs.Steps.{find_job, first_taken, holder, in_job};
ghost use Rattle.compactor.specs.Jobs.{is_behind, job_of};

use crate::job_state::{JobState, JobStates};
use cell_key::{FileIds, NoMemory};
use std::alloc::Global;
use std::marker::Model;

/// The running jobs, in the order in which they were started.
#[derive(Drop)]
pub struct RunningJobs {
    jobs: Vec<JobState>,
}

impl Model for RunningJobs {
    ghost use Rattle.std.specs.Prelude.{List, map};
    ghost use Rattle.tablet_model.specs.Store.{RunningJob};
    ghost use Rattle.compactor.specs.Jobs.{job_of};

    ghost Value = { List RunningJob };

    ghost view = { λ r. map job_of r.jobs.items };
}

/// Puts a job before the first whose number is not below its own.
fn put(jobs: &mut Vec<JobState>, job: JobState) -> Result<(), NoMemory>
    ensures { OnOk result (map job_of jobs.new.items ≡ put is_behind (job_of job) (map job_of jobs.old.items)) }
{
    let place = jobs.iter().position(|other| other.job >= job.job);
    jobs.insert(place.unwrap_or(jobs.len()), job)?;
    Ok(())
}

impl RunningJobs {
    /// No jobs. It takes no memory.
    pub fn new(alloc: Global) -> RunningJobs
        ensures { result ≡ [] }
    {
        RunningJobs {
            jobs: Vec::new(alloc),
        }
    }

    /// The job of a number. It takes no memory.
    #[tactic(auto, unfolding(tablet_model::specs::Steps::find_job))]
    pub fn find(&self, job: u32) -> Option<&JobState>
        ensures { option_map (λ found. job_of found.now) result ≡ find_job job self.now }
    {
        for running in &self.jobs {
            if job == running.job {
                return Some(running);
            }
        }
        None
    }

    /// The number of the job that has a file. It takes no memory.
    #[tactic(auto, unfolding(tablet_model::specs::Steps::holder, tablet_model::specs::Store::has_id))]
    pub fn holder(&self, file: u64) -> Option<u32>
        ensures { result ≡ holder file self.now }
    {
        for running in &self.jobs {
            if running.files.has(file) {
                return Some(running.job);
            }
        }
        None
    }

    /// The first of some files that is in a job, with the number of that job. It takes no memory.
    #[tactic(auto, unfolding(tablet_model::specs::Steps::first_taken))]
    pub fn first_taken(&self, files: &FileIds) -> Option<(u64, u32)>
        ensures { option_map (λ taken. in_job taken.0 taken.1) result ≡ first_taken self.now files.now }
    {
        for file in files.as_slice() {
            if let Some(job) = self.holder(*file) {
                return Some((*file, job));
            }
        }
        None
    }

    /// Puts a job at the end; without memory the jobs stay as they were.
    pub fn start(&mut self, state: JobState) -> Result<(), NoMemory>
        ensures { self.new ≡ (if is_ok result then self.old ++ job_of state ∷ [] else self.old) }
    {
        self.jobs.push(state)?;
        Ok(())
    }

    /// Takes the jobs of a number away. It takes no memory.
    pub fn end(&mut self, job: u32)
        ensures { self.new ≡ filter (λ running. not (eqb job running.job)) self.old }
    {
        self.jobs.retain(|running| job != running.job);
    }

    /// Copies of the jobs, by their numbers.
    fn copies(&self, alloc: Global) -> Result<Vec<JobState>, NoMemory>
        ensures { IfOk result (λ jobs. map job_of jobs.items ≡ sorted is_behind self.now) }
    {
        let mut jobs = Vec::new(alloc);
        for running in self.jobs.iter().rev() {
            put(&mut jobs, running.copy(alloc)?)?;
        }
        Ok(jobs)
    }

    /// The jobs, by their numbers. It takes memory.
    pub fn in_order(&self, alloc: Global) -> Result<JobStates, NoMemory>
        ensures { IfOk result (λ states. map job_of states ≡ sorted is_behind self.now) }
    {
        let mut states = JobStates::new(alloc);
        for running in self.copies(alloc)? {
            states.push(running)?;
        }
        Ok(states)
    }
}
