//! Running jobs and their files.
use cell_key::{FileIds, NoMemory};
use compactor::{JobState, JobStates, RunningJobs};
use std::alloc::Global;

fn file_ids(alloc: Global, files: &[u64]) -> Result<FileIds, NoMemory> {
    let mut ids = FileIds::new(alloc);
    for file in files {
        ids.insert(*file)?;
    }
    Ok(ids)
}

/// Starts a copy of a job over these files.
fn start(
    alloc: Global,
    jobs: &mut RunningJobs,
    job: u32,
    full: bool,
    files: &[u64],
) -> Result<(), NoMemory> {
    let files = file_ids(alloc, files)?;
    let state = JobState { job, full, files };
    jobs.start(state.copy(alloc)?)
}

fn three_jobs(alloc: Global) -> Result<RunningJobs, NoMemory> {
    let mut jobs = RunningJobs::new(alloc);
    start(alloc, &mut jobs, 7, false, &[2, 3])?;
    start(alloc, &mut jobs, 1, false, &[9])?;
    start(alloc, &mut jobs, 4, true, &[5, 8])?;
    Ok(jobs)
}

fn is_full(jobs: &RunningJobs, job: u32) -> Option<bool> {
    match jobs.find(job) {
        Some(found) => Some(found.full),
        None => None,
    }
}

fn are_three(jobs: &RunningJobs) -> bool {
    is_full(jobs, 4) == Some(true)
        && is_full(jobs, 7) == Some(false)
        && is_full(jobs, 2).is_none()
        && jobs.holder(8) == Some(4)
        && jobs.holder(4).is_none()
}

#[test]
fn jobs_are_found(rt: HostRuntime) -> Result<(), NoMemory> {
    let jobs = three_jobs(rt.alloc())?;
    assert!(rt; are_three(&jobs));
    Ok(())
}

/// The first of these files that one of the three jobs has, with the number of that job.
fn first_taken(alloc: Global, files: &[u64]) -> Result<Option<(u64, u32)>, NoMemory> {
    let jobs = three_jobs(alloc)?;
    let files = file_ids(alloc, files)?;
    Ok(jobs.first_taken(&files))
}

#[test]
fn files_are_taken(rt: HostRuntime) -> Result<(), NoMemory> {
    assert!(rt; first_taken(rt.alloc(), &[1, 3, 9])? == Some((3, 7)));
    assert!(rt; first_taken(rt.alloc(), &[1, 4])?.is_none());
    Ok(())
}

fn two_jobs(alloc: Global) -> Result<RunningJobs, NoMemory> {
    let mut jobs = three_jobs(alloc)?;
    jobs.end(4);
    Ok(jobs)
}

fn job_at(states: &JobStates, i: usize) -> Option<u32> {
    match states.as_slice().get(i) {
        Some(state) => Some(state.job),
        None => None,
    }
}

fn are_two(states: &JobStates) -> bool {
    job_at(states, 0) == Some(1) && job_at(states, 1) == Some(7) && states.len() == 2
}

#[test]
fn jobs_end(rt: HostRuntime) -> Result<(), NoMemory> {
    let jobs = two_jobs(rt.alloc())?;
    let states = jobs.in_order(rt.alloc())?;
    assert!(rt; jobs.holder(8).is_none() && are_two(&states));
    Ok(())
}
