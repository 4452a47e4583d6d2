//! A compaction starts.
ghost use Rattle.std.specs.Prelude.{◌≡◌, ◌<◌, ◌^◌, ◌∷◌, [], ◌++◌, None, is_ok, option_map, if◌then◌else◌, IfOk};
ghost use Rattle.tablet_model.specs.Steps as model;
ghost use Rattle.tablet_model.specs.Steps.{first_missing, first_taken, ids_of, in_job, no_such_file, refuse, takes_all};
ghost use Rattle.tablet_model.specs.Stands.{AreRising};
ghost use Rattle.tablet_model.specs.Store.{has_id};
ghost use Rattle.iter_config.specs.RulesOf.{rules_of};
ghost use Rattle.compactor.specs.Jobs.{job_of};
ghost use Rattle.tablet_steps.specs.ModelSteps.{model_answer_of};
ghost use Rattle.tablet_core.specs.State.{Answers, IsRefusal, state_of};

use super::Core;
use cell_key::{FileIds, NoMemory};
use compactor::{JobState, RunningJobs};
use std::alloc::Global;
use tablet_steps::{Answer, StepRefusal};
use tablet_view::View;

/// Whether a view has the file.
fn has_file(view: &View, file: u64) -> bool
    ensures { result ≡ has_id (ids_of view.now.files) file }
{
    for i in 0..view.file_count() {
        if file == view.file_at(i).0 {
            return true;
        }
    }
    false
}

/// Whether these are all files of a view.
fn takes_all(view: &View, files: &FileIds) -> bool
    ensures { result ≡ takes_all files.now view.now.files }
{
    for i in 0..view.file_count() {
        if !files.has(view.file_at(i).0) {
            return false;
        }
    }
    true
}

/// The first of some files that a view doesn't have.
#[tactic(auto, unfolding(tablet_model::specs::Steps::first_missing))]
fn first_missing(view: &View, files: &FileIds) -> Option<u64>
    ensures { option_map no_such_file result ≡ first_missing (ids_of view.now.files) files.now }
{
    for file in files.as_slice() {
        if !has_file(view, *file) {
            return Some(*file);
        }
    }
    None
}

/// The first file of a view that is in a job, with the number of that job.
fn first_held(view: &View, jobs: &RunningJobs) -> Option<(u64, u32)>
    ensures { option_map (λ held. in_job held.0 held.1) result ≡ first_taken jobs.now (ids_of view.now.files) }
{
    for i in 0..view.file_count() {
        let file = view.file_at(i).0;
        if let Some(job) = jobs.holder(file) {
            return Some((file, job));
        }
    }
    None
}

/// The numbers of all files of a view.
fn file_ids(view: &View, alloc: Global) -> Result<FileIds, NoMemory>
    requires { AreRising view.now.files }
    ensures { IfOk result (λ ids. ids ≡ ids_of view.now.files) }
{
    let mut ids = FileIds::new(alloc);
    for i in 0..view.file_count() {
        ids.push(view.file_at(i).0)?;
    }
    Ok(ids)
}

impl Core {
    /// Why no compaction of these files starts.
    fn start_refusal(&self, job: u32, files: &FileIds) -> Option<StepRefusal>
        ensures { IsRefusal result (refuse (rules_of self.now.view.config) (state_of self.now) (model.compact job files.now)) }
    {
        if self.jobs.find(job).is_some() {
            return Some(StepRefusal::JobExists(job));
        }
        if files.len() == 0 {
            return Some(StepRefusal::NoFiles);
        }
        if let Some(file) = first_missing(&self.view, files) {
            return Some(StepRefusal::NoSuchFile(file));
        }
        match self.jobs.first_taken(files) {
            Some((file, job)) => Some(StepRefusal::InJob { file, job }),
            None => None,
        }
    }

    /// Why no compaction of all files starts.
    fn start_all_refusal(&self, job: u32) -> Option<StepRefusal>
        ensures { IsRefusal result (refuse (rules_of self.now.view.config) (state_of self.now) (model.compact_all job)) }
    {
        if self.jobs.find(job).is_some() {
            return Some(StepRefusal::JobExists(job));
        }
        if self.view.file_count() == 0 {
            return Some(StepRefusal::NoFiles);
        }
        match first_held(&self.view, &self.jobs) {
            Some((file, job)) => Some(StepRefusal::InJob { file, job }),
            None => None,
        }
    }

    /// Puts a job that may start behind the others; without memory nothing is changed.
    fn start(
        &mut self,
        alloc: Global,
        job: u32,
        full: bool,
        files: &FileIds,
    ) -> Result<(), NoMemory>
        requires free { refuse (rules_of self.old.view.config) (state_of self.old) (model.compact job files.now) ≡ None }
        requires full { full ≡ takes_all files.now self.old.view.files }
        ensures { self.new ≡ (if is_ok result
            then record self.old { jobs = self.old.jobs ++ record { job = job; full = full; ids = files.now } ∷ [] }
            else self.old) }
    {
        // That the core stands before the step is what `view` says.
        let _ = self.view();
        let files = files.copy(alloc)?;
        self.jobs.start(JobState { job, full, files })
    }

    /// A compaction of these files starts. It is a full one exactly where these are all files.
    pub(super) fn compact(&mut self, alloc: Global, job: u32, files: &FileIds) -> Answer
        ensures { Answers (model.compact job files.now) self.old self.new (model_answer_of result) }
    {
        if let Some(refusal) = self.start_refusal(job, files) {
            return Answer::Refused(refusal);
        }
        let full = takes_all(self.view(), files);
        match self.start(alloc, job, full, files) {
            Ok(()) => Answer::Started { job, full },
            Err(_) => Answer::NoMemory,
        }
    }

    /// A full compaction of all files starts.
    pub(super) fn compact_all(&mut self, alloc: Global, job: u32) -> Answer
        ensures { Answers (model.compact_all job) self.old self.new (model_answer_of result) }
    {
        if let Some(refusal) = self.start_all_refusal(job) {
            return Answer::Refused(refusal);
        }
        match file_ids(self.view(), alloc) {
            Ok(files) => self.compact(alloc, job, &files),
            Err(_) => Answer::NoMemory,
        }
    }
}
