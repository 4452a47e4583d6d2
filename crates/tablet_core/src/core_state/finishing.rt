//! A compaction is made, and its file stands in the place of its files.
ghost use Rattle.std.specs.Prelude.{◌≡◌, ◌<◌, ◌^◌, cond, true, is_some, map, option_map, IfOk, IfSome, OnErr, MatchResult};
ghost use Rattle.std.specs.Arc.{arc_value};
ghost use Rattle.tablet_model.specs.Steps as model;
ghost use Rattle.tablet_model.specs.Steps.{find_job, made_by};
ghost use Rattle.tablet_model.specs.Store.{input_of, files_with};
ghost use Rattle.iter_config.specs.RulesOf.{rules_of};
ghost use Rattle.compactor.specs.Compacted.{entries_made};
ghost use Rattle.compactor.specs.PartCells.{part_cells};
ghost use Rattle.compactor.specs.Jobs.{job_of};
ghost use Rattle.tablet_view.specs.Snapshot.{after_major};
ghost use Rattle.tablet_steps.specs.ModelSteps.{model_answer_of};
ghost use Rattle.tablet_core.specs.Jobs.{major_of};
ghost use Rattle.tablet_core.specs.State.{Answers, state_of};

use super::Core;
use cell_key::{FileIds, NoMemory};
use compactor::{DoneJob, Job, JobState, PartCursor};
use iter_stack::Usage;
use std::alloc::Global;
use std::sync::Arc;
use tablet_steps::{Answer, StepRefusal};
use tablet_view::View;

/// What a major compaction runs: only one of all files drops markers.
fn usage_of(full: bool) -> Usage
    ensures { result ≡ cond full Usage.MajcFull Usage.MajcPart }
{
    if full {
        Usage::MajcFull
    } else {
        Usage::MajcPart
    }
}

/// The entries of each of some files of a view.
fn parts(view: &View, files: &FileIds, alloc: Global) -> Result<Vec<PartCursor>, NoMemory>
    ensures { IfOk result (λ parts. map part_cells parts.items ≡ map (λ file. file.cells) (files_with files.now view.now.files)) }
{
    let mut parts = Vec::new(alloc);
    for i in 0..view.file_count() {
        if files.has(view.file_at(i).0) {
            parts.push(view.file_cursor(alloc, i)?)?;
        }
    }
    Ok(parts)
}

/// The compaction of a running job.
fn major(view: &View, running: &JobState, alloc: Global) -> Result<Job, NoMemory>
    ensures { IfOk result (λ job. job ≡ major_of view.now (job_of running.now)) }
{
    let parts = parts(view, &running.files, alloc)?;
    let config = Arc::try_clone(view.config())?;
    Job::new(alloc, config, usage_of(running.full), parts)
}

impl Core {
    /// The compaction of a running job, `None` exactly where there is no such job. It takes memory only where there is one.
    pub fn major_job(&self, alloc: Global, job: u32) -> Result<Option<Job>, NoMemory>
        ensures job { IfOk result (λ made. made ≡ option_map (major_of self.now.view) (find_job job self.now.jobs)) }
        ensures needed { OnErr result (is_some (find_job job self.now.jobs) ≡ true) }
    {
        match self.jobs.find(job) {
            Some(running) => Ok(Some(major(&self.view, running, alloc)?)),
            None => Ok(None),
        }
    }

    /// The view where a job's file stands in the place of its files, `None` exactly where there is no such job.
    fn replaced(
        &self,
        alloc: Global,
        job: u32,
        done: &DoneJob,
    ) -> Result<Option<Arc<View>>, NoMemory>
        requires version { self.now.view.version < 2 ^ 63 }
        requires made { IfSome (find_job job self.now.jobs) (λ t. entries_made done.now ≡ made_by (rules_of self.now.view.config) (state_of self.now) t) }
        ensures { MatchResult result
            (λ view. option_map (λ v. arc_value v) view
            ≡ option_map (λ t. after_major self.now.view t.ids self.now.next (entries_made done.now)) (find_job job self.now.jobs))
            (λ _. is_some (find_job job self.now.jobs) ≡ true) }
    {
        match self.jobs.find(job) {
            Some(running) => {
                let view = self
                    .view
                    .install_major(alloc, &running.files, self.next, done)?;
                Ok(Some(Arc::new(alloc, view)?))
            }
            None => Ok(None),
        }
    }

    /// The file of a job stands in the place of the job's files, whose compaction it has to be, and the job is over.
    pub fn install_finish(&mut self, alloc: Global, job: u32, done: &DoneJob) -> Answer
        requires version { self.old.view.version < 2 ^ 63 }
        requires made { IfSome (find_job job self.old.jobs) (λ t. entries_made done.now ≡ made_by (rules_of self.old.view.config) (state_of self.old) t) }
        ensures { Answers (model.finish job) self.old self.new (model_answer_of result) }
    {
        // That the core stands before the step is what `view` says.
        let _ = self.view();
        match self.replaced(alloc, job, done) {
            Ok(Some(view)) => {
                let file = self.next;
                self.next = file + 1;
                self.view = view;
                self.jobs.end(job);
                Answer::Finished {
                    job,
                    file,
                    count: done.file().count(),
                }
            }
            Ok(None) => Answer::Refused(StepRefusal::NoSuchJob(job)),
            Err(_) => Answer::NoMemory,
        }
    }

    /// The compaction of a running job, made.
    fn finished(&self, alloc: Global, job: u32) -> Result<Option<DoneJob>, NoMemory>
        ensures job { IfOk result (λ done. done ≡ option_map (major_of self.now.view) (find_job job self.now.jobs)) }
        ensures needed { OnErr result (is_some (find_job job self.now.jobs) ≡ true) }
    {
        match self.major_job(alloc, job)? {
            Some(job) => Ok(Some(job.run(alloc)?)),
            None => Ok(None),
        }
    }

    /// A job is made, and its file stands in the place of its files.
    pub(super) fn finish(&mut self, alloc: Global, job: u32) -> Answer
        requires { self.old.view.version < 2 ^ 63 }
        ensures { Answers (model.finish job) self.old self.new (model_answer_of result) }
    {
        match self.finished(alloc, job) {
            Ok(Some(done)) => self.install_finish(alloc, job, &done),
            Ok(None) => Answer::Refused(StepRefusal::NoSuchJob(job)),
            Err(_) => Answer::NoMemory,
        }
    }
}
