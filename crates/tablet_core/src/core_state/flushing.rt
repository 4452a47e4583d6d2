//! The frozen part becomes a file.
ghost use Rattle.std.specs.Prelude.{◌≡◌, ◌<◌, ◌^◌, [], None, option_map, unwrap_or, is_some, true, IfOk, IfSome, IsSome, OnErr};
ghost use Rattle.std.specs.Arc.{arc_value};
ghost use Rattle.tablet_model.specs.Compactions.{minor_compaction};
ghost use Rattle.tablet_model.specs.Steps as model;
ghost use Rattle.tablet_model.specs.Steps.{refuse};
ghost use Rattle.iter_config.specs.RulesOf.{rules_of};
ghost use Rattle.compactor.specs.Compacted.{entries_made};
ghost use Rattle.tablet_view.specs.Snapshot.{after_flush};
ghost use Rattle.tablet_steps.specs.ModelSteps.{model_answer_of};
ghost use Rattle.tablet_core.specs.Jobs.{flush_of};
ghost use Rattle.tablet_core.specs.State.{Answers, IsRefusal, state_of};

use super::Core;
use cell_key::NoMemory;
use compactor::{DoneJob, Job};
use iter_stack::Usage;
use std::alloc::Global;
use std::sync::Arc;
use tablet_steps::{Answer, StepRefusal};
use tablet_view::View;

/// The most files where a frozen part is written.
const MAX_FILES: usize = 64;

impl Core {
    /// Why no file is written.
    fn flush_refusal(&self) -> Option<StepRefusal>
        ensures { IsRefusal result (refuse (rules_of self.now.view.config) (state_of self.now) model.flush) }
    {
        if self.view.frozen_count().is_none() {
            return Some(StepRefusal::NothingFrozen);
        }
        if self.view.file_count() >= MAX_FILES {
            return Some(StepRefusal::TooManyFiles);
        }
        None
    }

    /// The minor compaction of the frozen part, `None` exactly where there is none. It takes memory only where there is one.
    pub fn flush_job(&self, alloc: Global) -> Result<Option<Job>, NoMemory>
        ensures job { IfOk result (λ job. job ≡ option_map (flush_of self.now.view) self.now.view.frozen) }
        ensures needed { OnErr result (is_some self.now.view.frozen ≡ true) }
    {
        if self.view.frozen_count().is_none() {
            return Ok(None);
        }
        let mut parts = Vec::new(alloc);
        parts.push(self.view.frozen_cursor(alloc)?)?;
        let config = Arc::try_clone(self.view.config())?;
        Ok(Some(Job::new(alloc, config, Usage::Minc, parts)?))
    }

    fn view_after_flush(&self, alloc: Global, done: &DoneJob) -> Result<Arc<View>, NoMemory>
        requires version { self.now.view.version < 2 ^ 63 }
        requires frozen { IsSome self.now.view.frozen }
        requires made { entries_made done.now ≡ minor_compaction (rules_of self.now.view.config).minor (unwrap_or self.now.view.frozen []) }
        ensures { IfOk result (λ view. arc_value view ≡ after_flush self.now.view self.now.next (entries_made done.now)) }
    {
        let view = self.view.install_flush(alloc, self.next, done)?;
        Ok(Arc::new(alloc, view)?)
    }

    /// The file of a job stands in the place of the frozen part, whose minor compaction the job has to be.
    pub fn install_flush(&mut self, alloc: Global, done: &DoneJob) -> Answer
        requires version { self.old.view.version < 2 ^ 63 }
        requires made { IfSome self.old.view.frozen (λ z. entries_made done.now ≡ minor_compaction (rules_of self.old.view.config).minor z) }
        ensures { Answers model.flush self.old self.new (model_answer_of result) }
    {
        if let Some(refusal) = self.flush_refusal() {
            return Answer::Refused(refusal);
        }
        // That the core stands before the step is what `view` says.
        let _ = self.view();
        match self.view_after_flush(alloc, done) {
            Ok(view) => {
                let file = self.next;
                self.next = file + 1;
                self.view = view;
                Answer::Flushed {
                    file,
                    count: done.file().count(),
                }
            }
            Err(_) => Answer::NoMemory,
        }
    }

    /// The minor compaction of the frozen part, made.
    fn written(&self, alloc: Global) -> Result<Option<DoneJob>, NoMemory>
        ensures { IfOk result (λ done. done ≡ option_map (flush_of self.now.view) self.now.view.frozen) }
    {
        match self.flush_job(alloc)? {
            Some(job) => Ok(Some(job.run(alloc)?)),
            None => Ok(None),
        }
    }

    /// The frozen part becomes a file.
    pub(super) fn flush(&mut self, alloc: Global) -> Answer
        requires { self.old.view.version < 2 ^ 63 }
        ensures { Answers model.flush self.old self.new (model_answer_of result) }
    {
        if let Some(refusal) = self.flush_refusal() {
            return Answer::Refused(refusal);
        }
        match self.written(alloc) {
            Ok(Some(done)) => self.install_flush(alloc, &done),
            Ok(None) => Answer::Refused(StepRefusal::NothingFrozen),
            Err(_) => Answer::NoMemory,
        }
    }
}
