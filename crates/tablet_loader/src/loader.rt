//! A tablet that is loaded.
ghost use Rattle.std.specs.Prelude.{◌≡◌, ◌++◌, [], ◌∷◌, Some, map, IfOk, OnOk};
ghost use Rattle.std.specs.Arc.{arc_value};
ghost use Rattle.cell_key.specs.Mutations.{row_change_of};
ghost use Rattle.tablet_steps.specs.ModelSteps.{model_answer_of};
ghost use Rattle.tablet_core.specs.State.{empty_core};
ghost use Rattle.tablet_view.specs.Extending.{Extends};
ghost use Rattle.tablet_loader.specs.Loads.{after_begin, after_changes, after_chunk, after_jobs, after_start, answers_to, log_with_all};
ghost use Rattle.tablet_loader.specs.States.{load_of, rules_in};
ghost use Rattle.tablet_loader.specs.Waiting.{waiting_flush, waiting_major};

use crate::jobs::{DoneJobs, Jobs};
use crate::step::{apply, put_flush, put_major, step};
use cell_key::{FileIds, Items, Mutation, NoMemory};
use compactor::{Plan, plan};
use iter_config::Config;
use std::alloc::Global;
use std::sync::Arc;
use tablet_core::{Answer, Core, Event};

/// The answers to mutations, in their order.
pub type Answers = Items<Answer>;

/// A tablet that is loaded: its core, and the number of the job that was started last, 0 where none was.
///
/// A chunk of mutations comes in by [`apply_chunk`](Loader::apply_chunk), then [`finish_jobs`](Loader::finish_jobs) ends the jobs of
/// the chunk before, and [`begin_jobs`](Loader::begin_jobs) begins its own. A caller may also run the [`jobs`](Loader::jobs) beside the
/// next chunk, and put what they made in place by [`install_jobs`](Loader::install_jobs).
///
/// Each method answers `Err` only where memory is wanting, or where 2^63 views or 2^32 jobs were made already. The loader is then at
/// one of the steps on the way.
#[derive(Drop)]
pub struct Loader {
    pub core: Core,
    pub job: u32,
}

impl Loader {
    /// A tablet of no mutations. It takes memory.
    pub fn open(alloc: Global, config: Arc<Config>) -> Result<Loader, NoMemory>
        ensures core { IfOk result (λ loader. loader.core ≡ empty_core (arc_value config)) }
        ensures job { IfOk result (λ loader. loader.job ≡ 0) }
    {
        let core = Core::open(alloc, config)?;
        Ok(Loader { core, job: 0 })
    }

    /// Mutations come in, in turn; the answers to them are put behind the others. A refused one changes nothing, and the jobs that wait
    /// stay as they are.
    pub fn apply_chunk(
        &mut self,
        alloc: Global,
        mutations: &[Mutation],
        answers: &mut Answers,
    ) -> Result<(), NoMemory>
        ensures load { OnOk result (load_of self.new ≡ after_changes (rules_in self.old) (load_of self.old) (map row_change_of mutations.now)) }
        ensures log { OnOk result (self.new.core.view.log ≡ log_with_all (rules_in self.old) self.old.core.view.log (map row_change_of mutations.now)) }
        ensures answers { OnOk result (map model_answer_of answers.new
            ≡ map model_answer_of answers.old ++ map (λ a. Some a) (answers_to (rules_in self.old) self.old.core.view.log (map row_change_of mutations.now))) }
        ensures extends { OnOk result (Extends self.new.core.view self.old.core.view) }
        ensures flush { OnOk result (waiting_flush self.new ≡ waiting_flush self.old) }
        ensures major { OnOk result (waiting_major self.new ≡ waiting_major self.old) }
    {
        self.apply_all(alloc, mutations, answers)
    }

    fn apply_all(
        &mut self,
        alloc: Global,
        mutations: &[Mutation],
        answers: &mut Answers,
    ) -> Result<(), NoMemory>
        ensures load { OnOk result (load_of self.new ≡ after_changes (rules_in self.old) (load_of self.old) (map row_change_of mutations.now)) }
        ensures log { OnOk result (self.new.core.view.log ≡ log_with_all (rules_in self.old) self.old.core.view.log (map row_change_of mutations.now)) }
        ensures answers { OnOk result (map model_answer_of answers.new
            ≡ map model_answer_of answers.old ++ map (λ a. Some a) (answers_to (rules_in self.old) self.old.core.view.log (map row_change_of mutations.now))) }
        ensures extends { OnOk result (Extends self.new.core.view self.old.core.view) }
    {
        for mutation in mutations {
            answers.push(apply(&mut self.core, alloc, mutation)?)?;
        }
        Ok(())
    }

    /// The frozen part is written to a file, and the last job's file stands in the place of its files, where there are such.
    #[tactic(auto, unfolding(crate::specs::Loads::after_jobs, tablet_model::specs::Steps::log_after))]
    pub fn finish_jobs(&mut self, alloc: Global) -> Result<(), NoMemory>
        ensures load { OnOk result (load_of self.new ≡ after_jobs (rules_in self.old) (load_of self.old)) }
        ensures log { OnOk result (self.new.core.view.log ≡ self.old.core.view.log) }
        ensures extends { OnOk result (Extends self.new.core.view self.old.core.view) }
    {
        step(&mut self.core, alloc, &Event::Flush)?;
        step(&mut self.core, alloc, &Event::Finish { job: self.job })?;
        Ok(())
    }

    /// The jobs that wait: the flush of the frozen part, and the last job, where it runs. It takes memory.
    pub fn jobs(&self, alloc: Global) -> Result<Jobs, NoMemory>
        ensures flush { IfOk result (λ jobs. jobs.flush ≡ waiting_flush self.now) }
        ensures major { IfOk result (λ jobs. jobs.major ≡ waiting_major self.now) }
    {
        let flush = self.core.flush_job(alloc)?;
        let major = self.core.major_job(alloc, self.job)?;
        Ok(Jobs { flush, major })
    }

    /// What the jobs that wait made is put in place: the same as [`finish_jobs`](Loader::finish_jobs), with nothing left to be made.
    #[tactic(auto, using(crate::proofs::Waiting::major_in_time), unfolding(crate::specs::Loads::after_jobs, tablet_model::specs::Steps::log_after))]
    pub fn install_jobs(&mut self, alloc: Global, done: &DoneJobs) -> Result<(), NoMemory>
        requires flush { done.now.flush ≡ waiting_flush self.old }
        requires major { done.now.major ≡ waiting_major self.old }
        ensures load { OnOk result (load_of self.new ≡ after_jobs (rules_in self.old) (load_of self.old)) }
        ensures log { OnOk result (self.new.core.view.log ≡ self.old.core.view.log) }
        ensures extends { OnOk result (Extends self.new.core.view self.old.core.view) }
    {
        // That the core stands is what `view` says.
        let _ = self.core.view();
        put_flush(&mut self.core, alloc, &done.flush)?;
        put_major(&mut self.core, alloc, self.job, &done.major)
    }

    /// Starts a job over these files under the next number.
    #[tactic(auto, unfolding(tablet_model::specs::Steps::log_after))]
    fn start(&mut self, alloc: Global, files: &Plan) -> Result<(), NoMemory>
        ensures load { OnOk result (load_of self.new ≡ after_start (rules_in self.old) (load_of self.old) (Some files.now)) }
        ensures log { OnOk result (self.new.core.view.log ≡ self.old.core.view.log) }
        ensures extends { OnOk result (Extends self.new.core.view self.old.core.view) }
    {
        let job = self.job.checked_add(1).ok_or(NoMemory)?;
        let files = FileIds::of(alloc, files.ids())?;
        step(&mut self.core, alloc, &Event::Compact { job, files })?;
        self.job = job;
        Ok(())
    }

    /// The memory is frozen where there is any and no frozen part, and a compaction of what the planner chooses is started, under the
    /// next number, where it chooses any files.
    pub fn begin_jobs(&mut self, alloc: Global) -> Result<(), NoMemory>
        ensures load { OnOk result (load_of self.new ≡ after_begin (rules_in self.old) (load_of self.old)) }
        ensures log { OnOk result (self.new.core.view.log ≡ self.old.core.view.log) }
        ensures extends { OnOk result (Extends self.new.core.view self.old.core.view) }
    {
        step(&mut self.core, alloc, &Event::Freeze)?;
        // That there are few files is what `view` says.
        let _ = self.core.view();
        let status = self.core.status(alloc)?;
        match plan(status.files.as_slice()) {
            Some(files) => self.start(alloc, &files),
            None => Ok(()),
        }
    }

    /// A chunk comes in, the jobs of the one before are ended, and its own begun.
    pub fn load_chunk(
        &mut self,
        alloc: Global,
        mutations: &[Mutation],
        answers: &mut Answers,
    ) -> Result<(), NoMemory>
        ensures load { OnOk result (load_of self.new ≡ after_chunk (rules_in self.old) (load_of self.old) (map row_change_of mutations.now)) }
        ensures log { OnOk result (self.new.core.view.log ≡ log_with_all (rules_in self.old) self.old.core.view.log (map row_change_of mutations.now)) }
        ensures answers { OnOk result (map model_answer_of answers.new
            ≡ map model_answer_of answers.old ++ map (λ a. Some a) (answers_to (rules_in self.old) self.old.core.view.log (map row_change_of mutations.now))) }
        ensures extends { OnOk result (Extends self.new.core.view self.old.core.view) }
    {
        self.apply_chunk(alloc, mutations, answers)?;
        self.finish_jobs(alloc)?;
        self.begin_jobs(alloc)
    }
}
