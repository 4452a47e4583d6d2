//! The loader takes mutations in, chunk by chunk, beside the jobs that wait, and publishes what they come to.
ghost use Rattle.std.specs.Prelude.{◌≡◌, ◌≤◌, ◌++◌, Some, map, OnOk, IfOk};
ghost use Rattle.cell_key.specs.Mutations.{row_change_of};
ghost use Rattle.tablet_steps.specs.ModelSteps.{model_answer_of};
ghost use Rattle.tablet_view.specs.Extending.{Extends};
ghost use Rattle.tablet_loader.specs.Loads.{after_changes, after_chunk, after_chunks, after_jobs, answers_to, chunks_of, log_with_all};
ghost use Rattle.tablet_loader.specs.States.{load_of, rules_in};
ghost use Rattle.tablet_loader.specs.Waiting.{waiting_flush, waiting_major};
ghost use Rattle.live_tablet.specs.States.{load_in, rules_of_loader};

use crate::loader::Loader;
use cell_key::{Mutation, NoMemory};
use std::alloc::Global;
use std::sync::Wait;
use std::thread::{Threads, join_mut};
use tablet_io::Gate;
use tablet_loader::{Answers, DoneJobs, Jobs};

/// Mutations come in while jobs are run.
fn apply_beside<R: Threads + Sync>(
    rt: &R,
    alloc: Global,
    load: &mut tablet_loader::Loader,
    jobs: &Jobs,
    mutations: &[Mutation],
    answers: &mut Answers,
) -> Result<DoneJobs, NoMemory>
    ensures load { OnOk result (load_of load.new ≡ after_changes (rules_in load.old) (load_of load.old) (map row_change_of mutations.now)) }
    ensures log { OnOk result (load.new.core.view.log ≡ log_with_all (rules_in load.old) load.old.core.view.log (map row_change_of mutations.now)) }
    ensures answers { OnOk result (map model_answer_of answers.new
        ≡ map model_answer_of answers.old ++ map (λ a. Some a) (answers_to (rules_in load.old) load.old.core.view.log (map row_change_of mutations.now))) }
    ensures extends { OnOk result (Extends load.new.core.view load.old.core.view) }
    ensures flush { IfOk result (λ done. (done.flush ≡ jobs.now.flush) × (waiting_flush load.new ≡ waiting_flush load.old)) }
    ensures major { IfOk result (λ done. (done.major ≡ jobs.now.major) × (waiting_major load.new ≡ waiting_major load.old)) }
{
    let load = &mut *load;
    let mutations = &*mutations;
    let answers = &mut *answers;
    let (done, applied) = join_mut(
        rt,
        &mut || jobs.run(alloc),
        &mut || load.apply_chunk(alloc, mutations, answers),
    );
    applied?;
    done
}

/// A chunk comes in beside the jobs that wait, these are ended, and its own are begun.
fn load_beside_jobs<R: Threads + Sync>(
    rt: &R,
    alloc: Global,
    load: &mut tablet_loader::Loader,
    mutations: &[Mutation],
    answers: &mut Answers,
) -> Result<(), NoMemory>
    ensures load { OnOk result (load_of load.new ≡ after_chunk (rules_in load.old) (load_of load.old) (map row_change_of mutations.now)) }
    ensures log { OnOk result (load.new.core.view.log ≡ log_with_all (rules_in load.old) load.old.core.view.log (map row_change_of mutations.now)) }
    ensures answers { OnOk result (map model_answer_of answers.new
        ≡ map model_answer_of answers.old ++ map (λ a. Some a) (answers_to (rules_in load.old) load.old.core.view.log (map row_change_of mutations.now))) }
    ensures extends { OnOk result (Extends load.new.core.view load.old.core.view) }
{
    let jobs = load.jobs(alloc)?;
    let done = apply_beside(rt, alloc, load, &jobs, mutations, answers)?;
    load.install_jobs(alloc, &done)?;
    load.begin_jobs(alloc)
}

impl Loader {
    /// A chunk comes in beside the jobs that wait, these are ended, its own are begun, and what it came to is published, once the gate
    /// lets it. It takes memory, and may wait for readers.
    pub fn load_chunk<R: Threads + Wait + Sync, G: Gate>(
        &mut self,
        rt: &R,
        alloc: Global,
        mutations: &[Mutation],
        answers: &mut Answers,
        gate: &G,
    ) -> Result<(), NoMemory>
        requires { Extends self.old.core.view self.old.published }
        ensures load { OnOk result (load_in self.new ≡ after_chunk (rules_of_loader self.old) (load_in self.old) (map row_change_of mutations.now)) }
        ensures log { OnOk result (self.new.core.view.log ≡ log_with_all (rules_of_loader self.old) self.old.core.view.log (map row_change_of mutations.now)) }
        ensures answers { OnOk result (map model_answer_of answers.new
            ≡ map model_answer_of answers.old ++ map (λ a. Some a) (answers_to (rules_of_loader self.old) self.old.core.view.log (map row_change_of mutations.now))) }
        ensures extends { OnOk result (Extends self.new.core.view self.old.core.view) }
        ensures published { OnOk result (self.new.published ≡ self.new.core.view) }
        ensures tablet { OnOk result (self.new.tablet ≡ self.old.tablet) }
    {
        load_beside_jobs(rt, alloc, &mut self.load, mutations, answers)?;
        self.publish_through(rt, alloc, gate)
    }

    /// The jobs that wait are ended, and what is there then is published, once the gate lets it. It takes memory, and may wait for
    /// readers.
    pub fn finish<R: Wait, G: Gate>(
        &mut self,
        rt: &R,
        alloc: Global,
        gate: &G,
    ) -> Result<(), NoMemory>
        requires { Extends self.old.core.view self.old.published }
        ensures load { OnOk result (load_in self.new ≡ after_jobs (rules_of_loader self.old) (load_in self.old)) }
        ensures log { OnOk result (self.new.core.view.log ≡ self.old.core.view.log) }
        ensures extends { OnOk result (Extends self.new.core.view self.old.core.view) }
        ensures published { OnOk result (self.new.published ≡ self.new.core.view) }
        ensures tablet { OnOk result (self.new.tablet ≡ self.old.tablet) }
    {
        self.load.finish_jobs(alloc)?;
        self.publish_through(rt, alloc, gate)
    }

    /// Mutations come in, chunk by chunk, and the jobs of the last chunk are ended. It takes memory, and may wait for readers.
    pub fn load_rest<R: Threads + Wait + Sync, G: Gate>(
        &mut self,
        rt: &R,
        alloc: Global,
        mutations: &[Mutation],
        chunk: u32,
        answers: &mut Answers,
        gate: &G,
    ) -> Result<(), NoMemory>
        requires chunk { 1 ≤ chunk }
        requires shown { self.old.published ≡ self.old.core.view }
        ensures load { OnOk result (load_in self.new
            ≡ after_jobs (rules_of_loader self.old) (after_chunks (rules_of_loader self.old) (load_in self.old) (chunks_of chunk (map row_change_of mutations.now)))) }
        ensures log { OnOk result (self.new.core.view.log ≡ log_with_all (rules_of_loader self.old) self.old.core.view.log (map row_change_of mutations.now)) }
        ensures answers { OnOk result (map model_answer_of answers.new
            ≡ map model_answer_of answers.old ++ map (λ a. Some a) (answers_to (rules_of_loader self.old) self.old.core.view.log (map row_change_of mutations.now))) }
        ensures extends { OnOk result (Extends self.new.core.view self.old.core.view) }
        ensures published { OnOk result (self.new.published ≡ self.new.core.view) }
        ensures tablet { OnOk result (self.new.tablet ≡ self.old.tablet) }
    {
        for mutations in mutations.chunks(chunk as usize) {
            self.load_chunk(rt, alloc, mutations, answers, gate)?;
        }
        self.finish(rt, alloc, gate)
    }
}
