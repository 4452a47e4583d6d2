//! A whole load.
ghost use Rattle.std.specs.Prelude.{◌≡◌, ◌≤◌, [], Some, map, IfOk, OnOk};
ghost use Rattle.std.specs.Arc.{arc_value};
ghost use Rattle.iter_config.specs.RulesOf.{rules_of};
ghost use Rattle.cell_key.specs.Mutations.{row_change_of};
ghost use Rattle.tablet_core.specs.State.{state_of};
ghost use Rattle.tablet_steps.specs.ModelSteps.{model_answer_of};
ghost use Rattle.tablet_loader.specs.Loads.{after_plan, answers_to, log_with_all};

use crate::loader::{Answers, Loader};
use cell_key::{Mutation, Mutations, NoMemory};
use iter_config::Config;
use std::alloc::Global;
use std::sync::Arc;
use tablet_core::Core;

/// A tablet into which mutations were loaded, and the answers to them.
#[derive(Drop)]
pub struct Planned {
    pub core: Core,
    pub answers: Answers,
}

/// Loads mutations into a new tablet, in chunks of so many: each chunk comes in, then the flush and the compaction begun behind the
/// chunk before are ended, and its own are begun. It takes memory, and without it answers `Err`; so it does beyond 2^63 views or
/// 2^32 jobs.
pub fn run_plan(
    alloc: Global,
    config: Arc<Config>,
    mutations: &Mutations,
    chunk: u32,
) -> Result<Planned, NoMemory>
    requires { 1 ≤ chunk }
    ensures store { IfOk result (λ planned. state_of planned.core ≡ (after_plan (rules_of (arc_value config)) chunk (map row_change_of mutations.now)).store) }
    ensures log { IfOk result (λ planned. planned.core.view.log ≡ log_with_all (rules_of (arc_value config)) [] (map row_change_of mutations.now)) }
    ensures config { IfOk result (λ planned. planned.core.view.config ≡ arc_value config) }
    ensures answers { IfOk result (λ planned. map model_answer_of planned.answers ≡ map (λ a. Some a) (answers_to (rules_of (arc_value config)) [] (map row_change_of mutations.now))) }
{
    let mut loader = Loader::open(alloc, config)?;
    let mut answers = Answers::new(alloc);
    for mutations in mutations.as_slice().chunks(chunk as usize) {
        loader.load_chunk(alloc, mutations, &mut answers)?;
    }
    loader.finish_jobs(alloc)?;
    Ok(Planned {
        core: loader.core,
        answers,
    })
}
