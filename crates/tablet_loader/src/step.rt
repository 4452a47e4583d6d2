//! Steps that find memory.
ghost use Rattle.std.specs.Prelude.{◌≡◌, Some, IfOk, OnOk};
ghost use Rattle.tablet_model.specs.Steps as model;
ghost use Rattle.tablet_model.specs.Steps.{answer_to_step};
ghost use Rattle.iter_config.specs.RulesOf.{rules_of};
ghost use Rattle.cell_key.specs.Mutations.{row_change_of};
ghost use Rattle.tablet_steps.specs.ModelSteps.{event_of, model_answer_of};
ghost use Rattle.tablet_core.specs.State.{IsStep, state_of};
ghost use Rattle.tablet_loader.specs.Waiting.{IsMadeBy, flush_in};

use cell_key::{Mutation, NoMemory};
use compactor::DoneJob;
use std::alloc::Global;
use tablet_core::{Answer, Core, Event};

/// The first number of a view behind which no step is made. No memory has as many views.
const END_OF_VERSIONS: u64 = 1 << 63;

/// A step, refused or made; `Err` where memory is wanting, or where 2^63 views were made already.
pub fn step(core: &mut Core, alloc: Global, event: &Event) -> Result<Answer, NoMemory>
    ensures made { OnOk result (IsStep (event_of event.now) core.old core.new) }
{
    if core.view().version() >= END_OF_VERSIONS {
        return Err(NoMemory);
    }
    match core.step(alloc, event) {
        Answer::NoMemory => Err(NoMemory),
        answer => Ok(answer),
    }
}

/// A mutation comes in, or is refused; `Err` as with [`step`].
pub fn apply(core: &mut Core, alloc: Global, mutation: &Mutation) -> Result<Answer, NoMemory>
    ensures made { OnOk result (IsStep (model.apply (row_change_of mutation.now)) core.old core.new) }
    ensures answer { IfOk result (λ answer. model_answer_of answer ≡ Some (answer_to_step (rules_of core.old.view.config) (state_of core.old) (model.apply (row_change_of mutation.now)))) }
{
    if core.view().version() >= END_OF_VERSIONS {
        return Err(NoMemory);
    }
    match core.apply(alloc, mutation) {
        Answer::NoMemory => Err(NoMemory),
        answer => Ok(answer),
    }
}

/// What the flush of the frozen part made is put in its place; where there is no frozen part, the step is refused. `Err` as with
/// [`step`].
pub fn put_flush(core: &mut Core, alloc: Global, done: &Option<DoneJob>) -> Result<(), NoMemory>
    requires { done.now ≡ flush_in core.old }
    ensures { OnOk result (IsStep model.flush core.old core.new) }
{
    let Some(done) = done else {
        step(core, alloc, &Event::Flush)?;
        return Ok(());
    };
    if core.view().version() >= END_OF_VERSIONS {
        return Err(NoMemory);
    }
    match core.install_flush(alloc, done) {
        Answer::NoMemory => Err(NoMemory),
        _ => Ok(()),
    }
}

/// What the job of a number made is put in the place of the job's files; where there is no such job, the step is refused. `Err` as
/// with [`step`].

pub fn put_major(
    core: &mut Core,
    alloc: Global,
    job: u32,
    done: &Option<DoneJob>,
) -> Result<(), NoMemory>
    requires { IsMadeBy core.old job done.now }
    ensures { OnOk result (IsStep (model.finish job) core.old core.new) }
{
    let Some(done) = done else {
        step(core, alloc, &Event::Finish { job })?;
        return Ok(());
    };
    if core.view().version() >= END_OF_VERSIONS {
        return Err(NoMemory);
    }
    match core.install_finish(alloc, job, done) {
        Answer::NoMemory => Err(NoMemory),
        _ => Ok(()),
    }
}
