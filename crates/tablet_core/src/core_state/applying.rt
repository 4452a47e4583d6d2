//! A mutation comes in.
ghost use Rattle.std.specs.Prelude.{◌≡◌, ◌<◌, ◌^◌, None, MatchResult};
ghost use Rattle.std.specs.Arc.{arc_value};
ghost use Rattle.tablet_model.specs.Steps as model;
ghost use Rattle.cell_key.specs.Mutations.{row_change_of};
ghost use Rattle.tablet_view.specs.Refusals.{refusal_in};
ghost use Rattle.tablet_view.specs.Snapshot.{after_apply, refused_by};
ghost use Rattle.tablet_steps.specs.ModelSteps.{model_answer_of};
ghost use Rattle.tablet_core.specs.State.{Answers};

use super::Core;
use cell_key::{Mutation, NoMemory};
use std::alloc::Global;
use std::sync::Arc;
use tablet_steps::{Answer, StepRefusal};
use tablet_view::{ApplyError, View};

impl Core {
    fn applied(&self, alloc: Global, mutation: &Mutation) -> Result<Arc<View>, ApplyError>
        requires { self.now.view.version < 2 ^ 63 }
        ensures { MatchResult result
            (λ view. (refused_by self.now.view (row_change_of mutation.now) ≡ None)
            × (arc_value view ≡ after_apply self.now.view (row_change_of mutation.now)))
            (λ error. refused_by self.now.view (row_change_of mutation.now) ≡ refusal_in error) }
    {
        let view = self.view.apply(alloc, mutation)?;
        Ok(Arc::new(alloc, view).map_err(NoMemory::from)?)
    }

    /// A mutation comes in, or is refused and changes nothing, as a step by `Event::Apply` does. Without memory nothing is changed.
    pub fn apply(&mut self, alloc: Global, mutation: &Mutation) -> Answer
        requires { self.old.view.version < 2 ^ 63 }
        ensures { Answers (model.apply (row_change_of mutation.now)) self.old self.new (model_answer_of result) }
    {
        // That the core stands before the step is what `view` says.
        let _ = self.view();
        match self.applied(alloc, mutation) {
            Ok(view) => {
                let number = view.mutations();
                self.view = view;
                Answer::Applied(number)
            }
            Err(ApplyError::Refused(refused)) => Answer::Refused(StepRefusal::Mutation(refused)),
            Err(ApplyError::NoMemory) => Answer::NoMemory,
        }
    }
}
