//! The memory is frozen.
ghost use Rattle.std.specs.Prelude.{◌≡◌, ◌<◌, ◌^◌, None, IfOk};
ghost use Rattle.std.specs.Arc.{arc_value};
ghost use Rattle.tablet_model.specs.Steps as model;
ghost use Rattle.tablet_model.specs.Steps.{refuse};
ghost use Rattle.iter_config.specs.RulesOf.{rules_of};
ghost use Rattle.tablet_view.specs.Snapshot.{after_freeze};
ghost use Rattle.tablet_steps.specs.ModelSteps.{model_answer_of};
ghost use Rattle.tablet_core.specs.State.{Answers, IsRefusal, state_of};

use super::Core;
use cell_key::NoMemory;
use std::alloc::Global;
use std::sync::Arc;
use tablet_steps::{Answer, StepRefusal};
use tablet_view::View;

impl Core {
    /// Why nothing is frozen.
    fn freeze_refusal(&self) -> Option<StepRefusal>
        ensures { IsRefusal result (refuse (rules_of self.now.view.config) (state_of self.now) model.freeze) }
    {
        if self.view.frozen_count().is_some() {
            return Some(StepRefusal::FrozenThere);
        }
        if self.view.memory_count() == 0 {
            return Some(StepRefusal::NothingInMemory);
        }
        None
    }

    fn frozen(&self, alloc: Global) -> Result<Arc<View>, NoMemory>
        requires version { self.now.view.version < 2 ^ 63 }
        requires free { self.now.view.frozen ≡ None }
        ensures { IfOk result (λ view. arc_value view ≡ after_freeze self.now.view) }
    {
        Ok(Arc::new(alloc, self.view.freeze(alloc)?)?)
    }

    /// The memory becomes the frozen part.
    pub(super) fn freeze(&mut self, alloc: Global) -> Answer
        requires { self.old.view.version < 2 ^ 63 }
        ensures { Answers model.freeze self.old self.new (model_answer_of result) }
    {
        if let Some(refusal) = self.freeze_refusal() {
            return Answer::Refused(refusal);
        }
        let count = self.view().memory_count();
        match self.frozen(alloc) {
            Ok(view) => {
                self.view = view;
                Answer::Frozen(count)
            }
            Err(_) => Answer::NoMemory,
        }
    }
}
