//! Each step by its name.
ghost use Rattle.std.specs.Prelude.{◌<◌, ◌^◌};
ghost use Rattle.tablet_steps.specs.ModelSteps.{event_of, model_answer_of};
ghost use Rattle.tablet_core.specs.State.{Answers};

use super::Core;
use std::alloc::Global;
use tablet_steps::{Answer, Event};

impl Core {
    /// One step, and the answer to it. A refused step changes nothing. It takes memory only where no refusal stands; without it
    /// nothing is changed.
    pub fn step(&mut self, alloc: Global, event: &Event) -> Answer
        requires { self.old.view.version < 2 ^ 63 }
        ensures { Answers (event_of event.now) self.old self.new (model_answer_of result) }
    {
        match event {
            Event::Apply(mutation) => self.apply(alloc, mutation),
            Event::Freeze => self.freeze(alloc),
            Event::Flush => self.flush(alloc),
            Event::Compact { job, files } => self.compact(alloc, *job, files),
            Event::CompactAll { job } => self.compact_all(alloc, *job),
            Event::Finish { job } => self.finish(alloc, *job),
        }
    }
}
