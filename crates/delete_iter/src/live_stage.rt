//! The stage of live entries.
ghost use Rattle.std.specs.Prelude.{◌≡◌, true};

use crate::mark_stage::MarkStage;
use cell_key::{EntryRef, NoMemory};
use stages::Stage;
use std::alloc::Global;

/// The live entries (Accumulo): those that are no markers and that none hides. A marker hides what is in its column and
/// not newer.
#[derive(Drop)]
pub struct LiveStage {
    marks: MarkStage,
}

impl LiveStage {
    /// A stage that hides nothing yet. It takes the memory that its other calls need.
    pub fn new(alloc: Global) -> Result<LiveStage, NoMemory> {
        let marks = MarkStage::new(alloc)?;
        Ok(LiveStage { marks })
    }
}

impl Stage for LiveStage {
    ghost use Rattle.delete_iter.specs.LiveStages.{live_made, live_keeps, live_passed, live_unhidden};
    ghost use Rattle.delete_iter.specs.LivePass.{live_pass, live_narrows};

    ghost made = { live_made };

    ghost keeps = { live_keeps };

    ghost passed = { live_passed };

    ghost restarted = { live_unhidden };

    ghost wide = { λ _. true };

    ghost pass_is = { live_pass };

    ghost narrows = { λ _. live_narrows };

    fn take(&mut self, entry: EntryRef<'_>) -> bool {
        self.marks.take(entry) && !entry.key.deleted
    }

    fn restart(&mut self) {
        self.marks.restart();
    }

    fn widens(&self) -> bool {
        true
    }

    fn fresh(&self, alloc: Global) -> Result<LiveStage, NoMemory> {
        LiveStage::new(alloc)
    }
}
