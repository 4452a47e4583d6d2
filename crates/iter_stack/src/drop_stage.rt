//! The stages of a level that drop entries.
ghost use Rattle.std.specs.Prelude.{◌≡◌};

use cell_key::{EntryRef, NoMemory};
use delete_iter::{LiveStage, MarkStage};
use filters::FilterStage;
use stages::Stage;
use std::alloc::Global;
use versioning::VersionStage;

/// What one level drops of its source.
#[derive(Drop)]
pub enum DropStage {
    /// What markers hide, and the markers.
    Live(LiveStage),
    /// What stands behind a marker of its column.
    Mark(MarkStage),
    /// What doesn't pass a test.
    Filter(FilterStage),
    /// The older versions of each column.
    Versions(VersionStage),
}

impl Stage for DropStage {
    ghost use Rattle.iter_stack.specs.DropStages.{drop_made, drop_keeps, drop_passed, drop_restarted, drop_wide, drop_pass, drop_narrows};

    ghost made = { drop_made };

    ghost keeps = { drop_keeps };

    ghost passed = { drop_passed };

    ghost restarted = { drop_restarted };

    ghost wide = { drop_wide };

    ghost pass_is = { drop_pass };

    ghost narrows = { drop_narrows };

    fn take(&mut self, entry: EntryRef<'_>) -> bool {
        match self {
            DropStage::Live(stage) => stage.take(entry),
            DropStage::Mark(stage) => stage.take(entry),
            DropStage::Filter(stage) => stage.take(entry),
            DropStage::Versions(stage) => stage.take(entry),
        }
    }

    fn restart(&mut self) {
        match self {
            DropStage::Live(stage) => stage.restart(),
            DropStage::Mark(stage) => stage.restart(),
            DropStage::Filter(stage) => stage.restart(),
            DropStage::Versions(stage) => stage.restart(),
        }
    }

    fn widens(&self) -> bool {
        match self {
            DropStage::Live(stage) => stage.widens(),
            DropStage::Mark(stage) => stage.widens(),
            DropStage::Filter(stage) => stage.widens(),
            DropStage::Versions(stage) => stage.widens(),
        }
    }

    fn fresh(&self, alloc: Global) -> Result<DropStage, NoMemory> {
        match self {
            DropStage::Live(stage) => Ok(DropStage::Live(stage.fresh(alloc)?)),
            DropStage::Mark(stage) => Ok(DropStage::Mark(stage.fresh(alloc)?)),
            DropStage::Filter(stage) => Ok(DropStage::Filter(stage.fresh(alloc)?)),
            DropStage::Versions(stage) => Ok(DropStage::Versions(stage.fresh(alloc)?)),
        }
    }
}
