//! The stage of marked entries.
ghost use Rattle.std.specs.Prelude.{◌≡◌, true};

use cell_key::{ColumnBuf, EntryRef, NoMemory};
use stages::Stage;
use std::alloc::Global;

/// The marked entries, which compactions keep that keep markers (this project's rule): of each column the newest marker
/// and what sorts before it.
#[derive(Drop)]
pub struct MarkStage {
    /// The column of the last marker that was met. It is hidden where `is_hiding` holds.
    column: ColumnBuf,
    is_hiding: bool,
}

impl MarkStage {
    /// A stage that hides nothing yet. It takes the memory that its other calls need.
    pub fn new(alloc: Global) -> Result<MarkStage, NoMemory> {
        let column = ColumnBuf::new(alloc)?;
        Ok(MarkStage {
            column,
            is_hiding: false,
        })
    }
}

impl Stage for MarkStage {
    ghost use Rattle.delete_iter.specs.MarkStages.{mark_made, keeps, after_entry, without_hidden};
    ghost use Rattle.delete_iter.specs.MarkPass.{mark_pass, mark_narrows};

    ghost made = { mark_made };

    ghost keeps = { keeps };

    ghost passed = { after_entry };

    ghost restarted = { without_hidden };

    ghost wide = { λ _. true };

    ghost pass_is = { mark_pass };

    ghost narrows = { λ _. mark_narrows };

    fn take(&mut self, entry: EntryRef<'_>) -> bool {
        if self.is_hiding && self.column.holds(entry.key) {
            return false;
        }
        if entry.key.deleted {
            self.column.set(entry.key);
            self.is_hiding = true;
        }
        true
    }

    fn restart(&mut self) {
        self.is_hiding = false;
    }

    fn widens(&self) -> bool {
        true
    }

    fn fresh(&self, alloc: Global) -> Result<MarkStage, NoMemory> {
        MarkStage::new(alloc)
    }
}
