//! The stage of the newest versions.
ghost use Rattle.std.specs.Prelude.{◌≡◌, IfOk};
ghost use Rattle.tablet_model.specs.Cell.{column_of};
ghost use Rattle.cell_key.specs.Views.{key_of};
ghost use Rattle.versioning.specs.VersionStages.{counted_of, most_in};

use cell_key::{ColumnBuf, EntryRef, KeyRef, NoMemory};
use stages::Stage;
use std::alloc::Global;

/// The newest versions of each column (Accumulo's `VersioningIterator`). Markers are kept and not counted (this
/// project's rule).
#[derive(Drop)]
pub struct VersionStage {
    /// The column of the last version that was counted, and how many of it were.
    column: ColumnBuf,
    counted: u32,
    /// The most versions of a column that are kept.
    max: u32,
}

impl VersionStage {
    /// A stage that keeps at most `max` versions of each column. It takes the memory that its other calls need.
    pub fn new(alloc: Global, max: u32) -> Result<VersionStage, NoMemory>
        ensures { IfOk result (λ stage. most_in stage ≡ max) }
    {
        let column = ColumnBuf::new(alloc)?;
        Ok(VersionStage {
            column,
            counted: 0,
            max,
        })
    }

    /// How many versions of the key's column were counted.
    fn counted_of(&self, key: KeyRef<'_>) -> u32
        ensures { result ≡ counted_of self.now (column_of (key_of key.entry)) }
    {
        if self.column.holds(key) {
            self.counted
        } else {
            0
        }
    }
}

impl Stage for VersionStage {
    ghost use Rattle.std.specs.Prelude.{true};
    ghost use Rattle.versioning.specs.VersionStages.{version_made, keeps, after_entry, without_count};
    ghost use Rattle.versioning.specs.CountPass.{version_pass, version_narrows};

    ghost made = { version_made };

    ghost keeps = { keeps };

    ghost passed = { after_entry };

    ghost restarted = { without_count };

    ghost wide = { λ _. true };

    ghost pass_is = { version_pass };

    ghost narrows = { λ s. version_narrows (most_in s) };

    fn take(&mut self, entry: EntryRef<'_>) -> bool {
        if entry.key.deleted {
            return true;
        }
        let counted = self.counted_of(entry.key);
        if counted >= self.max {
            return false;
        }
        self.counted = counted + 1;
        self.column.set(entry.key);
        true
    }

    fn restart(&mut self) {
        self.counted = 0;
    }

    fn widens(&self) -> bool {
        true
    }

    fn fresh(&self, alloc: Global) -> Result<VersionStage, NoMemory> {
        VersionStage::new(alloc, self.max)
    }
}
