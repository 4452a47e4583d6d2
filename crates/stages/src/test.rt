//! The trait of tests.
ghost use Rattle.std.specs.Prelude.{◌≡◌, List, Bool, IfOk};
ghost use Rattle.tablet_model.specs.Cell.{Cell};
ghost use Rattle.cell_key.specs.Views.{cell_of};

use cell_key::{EntryRef, NoMemory};
use std::alloc::Global;

/// A test of each entry alone (Accumulo's `Filter.accept`), a delete marker too. It is open: `Tested` makes a stage of any
/// test.
pub trait Test: Sized + Drop {
    /// Which entries pass.
    ghost passes: { Self → Cell → Bool };

    /// Whether an entry passes. It takes no memory.
    fn passes(&self, entry: EntryRef<'_>) -> bool
        ensures { result ≡ passes self.now (cell_of entry.entry) };

    /// An equal test, for a deep copy. It takes memory.
    fn fresh(&self, alloc: Global) -> Result<Self, NoMemory>
        ensures { IfOk result (λ other. passes other ≡ passes self.now) };
}
