//! The trait of stages.
ghost use Rattle.std.specs.Prelude.{◌≡◌, List, Bool, IfOk};
ghost use Rattle.tablet_model.specs.Cell.{Cell};
ghost use Rattle.tablet_model.specs.Order.{above};
ghost use Rattle.tablet_model.specs.Sorted.{Ascends, from_first};
ghost use Rattle.tablet_model.specs.Bounds.{AreEntries};
ghost use Rattle.tablet_model.specs.Cuts.{Span, is_behind, within};
ghost use Rattle.cell_key.specs.Views.{cell_of};
ghost use Rattle.stages.specs.Passes.{kept_from, seek_range};

use cell_key::{EntryRef, NoMemory};
use std::alloc::Global;

/// Drops entries of a sorted list in one pass, by what it met before them. It is open: `Staged` takes any stage. One that
/// looks at each entry alone is a `Test`, and needs no law.
pub trait Stage: Sized + Drop {
    /// What it makes of a list. No call changes it.
    ghost made: { Self → List Cell → List Cell };

    /// Whether it keeps the next entry, from where it has come to.
    ghost keeps: { Self → Cell → Bool };

    /// Where it is behind an entry, kept or not.
    ghost passed: { Self → Cell → Self };

    /// Where it is before a list.
    ghost restarted: { Self → Self };

    /// Whether a seek has to begin with the whole column of the range's start.
    ghost wide: { Self → Bool };

    /// Goes past the next entry, and tells whether it keeps it. It takes no memory.
    fn take(&mut self, entry: EntryRef<'_>) -> bool
        ensures kept { result ≡ keeps self.old (cell_of entry.entry) }
        ensures passed { self.new ≡ passed self.old (cell_of entry.entry) }
        ensures made { made self.new ≡ made self.old };

    /// Goes before a list. It takes no memory.
    fn restart(&mut self)
        ensures restarted { self.new ≡ restarted self.old }
        ensures made { made self.new ≡ made self.old };

    /// Whether a seek has to begin with the whole column of the range's start. It takes no memory.
    fn widens(&self) -> bool
        ensures { result ≡ wide self.now };

    /// A stage that makes the same, for a deep copy. It takes memory.
    fn fresh(&self, alloc: Global) -> Result<Self, NoMemory>
        ensures { IfOk result (λ other. made other ≡ made self.now) };

    /// A pass over a list in order keeps what the stage makes of it.
    ghost pass_is: { (s : Self) (list : List Cell) → Ascends above list
        → kept_from keeps passed (restarted s) list ≡ made s list };

    /// What it makes of the entries that a seek reaches is, from the start on, what a range has of what it makes of all.
    ghost narrows: { (s : Self) (span : Span) (list : List Cell) → Ascends above list → AreEntries list
        → from_first (λ e. is_behind span.start e.key) (made s (within (seek_range (wide s) span) list))
        ≡ within span (made s list) };
}
