//! The trait of sorted sources.
ghost use Rattle.std.specs.Prelude.{◌≡◌, ◌<◌, List, [], Bool, true, length, is_ok, IsOk, IfOk, if◌then◌else◌, option_map};
ghost use Rattle.tablet_model.specs.Cell.{Cell};
ghost use Rattle.tablet_model.specs.Order.{above};
ghost use Rattle.tablet_model.specs.Sorted.{Ascends, first, later};
ghost use Rattle.tablet_model.specs.Bounds.{AreEntries};
ghost use Rattle.tablet_model.specs.Cuts.{within};
ghost use Rattle.cell_key.specs.Views.{cell_of};
ghost use Rattle.cell_key.specs.Ranges.{span_of};
ghost use Rattle.iter_contract.specs.Copies.{IsCopy};

use cell_key::{EntryRef, NoMemory, Range};
use std::alloc::Global;

/// A sorted source of entries, which is sought to a range and then stepped through it
/// (Accumulo's `SortedKeyValueIterator`).
///
/// A new source has nothing left until its first seek. After `NoMemory` nothing is left until the
/// next seek, which may follow any call. No call changes its entries, nor whether it is steady.
pub trait SortedSource: Sized + Drop {
    /// All its entries, in order.
    ghost cells: { Self → List Cell };

    /// The entries that are left of the range that it was sought to.
    ghost rest: { Self → List Cell };

    /// Whether `seek` and `next` take no memory.
    ghost steady: { Self → Bool };

    /// Whether its parts fit together. It holds of a new source, and each call needs it and leaves
    /// it so, whatever the call answers.
    ghost valid: { Self → Type 0 };

    /// Begins at the first entry in the range. Where the source is steady it takes no memory and
    /// succeeds.
    fn seek(&mut self, range: &Range<'_>) -> Result<(), NoMemory>
        requires { valid self.old }
        ensures cells { cells self.new ≡ cells self.old }
        ensures steady { steady self.new ≡ steady self.old }
        ensures valid { valid self.new }
        ensures rest { rest self.new ≡ (if is_ok result then within (span_of range.now) (cells self.old) else []) }
        ensures works { steady self.old ≡ true → IsOk result };

    /// The first entry that is left, and `None` where nothing is. It takes no memory.
    fn top(&self) -> Option<EntryRef<'_>>
        requires { valid self.now }
        ensures { option_map cell_of result ≡ first (rest self.now) };

    /// Drops the first entry that is left, of which there has to be one. Where the source is steady
    /// it takes no memory and succeeds.
    fn next(&mut self) -> Result<(), NoMemory>
        requires valid { valid self.old }
        requires top { 0 < length (rest self.old) }
        ensures cells { cells self.new ≡ cells self.old }
        ensures steady { steady self.new ≡ steady self.old }
        ensures valid { valid self.new }
        ensures rest { rest self.new ≡ (if is_ok result then later (rest self.old) else []) }
        ensures works { steady self.old ≡ true → IsOk result };

    /// A new source of the same entries, as steady, which is sought and stepped by itself. It takes
    /// memory.
    fn deep_copy(&self, alloc: Global) -> Result<Self, NoMemory>
        requires { valid self.now }
        ensures { IfOk result (λ copy. IsCopy (cells self.now) (steady self.now)
            (cells copy) (rest copy) (steady copy) (valid copy)) };

    /// Its entries are in order.
    ghost sorted: { (s : Self) → Ascends above (cells s) };

    /// Its entries are within the bounds of keys and times.
    ghost bounded: { (s : Self) → AreEntries (cells s) };
}
